//! Where values are written.
ghost use Rattle.std.specs.Prelude.{◌≡◌, ◌++◌, ◌∷◌, [], None, OnOk};
ghost use Rattle.json.specs.Token.{null};
ghost use Rattle.store_show.specs.Showing.{lead_of, led};

use json::Writer;
use plan_ir::NoMemory;

/// Where a value is written.
#[derive(Clone, Copy)]
pub(crate) enum Lead<'a> {
    /// Under a response key; where it is missing, neither of them is written.
    Member(&'a str),
    /// By itself; where it is missing, null is.
    Alone,
}

impl<'a> Lead<'a> {
    /// Writes what stands before a value that is there.
    pub(crate) fn begin(self, out: &mut Writer) -> Result<(), NoMemory>
        ensures tokens { OnOk result (out.new.tokens ≡ out.old.tokens ++ lead_of self.entry) }
        ensures before { out.new.before ≡ out.old.before }
    {
        match self {
            Lead::Member(key) => out.key(key)?,
            Lead::Alone => {}
        }
        Ok(())
    }

    /// Writes null, as a value that is there.
    pub(crate) fn null(self, out: &mut Writer) -> Result<(), NoMemory>
        ensures tokens { OnOk result (out.new.tokens ≡ out.old.tokens ++ (lead_of self.entry ++ null ∷ [])) }
        ensures before { out.new.before ≡ out.old.before }
    {
        self.begin(out)?;
        out.null()?;
        Ok(())
    }

    /// Writes what stands for a value that is missing.
    pub(crate) fn missing(self, out: &mut Writer) -> Result<(), NoMemory>
        ensures tokens { OnOk result (out.new.tokens ≡ out.old.tokens ++ led self.entry None) }
        ensures before { out.new.before ≡ out.old.before }
    {
        match self {
            Lead::Member(_) => {}
            Lead::Alone => out.null()?,
        }
        Ok(())
    }
}
