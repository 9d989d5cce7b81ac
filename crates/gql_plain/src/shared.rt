//! Texts that several owners share.
ghost use Rattle.std.specs.Prelude.{◌≡◌, IfOk};

use crate::memory::NoMemory;
use crate::words::Words;
use std::alloc::Global;
use std::cmp::Ordering;
use std::marker::Model;
use std::rc::Rc;

/// A text that several owners share, seen as its UTF-8 bytes.
#[derive(Debug)]
pub struct SharedText {
    text: Rc<Words>,
}

impl Drop for SharedText {
    fn drop(self) {
        let SharedText { text } = self;
        drop(text);
    }
}

impl Model for SharedText {
    ghost use Rattle.std.specs.Prelude.{ℕ, List};

    ghost Value = { List ℕ };

    ghost view = { λ s. s.text.value };
}

impl SharedText {
    /// The text, so that it can be shared.
    pub fn new(alloc: Global, text: Words) -> Result<SharedText, NoMemory>
        ensures { IfOk result (λ shared. shared ≡ text) }
    {
        Ok(SharedText {
            text: Rc::new(alloc, text)?,
        })
    }

    /// The text; takes no memory.
    pub fn as_str(&self) -> &str
        ensures { result.now ≡ self.now }
    {
        self.text.as_str()
    }

    /// The text; takes no memory.
    pub fn as_words(&self) -> &Words
        ensures { result.now ≡ self.now }
    {
        &self.text
    }

    /// The text for one owner: itself where this was its last owner, which takes no memory, and else a
    /// copy.
    pub fn into_words(self) -> Result<Words, NoMemory>
        ensures { IfOk result (λ words. words ≡ self) }
    {
        let SharedText { text } = self;
        match Rc::try_unwrap(text) {
            Ok(words) => Ok(words),
            Err(shared) => shared.copy(),
        }
    }

    /// One more owner of the same text.
    pub fn copy(&self) -> Result<SharedText, NoMemory>
        ensures { IfOk result (λ shared. shared ≡ self.now) }
    {
        Ok(SharedText {
            text: self.text.clone()?,
        })
    }
}

impl PartialEq for SharedText {
    ghost use Rattle.std.specs.Prelude.{nat_eq};
    ghost use Rattle.std.specs.Cmp as Cmp;
    ghost use Rattle.std.specs.Cmp.Lexicographic.{pointwise, nat_list_eq_equiv};

    ghost eq = { pointwise nat_eq };

    ghost laws = { Cmp.partial_equiv_from_equiv nat_list_eq_equiv };

    fn eq(&self, other: &SharedText) -> bool {
        self.as_words() == other.as_words()
    }
}

impl Eq for SharedText {
    ghost use Rattle.std.specs.Cmp.Lexicographic.{nat_list_eq_equiv};

    ghost laws = { nat_list_eq_equiv };
}

impl PartialOrd for SharedText {
    ghost use Rattle.std.specs.Prelude.{Some};
    ghost use Rattle.std.specs.Cmp.Lexicographic.{slice_cmp, texts_po};
    ghost use Rattle.std.specs.Ordering.{nat_cmp};

    ghost partial_cmp = { λ a b. Some (slice_cmp nat_cmp a b) };

    ghost laws = { texts_po };

    fn partial_cmp(&self, other: &SharedText) -> Option<Ordering> {
        Some(self.cmp(other))
    }
}

impl Ord for SharedText {
    ghost use Rattle.std.specs.Prelude.{refl};
    ghost use Rattle.std.specs.Cmp.Lexicographic.{slice_cmp, nat_list_cmp_total, texts_ties};
    ghost use Rattle.std.specs.Ordering.{nat_cmp};

    ghost cmp = { slice_cmp nat_cmp };

    ghost total = { nat_list_cmp_total };

    ghost matches_partial_cmp = { λ a b. refl };

    ghost matches_eq = { texts_ties };

    /// By bytes.
    fn cmp(&self, other: &SharedText) -> Ordering {
        self.as_words().cmp(other.as_words())
    }
}
