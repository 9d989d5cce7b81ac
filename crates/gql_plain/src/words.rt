//! Texts.
ghost use Rattle.std.specs.Prelude.{◌≡◌, string_bytes, IfOk};
ghost use Rattle.std.specs.List.{list_all};
ghost use Rattle.gql_plain.specs.Names as names;

use crate::memory::NoMemory;
use std::alloc::Global;
use std::cmp::Ordering;
use std::marker::Model;

/// A text, seen as its UTF-8 bytes.
#[derive(Debug)]
pub struct Words {
    text: String,
}

impl Drop for Words {
    fn drop(self) {
        let Words { text } = self;
        drop(text);
    }
}

/// A text that has the form of a GraphQL Name: a letter or `_`, then letters, digits and `_`, all
/// ASCII (GraphQL, October 2021, section 2.1.9).
pub type Name = Words;

/// The id of a record: a text that is not empty.
pub type Id = Words;

impl Model for Words {
    ghost use Rattle.std.specs.Prelude.{ℕ, List, string_bytes};

    ghost Value = { List ℕ };

    ghost view = { λ w. string_bytes w.text };
}

impl Words {
    /// A copy of a text.
    pub fn new(alloc: Global, text: &str) -> Result<Words, NoMemory>
        ensures { IfOk result (λ w. w ≡ text.now) }
    {
        Ok(Words {
            text: String::from_str(alloc, text)?,
        })
    }

    /// The same text; takes no memory.
    pub fn from_string(text: String) -> Words
        ensures { result ≡ string_bytes text }
    {
        Words { text }
    }

    /// The text; takes no memory.
    pub fn as_str(&self) -> &str
        ensures { result.now ≡ self.now }
    {
        self.text.as_str()
    }

    /// The same text; takes no memory.
    pub fn into_string(self) -> String
        ensures { string_bytes result ≡ self }
    {
        let Words { text } = self;
        text
    }

    /// An equal text.
    pub fn copy(&self) -> Result<Words, NoMemory>
        ensures { IfOk result (λ w. w ≡ self.now) }
    {
        Ok(Words {
            text: self.text.clone()?,
        })
    }
}

impl PartialEq for Words {
    ghost use Rattle.std.specs.Prelude.{nat_eq};
    ghost use Rattle.std.specs.Cmp as Cmp;
    ghost use Rattle.std.specs.Cmp.Lexicographic.{pointwise, nat_list_eq_equiv};

    ghost eq = { pointwise nat_eq };

    ghost laws = { Cmp.partial_equiv_from_equiv nat_list_eq_equiv };

    fn eq(&self, other: &Words) -> bool {
        self.as_str() == other.as_str()
    }
}

impl Eq for Words {
    ghost use Rattle.std.specs.Cmp.Lexicographic.{nat_list_eq_equiv};

    ghost laws = { nat_list_eq_equiv };
}

impl PartialOrd for Words {
    ghost use Rattle.std.specs.Prelude.{Some};
    ghost use Rattle.std.specs.Cmp.Lexicographic.{slice_cmp, texts_po};
    ghost use Rattle.std.specs.Ordering.{nat_cmp};

    ghost partial_cmp = { λ a b. Some (slice_cmp nat_cmp a b) };

    ghost laws = { texts_po };

    fn partial_cmp(&self, other: &Words) -> Option<Ordering> {
        Some(self.cmp(other))
    }
}

impl Ord for Words {
    ghost use Rattle.std.specs.Prelude.{refl};
    ghost use Rattle.std.specs.Cmp.Lexicographic.{slice_cmp, nat_list_cmp_total, texts_ties};
    ghost use Rattle.std.specs.Ordering.{nat_cmp};

    ghost cmp = { slice_cmp nat_cmp };

    ghost total = { nat_list_cmp_total };

    ghost matches_partial_cmp = { λ a b. refl };

    ghost matches_eq = { texts_ties };

    /// By bytes.
    fn cmp(&self, other: &Words) -> Ordering {
        self.as_str().cmp(other.as_str())
    }
}

/// Whether a text has the form of a Name (GraphQL, October 2021, section 2.1.9); takes no memory.
pub fn is_name(text: &str) -> bool
    ensures { result ≡ names.is_name text.now }
{
    match text.as_bytes() {
        [first, more @ ..] => is_name_start(*first) && are_name_bytes(more),
        [] => false,
    }
}

/// Whether each byte may stand in a Name.
fn are_name_bytes(bytes: &[u8]) -> bool
    ensures { result ≡ list_all names.is_name_byte bytes.now }
{
    'bytes: for byte in bytes {
        if !is_name_byte(*byte) {
            return false;
        }
    }
    true
}

/// Whether a byte may begin a Name.
fn is_name_start(byte: u8) -> bool
    ensures { result ≡ names.is_name_start byte }
{
    is_within(b'A', b'Z', byte) || is_within(b'a', b'z', byte) || byte == b'_'
}

/// Whether a byte may stand in a Name.
fn is_name_byte(byte: u8) -> bool
    ensures { result ≡ names.is_name_byte byte }
{
    is_name_start(byte) || is_within(b'0', b'9', byte)
}

/// Whether a byte lies between two, both included.
fn is_within(low: u8, high: u8, byte: u8) -> bool
    ensures { result ≡ names.is_within low high byte }
{
    low <= byte && byte <= high
}
