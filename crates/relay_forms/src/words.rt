//! The words of the program.
ghost use Rattle.std.specs.Prelude.{◌≡◌, true, map, option_map, IfSome};
ghost use Rattle.relay_forms.specs.FormShown.{asked_shown};
ghost use Rattle.relay_forms.specs.Words as forms;

/// The most documents of a project.
const MAX_DOCUMENTS: usize = 1_000;

/// The most lines that are asked for of the large script.
const MAX_LINES: u64 = 1_000_000;

/// What the words ask for over files.
#[derive(Clone, Copy, Debug)]
pub enum Form<'a, 'b> {
    /// Runs a script against the project of these files, and keeps at most `buffer` released
    /// operations.
    Run {
        buffer: u64,
        schema: &'a str,
        documents: &'b [&'a str],
    },
    /// Writes the artifact lines of the project of these files.
    Compile {
        schema: &'a str,
        documents: &'b [&'a str],
    },
}

/// What the words ask for.
#[derive(Clone, Copy, Debug)]
pub enum Asked<'a, 'b> {
    OnFiles(Form<'a, 'b>),
    /// The summary of the first `count` lines of the large script of this seed.
    Bulk { seed: u64, count: u64 },
}

/// What the words ask for: `run B SCHEMA DOC..`, with a B of 1 to 100, or `compile SCHEMA DOC..`, each
/// with 1 to 1,000 documents, or `bulk SEED COUNT`, with a SEED below 2^64 and a COUNT of 1 to
/// 1,000,000. None where they are no form; takes no memory.
pub fn asked_by<'a, 'b>(words: &'b [&'a str]) -> Option<Asked<'a, 'b>>
    ensures asked { option_map asked_shown result ≡ forms.asked_by (map (λ w. w.now) words.now) }
    ensures within { IfSome result (λ a. forms.IsAskedWithin (asked_shown a)) }
{
    match words {
        [first, words @ ..] if *first == "run" => run_form(words),
        [first, words @ ..] if *first == "compile" => compile_form(words),
        [first, words @ ..] if *first == "bulk" => bulk_form(words),
        _ => None,
    }
}

/// What the words after `run` ask for.
fn run_form<'a, 'b>(words: &'b [&'a str]) -> Option<Asked<'a, 'b>>
    ensures asked { option_map asked_shown result ≡ forms.run_form (map (λ w. w.now) words.now) }
    ensures within { IfSome result (λ a. forms.IsAskedWithin (asked_shown a)) }
{
    match words {
        [word, schema, documents @ ..] if is_buffer(word) && are_documents(documents) => {
            let buffer = number(word);
            Some(Asked::OnFiles(Form::Run {
                buffer,
                schema,
                documents,
            }))
        }
        _ => None,
    }
}

/// What the words after `compile` ask for.
fn compile_form<'a, 'b>(words: &'b [&'a str]) -> Option<Asked<'a, 'b>>
    ensures asked { option_map asked_shown result ≡ forms.compile_form (map (λ w. w.now) words.now) }
    ensures within { IfSome result (λ a. forms.IsAskedWithin (asked_shown a)) }
{
    match words {
        [schema, documents @ ..] if are_documents(documents) => {
            Some(Asked::OnFiles(Form::Compile { schema, documents }))
        }
        _ => None,
    }
}

/// What the words after `bulk` ask for.
fn bulk_form<'a, 'b>(words: &'b [&'a str]) -> Option<Asked<'a, 'b>>
    ensures asked { option_map asked_shown result ≡ forms.bulk_form (map (λ w. w.now) words.now) }
    ensures within { IfSome result (λ a. forms.IsAskedWithin (asked_shown a)) }
{
    match words {
        [seed, count] => {
            let seed = seed_of(seed)?;
            let count = count_of(count)?;
            Some(Asked::Bulk { seed, count })
        }
        _ => None,
    }
}

/// Whether there are 1 to 1,000 names.
fn are_documents(names: &[&str]) -> bool
    ensures { result ≡ forms.are_documents (map (λ w. w.now) names.now) }
{
    1 <= names.len() && names.len() <= MAX_DOCUMENTS
}

/// Whether the word is a number of 1 to 100: decimal digits without a sign and without a zero in front.
fn is_buffer(word: &str) -> bool
    ensures { result ≡ forms.is_buffer word.now }
{
    match word.as_bytes() {
        [ones] => matches!(ones, b'1'..=b'9'),
        [tens, ones] => matches!(tens, b'1'..=b'9') && ones.is_ascii_digit(),
        [_, _, _, ..] => word == "100",
        [] => false,
    }
}

/// The number of 1 to 100 that the word is.
fn number(word: &str) -> u64
    requires { forms.is_buffer word.now ≡ true }
    ensures { result ≡ forms.decimal word.now }
{
    match word.as_bytes() {
        [ones] => (ones - b'0') as u64,
        [tens, ones] => 10 * (tens - b'0') as u64 + (ones - b'0') as u64,
        [_, _, _, ..] => 100,
        [] => 0,
    }
}

/// The number of 1 to 1,000,000 that the word is: decimal digits without a sign and without a zero in
/// front.
fn count_of(word: &str) -> Option<u64>
    ensures { result ≡ forms.count_in word.now }
{
    let count = seed_of(word)?;
    if 1 <= count && count <= MAX_LINES {
        Some(count)
    } else {
        None
    }
}

/// The number below 2^64 that the word is: decimal digits without a sign and without a zero in front.
fn seed_of(word: &str) -> Option<u64>
    ensures { result ≡ forms.seed_in word.now }
{
    let digits = word.as_bytes();
    if !is_plain(digits) {
        return None;
    }
    decimal_of(digits)
}

/// Whether there is something, and no zero in front of more.
fn is_plain(digits: &[u8]) -> bool
    ensures { result ≡ forms.is_plain digits.now }
{
    match digits {
        [] => false,
        [_] => true,
        [first, _, ..] => *first != b'0',
    }
}

/// The number below 2^64 that these digits write.
fn decimal_of(digits: &[u8]) -> Option<u64>
    ensures { result ≡ forms.decimal_in digits.now }
{
    let mut number = 0u64;
    'digits: for digit in digits {
        if !digit.is_ascii_digit() {
            return None;
        }
        number = number.checked_mul(10)?.checked_add((*digit - b'0') as u64)?;
    }
    Some(number)
}
