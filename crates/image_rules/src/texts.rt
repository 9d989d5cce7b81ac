//! Texts in order, and names.
ghost use Rattle.std.specs.Prelude.{◌≡◌, map, IfOk};
ghost use Rattle.std.specs.Cmp.Lexicographic.{slice_cmp};
ghost use Rattle.std.specs.List.{list_all};
ghost use Rattle.std.specs.Ordering.{is_lt, nat_cmp};
ghost use Rattle.image_text.specs.Images as images;
ghost use Rattle.store_model.specs.Events as events;

use event_script::is_short;
use gql_graph::seen::Seen;
use image_text::gql_plain::NoMemory;
use std::alloc::Global;

/// Whether one text is below another, by bytes; takes no memory.
fn is_below(one: &str, other: &str) -> bool
    ensures { result ≡ is_lt (slice_cmp nat_cmp one.now other.now) }
{
    one.cmp(other).is_lt()
}

/// Whether each text is below the next; takes no memory.
pub fn do_rise(texts: &[&str]) -> bool
    ensures { result ≡ images.rise (map (λ t. t.now) texts.now) }
{
    let mut at = 1;
    'texts: while at < texts.len() {
        if !is_below(texts[at - 1], texts[at]) {
            return false;
        }
        at += 1;
    }
    true
}

/// Whether each text has 1 to 200 bytes; takes no memory.
fn are_short(names: &[&str]) -> bool
    ensures { result ≡ list_all (λ n. events.is_short n.now) names.now }
{
    names.iter().all(|name| is_short(name))
}

/// Whether no text stands twice.
fn are_apart(alloc: Global, names: &[&str]) -> Result<bool, NoMemory>
    ensures { IfOk result (λ yes. yes ≡ images.are_apart (map (λ n. n.now) names.now)) }
{
    let mut seen = Seen::new(alloc);
    let mut at = names.len();
    'names: while at > 0 {
        at -= 1;
        let is_new = seen.insert(names[at])?;
        if !is_new {
            return Ok(false);
        }
    }
    Ok(true)
}

/// Whether these are names of live things: no more than the limit, each of 1 to 200 bytes, none twice.
pub fn are_names(alloc: Global, limit: usize, names: &[&str]) -> Result<bool, NoMemory>
    ensures { IfOk result (λ yes. yes ≡ images.are_names limit (map (λ n. n.now) names.now)) }
{
    if names.len() > limit {
        return Ok(false);
    }
    if !are_short(names) {
        return Ok(false);
    }
    let apart = are_apart(alloc, names)?;
    Ok(apart)
}
