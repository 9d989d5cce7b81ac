//! Scripts that are answered as they come: over sources that give little, fail or give too much, and
//! over sinks that take little or fail.
ghost use Rattle.std.specs.Prelude.{None};

use crate::rows::WATCH;
use crate::running::{
    ANSWERS, Moves, ONE, QUERY, Repeating, SCHEMA, SCRIPT, WHOLE, answers_over, parts_of,
    run_between, vault_of,
};
use relay_io::{Failed, MemSink, Sink, Source};
use relay_top::{Counts, Status, relay_top};
use std::alloc::Global;
use std::cell::Cell;
use std::test::Fail;

// Gives a byte a call, and shows others how often it was called.
#[derive(Drop)]
struct Shown<'a> {
    bytes: &'a [u8],
    calls: u64,
    shown: &'a Cell<u64>,
}

impl<'a> Source for Shown<'a> {
    ghost left = { λ _. None };

    ghost faults = { λ _. 0 };

    ghost calls = { λ s. s.calls };

    fn read(&mut self, into: &mut [u8]) -> Result<usize, Failed> {
        self.calls = self.calls.saturating_add(1);
        self.shown.set(self.calls);
        let count = self.bytes.len().min(into.len()).min(1);
        into[..count].copy_from_slice(&self.bytes[..count]);
        self.bytes = &self.bytes[count..];
        Ok(count)
    }
}

// Takes all that it is given. It looks how often a source was called before each of its calls, and
// counts the calls where that is the number that is due.
#[derive(Drop)]
struct Looking<'a> {
    reads: &'a Cell<u64>,
    due: &'a [u64],
    calls: u64,
    right: u64,
}

impl<'a> Sink for Looking<'a> {
    ghost contents = { λ _. None };

    ghost faults = { λ _. 0 };

    ghost calls = { λ s. s.calls };

    fn put(&mut self, bytes: &[u8]) -> Result<usize, Failed> {
        self.calls = self.calls.saturating_add(1);
        if let [due, later @ ..] = self.due {
            if *due == self.reads.get() {
                self.right = self.right.saturating_add(1);
            }
            self.due = later;
        }
        Ok(bytes.len())
    }
}

// The lines end at the bytes 38, 119 and 146.
#[test]
fn a_line_is_answered_before_the_next_byte_is_read(rt: HostRuntime) -> Result<(), Fail> {
    let alloc = rt.alloc();
    let reads = Cell::new(0);
    let mut vault = vault_of(alloc, SCHEMA, QUERY.as_bytes(), "")?;
    let mut script = Shown {
        bytes: SCRIPT.as_bytes(),
        calls: 0,
        shown: &reads,
    };
    let mut out = Looking {
        reads: &reads,
        due: &[38, 119, 146],
        calls: 0,
        right: 0,
    };
    let mut steps = Counts::new();
    let status = relay_top(alloc, &ONE, &mut vault, &mut script, &mut out, &mut steps);
    assert_eq!(rt; status, Status::Done);
    assert_eq!(rt; out.right, 3);
    assert_eq!(rt; out.calls, 3);
    assert_eq!(rt; reads.get(), 147);
    Ok(())
}

// So many of the first bytes, or all where they are fewer.
fn first(bytes: &[u8], count: usize) -> &[u8] {
    &bytes[..count.min(bytes.len())]
}

// What the script of three lines, or another one over the same files, is answered.
fn answers_of(
    alloc: Global,
    script: &[u8],
    reads: Moves,
    puts: Moves,
) -> Result<(Status, Vec<u8>), Fail> {
    let vault = vault_of(alloc, SCHEMA, QUERY.as_bytes(), "")?;
    run_between(alloc, vault, script, reads, puts)
}

const RETAINED: &str = "{\"n\":1,\"ok\":\"retain\"}\n";

#[test]
fn a_reading_that_fails_leaves_the_answers_of_the_lines_before(
    rt: HostRuntime,
) -> Result<(), Fail> {
    let reads = Moves {
        piece: 60,
        failing: 2,
    };
    let (status, held) = answers_of(rt.alloc(), SCRIPT.as_bytes(), reads, WHOLE)?;
    assert_eq!(rt; status, Status::ReadFault);
    assert_eq!(rt; held.as_slice(), RETAINED.as_bytes());
    Ok(())
}

#[test]
fn a_last_line_that_is_cut_is_a_line(rt: HostRuntime) -> Result<(), Fail> {
    let script = first(SCRIPT.as_bytes(), 60);
    let (status, held) = answers_of(rt.alloc(), script, WHOLE, WHOLE)?;
    assert_eq!(rt; status, Status::DoneWithRefusals);
    assert_eq!(rt;
        held.as_slice(),
        b"{\"n\":1,\"ok\":\"retain\"}\n{\"code\":1,\"error\":\"NotJson\",\"n\":2}\n".as_slice()
    );
    Ok(())
}

// The script ends within its last line. Two calls give it, and the third finds its end.
#[test]
fn a_last_line_is_answered_at_the_end_alone(rt: HostRuntime) -> Result<(), Fail> {
    let alloc = rt.alloc();
    for (failing, wanted, lines) in [
        (0u64, Status::Done, COLLECTED),
        (2, Status::ReadFault, ""),
        (3, Status::ReadFault, ""),
    ] {
        let reads = Moves { piece: 10, failing };
        let (status, held) = answers_of(alloc, COLLECT.as_bytes(), reads, WHOLE)?;
        assert_eq!(rt; status, wanted, "at {failing}");
        assert_eq!(rt; held.as_slice(), lines.as_bytes(), "at {failing}");
    }
    Ok(())
}

// How many bytes the answers have of the lines that end within so many bytes of the script of three
// lines.
fn answered_by(bytes: u64) -> usize {
    match bytes {
        0..=37 => 0,
        38..=118 => 22,
        119..=145 => 45,
        _ => ANSWERS.len(),
    }
}

// A byte a call, of which one fails after the other: the last of them is the one that finds the end.
#[test]
fn whichever_reading_fails_each_ended_line_is_answered(rt: HostRuntime) -> Result<(), Fail> {
    let alloc = rt.alloc();
    for call in 1..=147u64 {
        let reads = Moves {
            piece: 1,
            failing: call,
        };
        let (status, held) = answers_of(alloc, SCRIPT.as_bytes(), reads, WHOLE)?;
        assert_eq!(rt; status, Status::ReadFault, "at {call}");
        let wanted = first(ANSWERS.as_bytes(), answered_by(call.saturating_sub(1)));
        assert_eq!(rt; held.as_slice(), wanted, "at {call}");
    }
    Ok(())
}

// The lines of the script with a watch: where the LF of each stands, and how many bytes the answers
// and notifications of it and of those before have.
const WATCH_LINES: [(usize, usize); 6] = [
    (37, 22),
    (113, 45),
    (153, 133),
    (232, 242),
    (308, 353),
    (336, 463),
];

// What is due of the first bytes of the script with a watch: the number of the line that is cut, none
// where none is, and how many bytes of answers come before. A line that lacks its LF alone is whole.
fn due_of(bytes: usize) -> (Option<usize>, usize) {
    let (mut begin, mut held) = (0, 0);
    for (n, (end, more)) in WATCH_LINES.iter().enumerate() {
        if bytes < *end {
            let cut = if bytes <= begin {
                None
            } else {
                Some(n.saturating_add(1))
            };
            return (cut, held);
        }
        begin = end.saturating_add(1);
        held = *more;
    }
    (None, held)
}

// The lines that are due of so many of the first bytes of the script with a watch.
fn wanted_of(alloc: Global, lines: &str, bytes: usize) -> Result<String, Fail> {
    let (cut, held) = due_of(bytes);
    let before = lines.get(..held).unwrap_or("");
    match cut {
        None => Ok(String::from_str(alloc, before)?),
        Some(n) => Ok(format!(in alloc;
            "{before}{{\"code\":1,\"error\":\"NotJson\",\"n\":{n}}}\n"
        )?),
    }
}

#[test]
fn a_script_that_is_cut_anywhere_is_answered_as_far_as_it_goes(
    rt: HostRuntime,
) -> Result<(), Fail> {
    let alloc = rt.alloc();
    let (document, script, lines) = parts_of(WATCH);
    for bytes in 0..=script.len() {
        let begun = first(script.as_bytes(), bytes);
        let (status, held) = answers_over(alloc, document, begun, WHOLE, WHOLE)?;
        let done = due_of(bytes).0.is_none();
        assert_eq!(rt; status == Status::Done, done, "at {bytes}");
        assert_eq!(rt; status == Status::DoneWithRefusals, !done, "at {bytes}");
        let wanted = wanted_of(alloc, lines, bytes)?;
        assert_eq!(rt; held.as_slice(), wanted.as_bytes(), "at {bytes}");
    }
    Ok(())
}

#[test]
fn whichever_put_fails_the_lines_before_are_answered(rt: HostRuntime) -> Result<(), Fail> {
    let alloc = rt.alloc();
    let (document, script, lines) = parts_of(WATCH);
    let mut answered = 0;
    let mut call = 1;
    for (_, more) in &WATCH_LINES {
        let puts = Moves {
            piece: 65_536,
            failing: call,
        };
        let (status, held) = answers_over(alloc, document, script.as_bytes(), WHOLE, puts)?;
        assert_eq!(rt; status, Status::WriteFault, "at {call}");
        assert_eq!(rt;
            held.as_slice(),
            first(lines.as_bytes(), answered),
            "at {call}"
        );
        answered = *more;
        call = call.saturating_add(1);
    }
    Ok(())
}

#[test]
fn a_put_of_a_byte_that_fails_leaves_a_part_of_a_line(rt: HostRuntime) -> Result<(), Fail> {
    let puts = Moves {
        piece: 1,
        failing: 30,
    };
    let (status, held) = answers_of(rt.alloc(), SCRIPT.as_bytes(), WHOLE, puts)?;
    assert_eq!(rt; status, Status::WriteFault);
    assert_eq!(rt;
        held.as_slice(),
        b"{\"n\":1,\"ok\":\"retain\"}\n{\"n\":2,".as_slice()
    );
    Ok(())
}

// Lines of no text, of bytes that are no UTF-8, and of an event with CR and LF behind it.
#[test]
fn a_line_that_is_empty_or_no_text_is_no_json(rt: HostRuntime) -> Result<(), Fail> {
    let script = b"\n\xFF\n\0\n{\"do\":\"collect\"}\r\n\r";
    let (status, held) = answers_of(rt.alloc(), script, WHOLE, WHOLE)?;
    assert_eq!(rt; status, Status::DoneWithRefusals);
    assert_eq!(rt;
        held.as_slice(),
        b"{\"code\":1,\"error\":\"NotJson\",\"n\":1}\n\
          {\"code\":1,\"error\":\"NotJson\",\"n\":2}\n\
          {\"code\":1,\"error\":\"NotJson\",\"n\":3}\n\
          {\"dropped\":0,\"n\":4,\"ok\":\"collect\",\"waiting\":false}\n\
          {\"code\":1,\"error\":\"NotJson\",\"n\":5}\n"
            .as_slice()
    );
    Ok(())
}

// The bytes of a page of a long line.
const PAGE: usize = 65_536;

// A text, and as many spaces as fill it up to a page.
fn page_of(alloc: Global, text: &str) -> Result<Vec<u8>, Fail> {
    let blanks = vec![in alloc; b' '; PAGE.saturating_sub(text.len())]?;
    let mut page = text.as_bytes().to_vec(alloc)?;
    page.extend_from_slice(&blanks)?;
    Ok(page)
}

// What is answered to a script of a page that begins so, of so many pages of spaces, and of an end.
fn long_answers(
    alloc: Global,
    begin: &str,
    pages: u64,
    end: &str,
) -> Result<(Status, Vec<u8>), Fail> {
    let text = page_of(alloc, begin)?;
    let line = page_of(alloc, "")?;
    let mut vault = vault_of(alloc, SCHEMA, QUERY.as_bytes(), "")?;
    let mut script = Repeating {
        text: &text,
        line: &line,
        times: pages,
        end: end.as_bytes(),
        calls: 0,
    };
    let mut out = MemSink::new(alloc, 4096, PAGE, Vec::new(alloc))?;
    let mut steps = Counts::new();
    let status = relay_top(alloc, &ONE, &mut vault, &mut script, &mut out, &mut steps);
    Ok((status, out.contents().to_vec(alloc)?))
}

const COLLECT: &str = "{\"do\":\"collect\"}";

const COLLECTED: &str = "{\"dropped\":0,\"n\":1,\"ok\":\"collect\",\"waiting\":false}\n";

const TOO_LONG: &str = "{\"code\":4,\"error\":\"LineTooLong\",\"n\":1}\n";

// 128 pages are 8 MiB.
#[test]
fn a_line_of_8_mib_is_answered(rt: HostRuntime) -> Result<(), Fail> {
    let (status, held) = long_answers(rt.alloc(), COLLECT, 127, "\n")?;
    assert_eq!(rt; status, Status::Done);
    assert_eq!(rt; held.as_slice(), COLLECTED.as_bytes());
    Ok(())
}

#[test]
fn a_line_of_more_than_8_mib_is_refused(rt: HostRuntime) -> Result<(), Fail> {
    let (status, held) = long_answers(rt.alloc(), COLLECT, 127, " \n")?;
    assert_eq!(rt; status, Status::DoneWithRefusals);
    assert_eq!(rt; held.as_slice(), TOO_LONG.as_bytes());
    Ok(())
}

// What stands in a line behind its first 8 MiB is no line of its own, and the line after it is.
#[test]
fn the_end_of_a_line_that_is_too_long_is_passed_over(rt: HostRuntime) -> Result<(), Fail> {
    let end = "{\"do\":\"collect\"}\n{\"do\":\"collect\"}\n";
    let (status, held) = long_answers(rt.alloc(), "", 128, end)?;
    assert_eq!(rt; status, Status::DoneWithRefusals);
    assert_eq!(rt;
        held.as_slice(),
        b"{\"code\":4,\"error\":\"LineTooLong\",\"n\":1}\n\
          {\"dropped\":0,\"n\":2,\"ok\":\"collect\",\"waiting\":false}\n"
            .as_slice()
    );
    Ok(())
}

// 16,384 pages are 1 GiB.
const LONG_LINES: &str = "{\"do\":\"collect\"}\n{\"do\":\"collect\"}\n";

#[test]
fn a_script_of_1_gib_is_answered_to_its_end(rt: HostRuntime) -> Result<(), Fail> {
    let (status, held) = long_answers(rt.alloc(), LONG_LINES, 16_383, "")?;
    assert_eq!(rt; status, Status::DoneWithRefusals);
    assert_eq!(rt;
        held.as_slice(),
        b"{\"dropped\":0,\"n\":1,\"ok\":\"collect\",\"waiting\":false}\n\
          {\"dropped\":0,\"n\":2,\"ok\":\"collect\",\"waiting\":false}\n\
          {\"code\":4,\"error\":\"LineTooLong\",\"n\":3}\n"
            .as_slice()
    );
    Ok(())
}

// The byte after 1 GiB ends no line, also where it is an LF.
#[test]
fn a_script_of_more_than_1_gib_is_answered_as_far_as_lines_end(
    rt: HostRuntime,
) -> Result<(), Fail> {
    let alloc = rt.alloc();
    for end in ["\n", "x"] {
        let (status, held) = long_answers(alloc, LONG_LINES, 16_383, end)?;
        assert_eq!(rt; status, Status::ScriptTooLong, "at {end}");
        assert_eq!(rt;
            held.as_slice(),
            b"{\"dropped\":0,\"n\":1,\"ok\":\"collect\",\"waiting\":false}\n\
              {\"dropped\":0,\"n\":2,\"ok\":\"collect\",\"waiting\":false}\n"
                .as_slice(),
            "at {end}"
        );
    }
    Ok(())
}
