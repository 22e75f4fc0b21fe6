//! How the program ends: its status, and what its standard error gets.

ghost use Rattle.std.specs.Prelude.{None, [], false};

use crate::calls::{Failing, NONE, call};
use fw_outside::{Failed, MemSink, MemSource, Sink};
use fw_program::{Flush, NOTE_ROOM, program};
use std::alloc::{AllocError, Global};
use std::test::Fail;

const DECK: &[u8] = b"device d deck 1 100\nend\n";

// Words with spaces, or with nothing in them.
const NO_FORMS: [&[&str]; 4] = [&["run "], &["gen", ""], &["gen", "1 "], &["--help "]];

#[test]
fn words_that_are_no_form_read_and_write_nothing(rt: HostRuntime) -> Result<(), Fail> {
    for &words in &NO_FORMS {
        let ended = call(rt.alloc(), words, DECK, NONE)?;
        assert!(rt; ended.is(2, "usage\n", b""));
    }
    Ok(())
}

// Words that write without a script or a log.
const FORMS: [&[&str]; 3] = [&["help"], &["version"], &["gen", "7"]];

#[test]
fn a_text_that_cannot_be_written_is_a_fault(rt: HostRuntime) -> Result<(), Fail> {
    let failing = Failing {
        writes: &[1],
        ..NONE
    };
    for &words in &FORMS {
        let cut = call(rt.alloc(), words, b"", failing)?;
        assert!(rt; cut.is(6, "write fault\n", b""));
    }
    Ok(())
}

/// A sink that takes what it is given. Its last flush fails, if it is to.
#[derive(Drop)]
struct LastFlush {
    fails: bool,
    faults: u64,
}

impl Sink for LastFlush {
    ghost held = { λ _. None };

    ghost faults = { λ s. s.faults };

    fn write(&mut self, _piece: &[u8]) -> Result<(), Failed> {
        Ok(())
    }
}

impl Flush for LastFlush {
    ghost kept = { λ _. [] };

    ghost at_once = { λ _. false };

    fn pass_all(&mut self) -> Result<(), Failed> {
        if self.fails {
            self.faults = self.faults.saturating_add(1);
            return Err(Failed);
        }
        Ok(())
    }
}

// A word, its input, and how the call ends: its status and its note.
const CALLS: [(&str, &str, u8, &str); 4] = [
    ("walk", "", 2, "usage\n"),
    ("run", "x\n", 3, "line 1: BadLine\n"),
    ("decode", "wxyz", 4, "byte 0: BadHeader\n"),
    ("run", "end\n", 0, ""),
];

// Whether a call of a word over an input ends so if its last flush fails or not, and a write of its note.
fn ends(
    alloc: Global,
    (word, input): (&str, &str),
    (fails, failing): (bool, u32),
    (status, note): (u8, &str),
) -> Result<bool, AllocError> {
    let words = [word.to_string(alloc)?].to_vec(alloc)?;
    let mut source = MemSource::new(input.as_bytes().to_vec(alloc)?, Vec::new(alloc));
    let mut sink = LastFlush { fails, faults: 0 };
    let mut notes = MemSink::new(alloc, NOTE_ROOM, [failing].to_vec(alloc)?)?;
    let ending = program(alloc, &words, &mut source, &mut sink, &mut notes);
    Ok(ending == status && notes.as_slice() == note.as_bytes())
}

#[test]
fn the_last_flush_decides_before_the_note(rt: HostRuntime) -> Result<(), Fail> {
    let alloc = rt.alloc();
    for &(word, input, status, note) in &CALLS {
        let call = (word, input);
        assert!(rt; ends(alloc, call, (false, 0), (status, note))?, "{note}");
        assert!(rt;
            ends(alloc, call, (true, 0), (6, "write fault\n"))?,
            "{note}"
        );
        assert!(rt; ends(alloc, call, (true, 1), (6, ""))?, "{note}");
    }
    Ok(())
}
