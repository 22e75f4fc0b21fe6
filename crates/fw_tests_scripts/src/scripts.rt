//! Whole scripts: their ends, their limits, and sources that fail.

ghost use Rattle.std.specs.Prelude.{None};

use fw_outside::{Failed, MemSource, Source};
use fw_script::{ScriptFault, ScriptReader};
use std::alloc::Global;
use std::process::Abort;
use std::test::Fail;

/// A source that gives one byte at a time.
#[derive(Drop)]
struct Drops {
    bytes: Vec<u8>,
    at: usize,
}

impl Source for Drops {
    ghost left = { λ _. None };

    ghost faults = { λ _. 0 };

    fn read(&mut self, into: &mut [u8]) -> Result<usize, Failed> {
        if self.at >= self.bytes.len() {
            return Ok(0);
        }
        into[0] = self.bytes[self.at];
        self.at += 1;
        Ok(1)
    }
}

/// A source of comments of one byte without an end.
#[derive(Drop)]
struct Comments;

impl Source for Comments {
    ghost left = { λ _. None };

    ghost faults = { λ _. 0 };

    fn read(&mut self, into: &mut [u8]) -> Result<usize, Failed> {
        for (i, b) in into.iter_mut().enumerate() {
            *b = if i % 2 == 0 { b'#' } else { b'\n' };
        }
        Ok(into.len())
    }
}

/// How many commands come before the end or a fault, that fault, and the line of the last answer.
type Answer = (u32, Option<ScriptFault>, u32);

fn run<S: Source>(alloc: Global, source: &mut S) -> Result<Answer, Fail> {
    let mut reader = ScriptReader::new(alloc)?;
    for count in 0..100 {
        match reader.next(source) {
            Ok(Some(_)) => {}
            Ok(None) => return Ok((count, None, reader.line())),
            Err(fault) => return Ok((count, Some(fault), reader.line())),
        }
    }
    Ok((100, None, 0))
}

/// The same of a source that gives what is asked for, and fails at this read, the first being number 1.
fn run_of(alloc: Global, script: &[u8], read: u32) -> Result<Answer, Fail> {
    run(
        alloc,
        &mut MemSource::new(script.to_vec(alloc)?, [read].to_vec(alloc)?),
    )
}

/// The same of a source that gives one byte at a time.
fn run_by_bytes(alloc: Global, script: &[u8]) -> Result<Answer, Fail> {
    let bytes = script.to_vec(alloc)?;
    run(alloc, &mut Drops { bytes, at: 0 })
}

/// Scripts, and what comes of them.
const SCRIPTS: [(&[u8], Answer); 13] = [
    (b"", (0, Some(ScriptFault::NoEnd), 1)),
    (b"\n", (0, Some(ScriptFault::NoEnd), 2)),
    (b"# x", (0, Some(ScriptFault::NoEnd), 2)),
    (b"reset a\n", (1, Some(ScriptFault::NoEnd), 2)),
    (b"reset a", (1, Some(ScriptFault::NoEnd), 2)),
    (b"end", (1, None, 1)),
    (b"end\n", (1, None, 1)),
    (b"end\n\n#\n# x", (1, None, 4)),
    (b"# x\n\ndevice d deck 1 100\nend", (2, None, 4)),
    (b"end\nend\n", (0, Some(ScriptFault::BadLine), 2)),
    (b"end\nreset a\n", (0, Some(ScriptFault::BadLine), 2)),
    (
        b"reset a\n\nreset\nend\n",
        (1, Some(ScriptFault::BadLine), 3),
    ),
    (b"reset a\r\nend\n", (0, Some(ScriptFault::BadLine), 1)),
];

#[test]
fn scripts_end_or_are_refused(rt: HostRuntime) -> Result<(), Fail> {
    for &(script, answer) in &SCRIPTS {
        assert!(rt; run_of(rt.alloc(), script, 0)? == answer);
        assert!(rt; run_by_bytes(rt.alloc(), script)? == answer);
    }
    Ok(())
}

/// What a script begins with, a piece and how often it follows, and the end of the script.
type Pieces = (&'static str, &'static str, u32, &'static str);

fn script_of(alloc: Global, pieces: &Pieces) -> Result<String, Fail> {
    let (first, piece, count, last) = pieces;
    let mut script = first.to_string(alloc)?;
    for _ in 0..*count {
        script.push_str(piece)?;
    }
    script.push_str(last)?;
    Ok(script)
}

/// What comes of a script of pieces, if this read fails.
fn run_pieces(alloc: Global, pieces: &Pieces, read: u32) -> Result<Answer, Fail> {
    let script = script_of(alloc, pieces)?;
    run_of(alloc, script.as_bytes(), read)
}

/// Scripts, their faults, and the lines of the last answers.
const LIMITS: [(Pieces, Option<ScriptFault>, u32); 9] = [
    (("", "#", 256, "\nend\n"), None, 2),
    (("", "#", 257, "\nend\n"), Some(ScriptFault::LineTooLong), 1),
    (("", "#", 256, ""), Some(ScriptFault::NoEnd), 2),
    (("", "#", 257, ""), Some(ScriptFault::LineTooLong), 1),
    (("end\n", "#", 256, "\n"), None, 2),
    (("end\n", "#", 257, "\n"), Some(ScriptFault::LineTooLong), 2),
    (("", "a", 257, "\n"), Some(ScriptFault::LineTooLong), 1),
    (("command a a ", "0", 220, "\nend\n"), None, 2),
    (
        ("command a a ", "0", 222, "\nend\n"),
        Some(ScriptFault::BadLine),
        1,
    ),
];

#[test]
fn lines_have_limits(rt: HostRuntime) -> Result<(), Fail> {
    for (pieces, fault, line) in &LIMITS {
        let (_, found, number) = run_pieces(rt.alloc(), pieces, 0)?;
        assert!(rt; (found, number) == (*fault, *line), "{line}");
    }
    Ok(())
}

#[test]
fn scripts_have_a_limit(rt: HostRuntime) -> Result<(), Fail> {
    assert!(rt; run(rt.alloc(), &mut Comments)? == (0, Some(ScriptFault::TooLong), 524_288));
    Ok(())
}

/// Scripts, which read fails, and what comes of it. Each read asks for 4,096 bytes: if the second one fails, the lines of the first
/// 4,096 were given.
const FAILURES: [(Pieces, u32, Answer); 3] = [
    (
        ("reset a\n", "", 0, "end\n"),
        1,
        (0, Some(ScriptFault::ReadFault), 0),
    ),
    (
        ("reset a\n", "", 0, "end\n"),
        2,
        (1, Some(ScriptFault::ReadFault), 2),
    ),
    (
        ("device d deck 1 100\n", "#\n", 3000, "end\n"),
        2,
        (1, Some(ScriptFault::ReadFault), 2039),
    ),
];

#[test]
fn a_source_fails(rt: HostRuntime) -> Result<(), Fail> {
    for (pieces, read, answer) in &FAILURES {
        assert!(rt; run_pieces(rt.alloc(), pieces, *read)? == *answer);
    }
    Ok(())
}

/// How many of the next 4,096 bytes a source still has after the line of its script that is refused, which is the first.
fn left_following(rt: &(impl Abort + AllocGlobal), script: &[u8]) -> Result<usize, Fail> {
    let mut source = MemSource::new(script.to_vec(rt.alloc())?, Vec::new(rt.alloc()));
    assert!(rt; run(rt.alloc(), &mut source)? == (0, Some(ScriptFault::BadLine), 1));
    let mut left = [0; 4096];
    Ok(source.read(&mut left).unwrap_or(0))
}

// After a refused line at most 4,096 bytes are taken: 1,906 of 6,002 are left.
#[test]
fn a_script_is_read_no_further_than_it_is_refused(rt: HostRuntime) -> Result<(), Fail> {
    let script = script_of(rt.alloc(), &("x\n", "#\n", 3000, ""))?;
    assert!(rt; left_following(&rt, script.as_bytes())? == 1906);
    Ok(())
}

const MESSAGES: [(ScriptFault, &str); 5] = [
    (ScriptFault::BadLine, "BadLine"),
    (ScriptFault::LineTooLong, "LineTooLong"),
    (ScriptFault::NoEnd, "NoEnd"),
    (ScriptFault::ReadFault, "ReadFault"),
    (ScriptFault::TooLong, "TooLong"),
];

fn is_shown(alloc: Global, fault: ScriptFault, message: &str) -> Result<bool, Fail> {
    Ok(format!(in alloc; "{fault}")?.as_str() == message)
}

#[test]
fn messages(rt: HostRuntime) -> Result<(), Fail> {
    for &(fault, message) in &MESSAGES {
        assert!(rt; is_shown(rt.alloc(), fault, message)?);
    }
    Ok(())
}
