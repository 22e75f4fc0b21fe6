//! Lines of each form, and lines that have none.

use crate::commands::{ANY, told};
use fw_outside::MemSource;
use fw_script::{ScriptFault, ScriptReader};
use fw_script_command::{Command, Name};
use std::alloc::Global;
use std::process::Abort;
use std::test::Fail;

/// The name that a word is.
fn name_of(rt: &impl Abort, word: &[u8]) -> Name {
    match Name::from_word(word) {
        Some(name) => name,
        None => panic!(rt; "no name"),
    }
}

/// What a script gives first that begins with this line.
fn said(alloc: Global, line: &[u8]) -> Result<Result<Option<Command>, ScriptFault>, Fail> {
    let mut script = line.to_vec(alloc)?;
    script.push(b'\n')?;
    let mut source = MemSource::new(script, Vec::new(alloc));
    let mut reader = ScriptReader::new(alloc)?;
    Ok(reader.next(&mut source))
}

/// A script that begins with this line says this first.
fn says(
    alloc: Global,
    line: &[u8],
    word: &str,
    names: &[Option<Name>; 3],
    numbers: &[u32; 4],
) -> Result<bool, Fail> {
    match said(alloc, line)? {
        Ok(Some(command)) => {
            let (first, all, each) = told(&command);
            Ok(first == word && all == *names && each == *numbers)
        }
        _ => Ok(false),
    }
}

/// Lines and what they say: the first word, how many names, each of which is `a`, and the numbers.
const LINES: [(&[u8], &str, usize, [u32; 4]); 32] = [
    (b"withhold", "withhold", 0, [0; 4]),
    (b"device a relay 1 100", "device", 1, [0, 1, 0, 0]),
    (b"device a deck 2 200", "device", 1, [1, 2, 1, 0]),
    (b"device a camcorder 27 400", "device", 1, [2, 27, 2, 0]),
    (b"device a computer 9 100", "device", 1, [3, 9, 0, 0]),
    (b"cable a.0 a.26", "cable", 2, [0, 26, 0, 0]),
    (b"reset a", "reset", 1, [0; 4]),
    (b"connect a a.0 a.30 any 15", "connect", 3, [0, 30, ANY, 15]),
    (b"connect a a.9 a.10 63 0", "connect", 3, [9, 10, 63, 0]),
    (b"broadcast a a.30 15", "broadcast", 2, [30, 15, 0, 0]),
    (b"listen a a.0", "listen", 2, [0, 0, 0, 0]),
    (b"break a 31", "break", 1, [31, 0, 0, 0]),
    (b"step a 10000", "step", 1, [10_000, 0, 0, 0]),
    (b"settle 200000", "settle", 0, [200_000, 0, 0, 0]),
    (b"wait 1000000000", "wait", 0, [1_000_000_000, 0, 0, 0]),
    (b"wait 0", "wait", 0, [0, 0, 0, 0]),
    (b"cycles 8000", "cycles", 0, [8000, 0, 0, 0]),
    (b"die a", "die", 1, [0, 0, 0, 0]),
    (b"die a late", "die", 1, [1, 0, 0, 0]),
    (b"lose a", "lose", 1, [0; 4]),
    (b"start a", "start", 1, [0; 4]),
    (b"read a a fC4", "read", 2, [0xfc4, 0, 0, 0]),
    (
        b"swap a a 220 00001333 DEADbeef",
        "swap",
        2,
        [0x220, 0x1333, 0xdead_beef, 0],
    ),
    (b"insert a 65535 525", "insert", 1, [65_535, 525, 0, 0]),
    (b"insert a 0 625", "insert", 1, [0, 625, 0, 0]),
    (b"eject a", "eject", 1, [0; 4]),
    (b"show manager 224", "show", 0, [0x224, 0, 0, 0]),
    (b"show a 904", "show", 1, [0x904, 0, 0, 0]),
    (b"candidate a", "candidate", 1, [0; 4]),
    (b"contend a 10000", "contend", 1, [10_000, 0, 0, 0]),
    (b"dub a", "dub", 1, [0; 4]),
    (b"end", "end", 0, [0; 4]),
];

/// So many names, all the same.
fn names(a: Name, count: usize) -> [Option<Name>; 3] {
    match count {
        0 => [None; 3],
        1 => [Some(a), None, None],
        2 => [Some(a), Some(a), None],
        _ => [Some(a); 3],
    }
}

#[test]
fn each_form_is_read(rt: HostRuntime) -> Result<(), Fail> {
    let a = name_of(&rt, b"a");
    for &(line, word, count, numbers) in &LINES {
        assert!(rt; says(rt.alloc(), line, word, &names(a, count), &numbers)?);
    }
    Ok(())
}

/// The command has a frame of these bytes.
fn has_frame(command: &Command, frame: &[u8]) -> bool {
    match command {
        Command::Command(_, _, bytes) => bytes.as_slice() == frame,
        _ => false,
    }
}

/// A script that begins with this line says a command with this frame first.
fn says_frame(alloc: Global, line: &[u8], frame: &[u8]) -> Result<bool, Fail> {
    match said(alloc, line)? {
        Ok(Some(command)) => Ok(has_frame(&command, frame)),
        _ => Ok(false),
    }
}

#[test]
fn frames_are_read(rt: HostRuntime) -> Result<(), Fail> {
    let line = b"command a a 0020C375";
    let both = names(name_of(&rt, b"a"), 2);
    assert!(rt; says(rt.alloc(), line, "command", &both, &[0; 4])?);
    assert!(rt; says_frame(rt.alloc(), line, &[0x00, 0x20, 0xc3, 0x75])?);
    Ok(())
}

/// A script that begins with a bus reset of this name says so.
fn resets(rt: &(impl Abort + AllocGlobal), name: &str) -> Result<bool, Fail> {
    let line = format!(in rt.alloc(); "reset {name}")?;
    let one = names(name_of(rt, name.as_bytes()), 1);
    says(rt.alloc(), line.as_bytes(), "reset", &one, &[0; 4])
}

#[test]
fn names_are_read(rt: HostRuntime) -> Result<(), Fail> {
    for name in ["end", "device", "abcdefghijklmno9"] {
        assert!(rt; resets(&rt, name)?, "{name}");
    }
    Ok(())
}

// Lines that are no command: another first word; a word missing, or one too many; a value out of its range; numbers and
// places with more than their digits; names that are none; words that are not separated by one space.
const NO_COMMANDS: &str = "\
    End|end end|ends|a|no a|withhold a|withholds|device|device a|device a deck|device a deck 1|device a deck 1 100 1|\
    device  a deck 1 100|cable|cable a.0|cable a.0 a.1 a.2|reset|reset a a|connect a a.0 a.0 any|\
    connect a a.0 any 0|connect a a.0 a.0 any 0 0|broadcast a a.0|broadcast a 0|broadcast a a.0 0 0|listen a|\
    listen a a.0 a.0|break a|break a 0 0|step a|step 1|step a 1 1|settle|settle 1 1|wait|wait 1 1|cycles|cycles 1 1|\
    die|die a a|die a late late|die a a late|lose|lose a a|start|start a a|command a a|command a 00|command a a 00 00|read a a|\
    read a 904|read a a 904 904|swap a a 904 00000000|swap a 904 00000000 00000000|\
    swap a a 904 00000000 00000000 00000000|insert a 0|insert a 525|insert a 0 525 525|eject|eject a a|show a|\
    show 904|show a 904 904|device a deck 0 100|device a deck 28 100|device a deck 1 300|device a bridge 1 100|\
    cable a.27 a.0|cable a.0 a.27|connect a a.31 a.0 any 0|connect a a.0 a.31 any 0|connect a a.0 a.0 64 0|\
    connect a a.0 a.0 all 0|connect a a.0 a.0 any 16|broadcast a a.31 0|broadcast a a.0 16|listen a a.31|break a 32|\
    step a 0|step a 10001|settle 0|settle 200001|wait 1000000001|wait 4294967296|wait 99999999999999999999|cycles 0|\
    cycles 8001|insert a 65536 525|insert a 0 1125|read a a 90|read a a 0904|read a a 90g|\
    swap a a 904 0000000 00000000|swap a a 904 00000000 000000000|swap a a 904 0000000g 00000000|command a a 0|\
    command a a 000|command a a 0g|command a a 0x00|device a deck 01 100|device a deck +1 100|device a deck 1. 100|\
    cable a.00 a.1|cable a.01 a.1|cable a. a.1|cable .0 a.1|cable a a.1|cable a.0.0 a.1|cable a.-1 a.1|\
    connect a a.0 a.0 00 0|connect a a.0 a.0 any 00|break a 00|step a 01|settle 01|wait 00|cycles 01|\
    insert a 00 525|reset manager|reset any|reset late|reset A|reset 9a|reset a-b|reset a.0|reset abcdefghijklmnopq|\
    show any 904|cable any.0 a.0|read manager a 904|reset  a|candidate|candidate a a|candidate manager|contend a|\
    contend a 1 1|contend 1|contend a 0|contend a 10001|contend a 01|dub|dub a a|dub a.0";

/// The same with bytes that part no words, and are in none.
const NO_WORDS: [&[u8]; 15] = [
    b" ",
    b" end",
    b"end ",
    b"reset a ",
    b" reset a",
    b"end\r",
    b"\tend",
    b"reset\ta",
    b"reset a\t",
    b"reset a\r",
    b"reset \xc3\xa4",
    b"reset a\xff",
    b"wait \xd9\xa1",
    b"reset a\0",
    b"wait 1\0",
];

/// A script that begins with this line is refused there, as it has no form.
fn is_refused(alloc: Global, line: &[u8]) -> Result<bool, Fail> {
    match said(alloc, line)? {
        Err(ScriptFault::BadLine) => Ok(true),
        _ => Ok(false),
    }
}

#[test]
fn other_lines_have_no_form(rt: HostRuntime) -> Result<(), Fail> {
    for line in NO_COMMANDS.split('|') {
        assert!(rt; is_refused(rt.alloc(), line.as_bytes())?, "{line}");
    }
    Ok(())
}

#[test]
fn lines_of_other_bytes_have_no_form(rt: HostRuntime) -> Result<(), Fail> {
    for &line in &NO_WORDS {
        assert!(rt; is_refused(rt.alloc(), line)?);
    }
    Ok(())
}
