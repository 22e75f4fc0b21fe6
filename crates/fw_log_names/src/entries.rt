//! The names of entries and of what they tell.

ghost use Rattle.std.specs.Prelude.{◌≡◌};
ghost use Rattle.std.specs.Option.{option_copied};
ghost use Rattle.fw_log_entry.specs.Log.{kind_of};
ghost use Rattle.fw_log_names.specs.Names.{kind_name, event_name, event_saying, outcome_name, system_name};

use fw_log_entry::Entry;
use fw_log_entry::codes::{LINES_525, LINES_625, event, kind, outcome};
use fw_text::{name_in, words_in};

/// The number of an entry's kind.
pub fn kind_number(what: &Entry) -> u8
    ensures { result ≡ kind_of what.now }
{
    match what {
        Entry::Reset(_) => kind::RESET,
        Entry::Async(_) => kind::ASYNC,
        Entry::Iso(_) => kind::ISO,
        Entry::Event(_) => kind::EVENT,
        Entry::Outcome(_) => kind::OUTCOME,
        Entry::Shown(_) => kind::SHOWN,
        Entry::End => kind::END,
    }
}

/// The kinds of entries, by their numbers.
pub const KINDS: [(u16, &str); 7] = [
    (kind::RESET as u16, "reset"),
    (kind::ASYNC as u16, "async"),
    (kind::ISO as u16, "iso"),
    (kind::EVENT as u16, "event"),
    (kind::OUTCOME as u16, "outcome"),
    (kind::SHOWN as u16, "shown"),
    (kind::END as u16, "end"),
];

/// What events of a code are called, and what they say: each that a log may hold.
pub const EVENTS: [(u16, &str, &str); 11] = [
    (
        event::SECOND_OVER as u16,
        "second-over",
        "the reclaim second is over",
    ),
    (event::DIED as u16, "died", "its controller died"),
    (event::STARTED as u16, "started", "its controller started"),
    (event::INSERTED as u16, "inserted", "it was loaded with"),
    (event::EJECTED as u16, "ejected", "its tape was taken out"),
    (
        event::UNSETTLED as u16,
        "unsettled",
        "a controller has more to do",
    ),
    (
        event::LOST as u16,
        "lost",
        "a response to its controller was lost",
    ),
    (
        event::WITHHELD as u16,
        "withheld",
        "channel 31 is never free",
    ),
    (event::ELECTED as u16, "elected", "it is bus manager"),
    (
        event::DEFEATED as u16,
        "defeated",
        "another node is bus manager",
    ),
    (event::DUBBING as u16, "dubbing", "what it records is kept"),
];

/// The outcomes, by their codes: each that a log may hold.
pub const OUTCOMES: [(u16, &str); 12] = [
    (outcome::CONNECTED as u16, "connected"),
    (outcome::BROKEN as u16, "broken"),
    (outcome::RESTORED as u16, "restored"),
    (outcome::NO_CHANNEL as u16, "no-channel"),
    (outcome::NO_UNITS as u16, "no-units"),
    (outcome::PLUG_FULL as u16, "plug-full"),
    (outcome::INPUT_BUSY as u16, "input-busy"),
    (outcome::NO_PLUG as u16, "no-plug"),
    (outcome::NO_MANAGER as u16, "no-manager"),
    (outcome::ABSENT as u16, "absent"),
    (outcome::RESET as u16, "reset"),
    (outcome::LATE as u16, "late"),
];

/// The systems of tapes, by the lines of their pictures.
pub const SYSTEMS: [(u16, &str); 2] = [(LINES_525, "525-60"), (LINES_625, "625-50")];

/// The name of an entry's kind, by its number; 1 to 7 have one.
pub fn kind_name(kind: u8) -> Option<&'static str>
    ensures { option_copied result ≡ kind_name kind }
{
    name_in(&KINDS, u16::from(kind))
}

/// The name of an event's code; each that a log may hold has one.
pub fn event_name(code: u8) -> Option<&'static str>
    ensures { option_copied result ≡ event_name code }
{
    Some(words_in(&EVENTS, u16::from(code))?.0)
}

/// What an event with this code says; each that a log may hold says something.
pub fn event_saying(code: u8) -> Option<&'static str>
    ensures { option_copied result ≡ event_saying code }
{
    Some(words_in(&EVENTS, u16::from(code))?.1)
}

/// The name of an outcome's code; each that a log may hold has one.
pub fn outcome_name(code: u8) -> Option<&'static str>
    ensures { option_copied result ≡ outcome_name code }
{
    name_in(&OUTCOMES, u16::from(code))
}

/// The name of a tape's system, by the lines of its picture: 525 and 625 have one.
pub fn system_name(system: u16) -> Option<&'static str>
    ensures { option_copied result ≡ system_name system }
{
    name_in(&SYSTEMS, system)
}
