//! How a call is to end.

/// How a call is to end: its status, its note and its output. A note is one line, and none is told if it is empty.
#[derive(Clone, Copy)]
pub(crate) struct Due<'a> {
    pub(crate) status: u8,
    pub(crate) note: &'a str,
    pub(crate) output: Written<'a>,
}

/// What a call is to have written.
#[derive(Clone, Copy)]
pub(crate) enum Written<'a> {
    /// These bytes.
    Whole(&'a [u8]),
    /// The first of these bytes, however many.
    Prefix(&'a [u8]),
    /// Whatever it is.
    Any,
}

impl Due<'_> {
    /// That all is done that was asked, and nothing told.
    pub(crate) const DONE: Due<'static> = Due {
        status: 0,
        note: "",
        output: Written::Any,
    };
}

impl<'a> Due<'a> {
    /// With a status and a note, whatever was written.
    pub(crate) fn telling(status: u8, note: &'a str) -> Due<'a> {
        Due {
            status,
            note,
            output: Written::Any,
        }
    }

    /// With a status, a note, and these bytes and no others.
    pub(crate) fn exactly(status: u8, note: &'a str, bytes: &'a [u8]) -> Due<'a> {
        Due {
            status,
            note,
            output: Written::Whole(bytes),
        }
    }

    /// `STATUS NOTE`, with this output; 0 and no note if there is no text. None if that is no status.
    pub(crate) fn of(text: Option<&'a str>, output: &'a [u8]) -> Option<Due<'a>> {
        let text = text.unwrap_or("0");
        let (status, note) = text.split_once(" ").unwrap_or((text, ""));
        Some(Due::exactly(status.parse::<u8>().ok()?, note, output))
    }
}

impl Written<'_> {
    /// Whether these bytes are so.
    pub(crate) fn is(self, bytes: &[u8]) -> bool {
        match self {
            Written::Whole(due) => bytes == due,
            Written::Prefix(due) => due.starts_with(bytes),
            Written::Any => true,
        }
    }

    /// The first place at which bytes differ from these, with the byte that is to stand there. None if one is a prefix of the other.
    pub(crate) fn first_other(self, bytes: &[u8]) -> Option<(usize, u8)> {
        let due = match self {
            Written::Whole(due) | Written::Prefix(due) => due,
            Written::Any => return None,
        };
        for (at, (one, other)) in due.iter().zip(bytes).enumerate() {
            if one != other {
                return Some((at, *one));
            }
        }
        None
    }
}
