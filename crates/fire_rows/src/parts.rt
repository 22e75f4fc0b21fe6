//! Where the parts of a file end: a log's header and entries, a reel's blocks, the head of a page and its lines, and the lines of other
//! files.

/// What the parts of a file are.
#[derive(Clone, Copy)]
pub(crate) enum Parts {
    Entries,
    Blocks,
    Page,
    Lines,
}

impl Parts {
    /// The parts of a file of this name.
    pub(crate) fn of(name: &str) -> Parts {
        if name.ends_with("/log") {
            Parts::Entries
        } else if name.ends_with("/dub") {
            Parts::Blocks
        } else if name.ends_with(".html") {
            Parts::Page
        } else {
            Parts::Lines
        }
    }

    /// Where the part ends that begins at a place. None if none ends.
    fn end_of(self, bytes: &[u8], start: usize) -> Option<usize> {
        let rest = bytes.get(start..)?;
        let length = match self {
            Parts::Entries if start == 0 => HEADER,
            Parts::Entries => length_of_entry(rest)?,
            Parts::Blocks => BLOCK,
            Parts::Page if start == 0 => length_of_head(rest)?,
            Parts::Page | Parts::Lines => length_of_line(rest)?,
        };
        if length <= rest.len() {
            Some(start.saturating_add(length))
        } else {
            None
        }
    }

    /// Where the first so many parts end. None if there are fewer.
    pub(crate) fn end_after(self, bytes: &[u8], count: usize) -> Option<usize> {
        let mut end = 0;
        for _ in 0..count {
            end = self.end_of(bytes, end)?;
        }
        Some(end)
    }

    /// How many parts end in these bytes.
    pub(crate) fn count_in(self, bytes: &[u8]) -> usize {
        let mut end = 0;
        for count in 0..bytes.len() {
            match self.end_of(bytes, end) {
                Some(next) => end = next,
                None => return count,
            }
        }
        bytes.len()
    }
}

/// How many bytes a log's header has.
const HEADER: usize = 16;

/// How many bytes a block has.
const BLOCK: usize = 480;

/// The head of an entry of version 2 has 16 bytes, and tells the length of its body in quadlets.
fn length_of_entry(bytes: &[u8]) -> Option<usize> {
    match bytes {
        [_, _, high, low, ..] => Some(16 + 4 * (256 * usize::from(*high) + usize::from(*low))),
        _ => None,
    }
}

/// The line with which the head of a page ends.
const LAST_OF_HEAD: &[u8] = b"<xmp id=\"log\" hidden>\n";

fn length_of_head(bytes: &[u8]) -> Option<usize> {
    let mut end: usize = 0;
    for _ in 0..bytes.len() {
        let rest = bytes.get(end..)?;
        end = end.saturating_add(length_of_line(rest)?);
        if rest.starts_with(LAST_OF_HEAD) {
            return Some(end);
        }
    }
    None
}

fn length_of_line(bytes: &[u8]) -> Option<usize> {
    for (i, byte) in bytes.iter().enumerate() {
        if *byte == b'\n' {
            return Some(i.saturating_add(1));
        }
    }
    None
}
