//! The parts of a row.

/// A row `WHAT ; LINES < INPUT > OUTPUT : AFTER`. Each part but the first may be missing, with the mark before it.
#[derive(Clone, Copy)]
pub(crate) struct Row<'a> {
    pub(crate) what: &'a str,
    pub(crate) lines: Option<&'a str>,
    pub(crate) input: Option<&'a str>,
    pub(crate) output: Option<&'a str>,
    pub(crate) following: Option<&'a str>,
}

impl<'a> Row<'a> {
    pub(crate) fn of(line: &'a str) -> Row<'a> {
        let (rest, following) = cut(line, " : ");
        let (rest, output) = cut(rest, " > ");
        let (rest, input) = cut(rest, " < ");
        let (what, lines) = cut(rest, " ; ");
        Row {
            what,
            lines,
            input,
            output,
            following,
        }
    }
}

/// What stands before a mark, and what after it, if it is there.
fn cut<'a>(text: &'a str, mark: &str) -> (&'a str, Option<&'a str>) {
    match text.split_once(mark) {
        Some((before, after)) => (before, Some(after)),
        None => (text, None),
    }
}

/// Whether a line of a table is a row: it is not empty, and does not begin with `#`.
pub(crate) fn is_row(line: &str) -> bool {
    !line.is_empty() && !line.starts_with("#")
}
