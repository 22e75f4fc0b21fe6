//! The names by which rows are chosen.

/// Whether a text has a name in it, with no letter, digit or `_` right before or after it.
fn has_name(text: &str, name: &str) -> bool {
    let mut rest = text;
    let mut is_after_a_letter = false;
    for _ in 0..text.len() {
        let Some((before, after)) = rest.split_once(name) else {
            return false;
        };
        let begins = match before.as_bytes() {
            [] => !is_after_a_letter,
            [.., last] => !is_letter(*last),
        };
        if begins
            && !after
                .as_bytes()
                .first()
                .is_some_and(|byte| is_letter(*byte))
        {
            return true;
        }
        is_after_a_letter = name.as_bytes().last().is_some_and(|byte| is_letter(*byte));
        rest = after;
    }
    false
}

fn is_letter(byte: u8) -> bool {
    byte.is_ascii_alphanumeric() || byte == b'_'
}

/// Whether a row of a file is asked for: no names ask for each row, else one of them is the file's, or stands in the row.
pub(crate) fn is_asked(names: &[String], file: &str, row: &str) -> bool {
    if names.is_empty() {
        return true;
    }
    for name in names {
        if file == name.as_str() || has_name(row, name) {
            return true;
        }
    }
    false
}
