//! Lists of numbers in rows.

use crate::miss::Miss;
use std::alloc::Global;

/// The numbers of a list, separated by spaces; `FROM-TO` stands for all from one to another. A list has at least one.
pub(crate) fn numbers_of(alloc: Global, list: &str) -> Result<Vec<u32>, Miss> {
    let mut numbers = Vec::new(alloc);
    for part in list.split_whitespace() {
        let Some((from, to)) = range_of(part) else {
            return Err(Miss::NoRow("numbers"));
        };
        for number in from..=to {
            numbers.push(number)?;
        }
    }
    if numbers.is_empty() {
        return Err(Miss::NoRow("numbers"));
    }
    Ok(numbers)
}

/// The first and the last of numbers that follow one another. None if there are none.
fn range_of(part: &str) -> Option<(u32, u32)> {
    let (from, to) = part.split_once("-").unwrap_or((part, part));
    let (from, to) = (from.parse::<u32>().ok()?, to.parse::<u32>().ok()?);
    if from <= to { Some((from, to)) } else { None }
}
