//! What lines are made with, beside what they tell.

use crate::numbers::Numbers;
use fw_log_names::Pairs;

/// Digits that were made once.
#[derive(Drop)]
pub(crate) struct Tables {
    pub(crate) pairs: Pairs,
    pub(crate) numbers: Numbers,
}

impl Tables {
    pub(crate) fn new() -> Tables {
        Tables {
            pairs: Pairs::new(),
            numbers: Numbers::new(),
        }
    }
}
