//! What `check` tells: what a script has, or why its first refused line is refused, in words.
//!
//! A slip of the line is told before its words are looked at, then the first word that its form refuses; of a command that breaks a rule of the bus
//! what stands against it (`Why`).
#![tactic(auto)]

mod bad_line;
mod forms;
mod good;
mod laws;
mod limit_text;
mod misfit;
mod reasons;
mod refusal;
mod rule_text;
mod shown;
mod slip;
mod why;
mod word_slip;

pub use good::{Counts, put_good};
pub use laws::the_first_misfit_is_told;
pub use misfit::Misfit;
pub use refusal::{put_formless, put_long_line, put_no_end, put_rule};
pub use slip::Slip;
pub use why::{LimitOf, NoController, NoNode, SlotState, Why};
