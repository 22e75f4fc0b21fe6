//! Commands, as the lines of a script spell them.
//!
//! A line that is a command has one of the forms: its first word says which, and the words after it, separated by one space, what the
//! command is of. The language is own.
#![tactic(auto)]

mod candidate_forms;
mod codes;
mod command;
mod controller_forms;
mod cut;
mod device_forms;
mod form;
mod form_table;
mod hexadecimal;
mod keyword;
mod laws;
mod name;
mod transaction_forms;
mod word_type;
mod words;

pub use command::Command;
pub use cut::{Pieces, Separator};
pub use form::command_of;
pub use keyword::{Keyword, keyword_of};
pub use laws::forms_are_one_table;
pub use name::Name;
pub use word_type::{NumberType, WordType};
pub use words::is_taken;
