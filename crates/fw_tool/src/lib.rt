//! The program's top call: scripts in, logs or recordings and notes out; logs in, text and notes out; a seed in, a summary and notes out; what the program says of itself.
#![tactic(auto)]

mod about;
mod dispatch;
mod ending;
mod explorations;
mod forms;
mod laws;
mod logs;
mod names;
mod notes;
mod scripts;
mod session;
mod words;

pub use about::About;
pub use ending::{Ending, Unexplored};
pub use fw_log_text::entry_text;
pub use fw_log_words::{LogWord, NoMap, Unsound};
pub use fw_outside::{Flush, GrowSink};
pub use fw_script_gen::gen_script;
pub use fw_script_words::{Refusal, Refused};
pub use laws::whole_logs_are_read;
pub use notes::{NOTE_ROOM, tell};
pub use scripts::ScriptWord;
pub use session::fire;
pub use words::Word;
