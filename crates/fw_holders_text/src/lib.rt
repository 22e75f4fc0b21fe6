//! Devices, plugs and counts as text, and columns of it; what controllers do and hold, as text.
#![tactic(auto)]

mod bus_nodes;
mod deed;
mod held_texts;
mod holding;
mod kept_channel;
mod kept_done;
mod kept_number;
mod names;
mod text_row;

pub use deed::Deed;
pub use held_texts::HeldTexts;
pub use holding::{CHANNELS, Holding, How};
pub use kept_done::WHAT_WIDTH;
pub use names::{Side, fill, put_count, put_plug, put_who};
pub use text_row::{Line, TextRow};
