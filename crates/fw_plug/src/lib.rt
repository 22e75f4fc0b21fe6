//! Plug control registers (IEC 61883-1, 7): their fields, the units that a flow takes, and the plugs of a device with
//! their registers.
#![tactic(auto)]

mod bandwidth;
mod connection;
mod copies;
mod laws;
mod plug;
mod plugs;
mod row;
mod settings;
mod word;

pub use bandwidth::{units, units_with};
pub use connection::{
    connection_value, disconnected, is_full, one_less, one_more, shows_connection,
};
pub use fw_csr::offset::{IMPR, IPCR, OMPR, OPCR};
pub use laws::{
    input_words_are_their_fields, output_words_are_their_fields, words_are_those_of_input_plugs,
    words_are_those_of_plugs,
};
pub use plugs::Plugs;
pub use settings::{
    FIRST_CHANNEL, unconnected_input, unconnected_output, with_channel, with_overhead,
};
pub use word::{InWord, OutWord};
