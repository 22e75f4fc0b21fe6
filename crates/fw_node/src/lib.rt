//! The nodes of the bus: each answers request packets from its registers (IEEE 1394-1995, 8; IEC 61883-1, 7).
#![tactic(auto)]

mod bytes;
mod copies;
mod fcp;
mod laws;
mod node;
mod registers;
mod request;
mod response;
mod waiting;
mod words;

pub use laws::{nodes_answer_as_their_spaces, packets_carry_what_they_are_made_of};
pub use node::Node;
pub use request::{put_request, request_packet};
pub use response::reply_in;
pub use words::cycle_time;
