//! What a packet of a usual kind says, read where it stands: no packet is made of its bytes.
//!
//! Nearly all packets of a log are requests and responses of one quadlet, writes of a quadlet or of a short frame, and the
//! responses to these (IEEE 1394-1995, clause 6.2).
#![tactic(auto)]

mod fields;
mod glance;

pub use glance::{Glance, glance_at};
