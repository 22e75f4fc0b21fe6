//! Quadlets, their fields and bytes, the two of a compare_swap, and short lists of bytes.
#![tactic(auto)]

mod bytes;
mod data;
mod fields;
mod quadlet;
mod swap;

pub use bytes::{Bytes, Bytes8, Bytes16, Bytes512, are_bytes};
pub use data::Data;
pub use fields::{first_set, with_field};
pub use quadlet::{Quadlet, get_quadlet, put_quadlet, quadlet_at};
pub use swap::{COMPARE_SWAP, Swap};
