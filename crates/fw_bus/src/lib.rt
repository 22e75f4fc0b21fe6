//! The simulated bus: commands are carried out one by one, and what happens is written to the log.
//!
//! The bus keeps devices with their nodes' registers and controllers' stages, and no account of channels and units; the
//! contract of `Bus::apply` speaks of the runs over the account for whose state the bus stands.
#![tactic(auto)]

mod bus;
mod change;

pub use bus::Bus;
pub use change::Changed;
pub use fw_order::{Order, RuleFault};

/// Why a command was not carried out to its end.
#[derive(Clone, Copy)]
pub enum BusFault {
    /// A rule forbids the command: nothing is changed or written.
    Refused(RuleFault),
    /// The sink failed, and its count of faults rose. The bus is spent.
    WriteFault,
}
