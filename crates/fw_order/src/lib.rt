//! Orders: what a command of a script asks of a bus, with its devices by number; the rules that a command may break, and the limits of a
//! script. No theory: what an order does to a bus is defined in fw_model_run, when it breaks a rule in fw_bus_rules.
#![tactic(auto)]

mod limits;
mod order;
mod rule;

pub use limits::{MOST_HALF_STEPS, MOST_RESETS, MOST_WRITTEN_CYCLES, limits_are_those_of_scripts};
pub use order::{Access, Order, Transaction, Wanted};
pub use rule::RuleFault;
