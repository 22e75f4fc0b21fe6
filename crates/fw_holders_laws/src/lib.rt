//! Theorems of `holders`, over its definitions: laws, and no code. No crate stands on this one.
#![tactic(auto)]

mod laws;

pub use laws::{
    holders_stay_between_lines, moves_are_told, tables_tell_the_account,
    tables_tell_the_connections,
};
