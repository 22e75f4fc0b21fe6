//! Reclaiming: after a bus reset each controller restores its connections, and the connections that were whole before the
//! reset are whole again at the end of the reclaim second, on the same channels and units. The functions do nothing: their
//! contracts are the laws.
#![tactic(auto)]

mod laws;

pub use laws::{
    connections_come_back, plugs_have_room, reclaiming_goes_on, restorings_stay_on_course,
    restorings_succeed, whole_connections_are_there, withheld_channels_are_avoided,
};
