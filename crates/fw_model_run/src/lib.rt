//! Runs: what the commands of a script do on a bus of many controllers, entry by entry, over the account of channels and
//! units; and their laws.
//!
//! The definitions stand in specs/. The code has the terms that they share with the bus; the law functions do nothing.
#![tactic(auto)]

mod deciding;
mod deck_laws;
mod elections;
mod laws;
mod lingering;
mod losses;
mod recording;
mod streams;
mod withholding;

pub use deciding::{decided_orders_are_their_actions, good_states_decide_deeds};
pub use deck_laws::{commands_are_followed, decks_tell_linked_nodes, nodes_keep_decks};
pub use elections::{candidates_can_bid, one_device_is_elected};
pub use laws::{
    actions_leave_states_good, connections_come_back, nodes_answer_by_the_account,
    rounds_are_enough, runs_are_audited, runs_are_logs, runs_are_sound, runs_have_one_log,
};
pub use lingering::plugs_linger_through_runs;
pub use losses::{lost_responses_are_not_heard, lost_swaps_come_right};
pub use recording::{
    input_plugs_hear_by_their_words, input_plugs_linger_through_runs, recorded_blocks_are_heard,
    reels_are_recorded,
};
pub use streams::{counts_follow_who_talks, cycles_can_be_written, cycles_have_a_packet_a_talker};
pub use withholding::withheld_channels_stay_unused;
