//! Tests of registers and decks: frames, tapes, reels, units, the manager's registers, candidates for the bus manager, plugs,
//! nodes and devices. Nothing stands on this crate.
#![tactic(auto)]

#[cfg(test)]
mod candidates;
#[cfg(test)]
mod devices;
#[cfg(test)]
mod frames;
#[cfg(test)]
mod manager;
#[cfg(test)]
mod nodes;
#[cfg(test)]
mod plugs;
#[cfg(test)]
mod reels;
#[cfg(test)]
mod tapes;
#[cfg(test)]
mod units;
