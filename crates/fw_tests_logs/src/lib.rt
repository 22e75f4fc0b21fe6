//! Tests of the crates of sources and sinks, packets, logs, their text and the words over them. Nothing stands on this crate.
#![tactic(auto)]

#[cfg(test)]
mod adapters;
#[cfg(test)]
mod damage;
#[cfg(test)]
mod epochs;
#[cfg(test)]
mod generation;
#[cfg(test)]
mod kinds;
#[cfg(test)]
mod outside;
#[cfg(test)]
mod packets;
#[cfg(test)]
mod phy;
#[cfg(test)]
mod reading;
#[cfg(test)]
mod refusals;
#[cfg(test)]
mod streams;
#[cfg(test)]
mod text;
#[cfg(test)]
mod wire;
