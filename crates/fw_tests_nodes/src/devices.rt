//! Buses of a few devices: who is who after each bus reset, what their entries hold, and what their nodes answer.

mod buses;
mod tables;
