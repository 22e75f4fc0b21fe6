//! What nodes of each kind answer, at each offset and in quadlets.

mod frames;
mod packets;
mod requests;
mod table;
