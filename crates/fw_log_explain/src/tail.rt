//! What the usual packets say after their heads. Many packets of a log say the same.

ghost use Rattle.std.specs.Prelude.{◌≡◌, ◌++◌, OnOk};
ghost use Rattle.std.specs.Int.{to_be_bytes, w32};
ghost use Rattle.fw_log_explain.specs.Tails.{brought_text, change_text, changed_text, failed_text, pair_text, reading_text, tail_text, write_text, written_text};

use crate::lock::{put_at, put_function, put_swap, put_swapped};
use crate::packet::{put_written_block, put_written_quadlet};
use crate::response::{COMPLETE, put_rcode};
use fw_log_names::{Pairs, put_word};
use fw_log_registers::{RegisterPlace, append_register_word};
use fw_words::{COMPARE_SWAP, Swap};
use std::alloc::AllocError;

/// What a packet says after its head, if it is a request of a quadlet, a write of a short block, or a response to such a request that
/// stands.
#[derive(Clone, Copy)]
pub struct Tail {
    /// The offset of the request, 48 bits.
    pub offset: u64,
    pub words: TailWords,
}

/// What kind of packet it is, and the words that it has.
#[derive(Clone, Copy)]
pub enum TailWords {
    /// A read of a quadlet.
    Read,
    /// What it brings.
    Value(u32),
    /// That it brings nothing: its response code.
    NoValue(u8),
    /// A compare_swap of a quadlet.
    Swap(Swap),
    /// The word that it found.
    Old(Swap, u32),
    /// A write of a quadlet.
    Write(u32),
    /// A write of a block of two quadlets, as most frames are.
    WritePair(u32, u32),
    /// The response to a write: its code.
    Written(u8),
}

// Appends a read.
#[tactic(auto, unfolding(crate::specs::Tails::reading_text))]
fn put_asked(text: &mut Vec<u8>, place: RegisterPlace) -> Result<(), AllocError>
    ensures { OnOk result (text.new.items ≡ text.old.items ++ reading_text place) }
{
    put_word(text, " read_quadlet_request")?;
    put_at(text, place)
}

// Appends what a read brings.
#[tactic(auto, unfolding(crate::specs::Tails::brought_text))]
fn put_brought(text: &mut Vec<u8>, place: RegisterPlace, value: u32) -> Result<(), AllocError>
    ensures { OnOk result (text.new.items ≡ text.old.items ++ brought_text place value) }
{
    put_word(text, " read_quadlet_response")?;
    put_rcode(text, COMPLETE)?;
    put_at(text, place)?;
    append_register_word(text, place, value)
}

// Appends a compare_swap.
#[tactic(auto, unfolding(crate::specs::Tails::change_text))]
fn put_change(
    text: &mut Vec<u8>,
    pairs: &Pairs,
    place: RegisterPlace,
    s: Swap,
) -> Result<(), AllocError>
    ensures { OnOk result (text.new.items ≡ text.old.items ++ change_text place s) }
{
    put_word(text, " lock_request")?;
    put_function(text, COMPARE_SWAP)?;
    put_at(text, place)?;
    put_swap(text, pairs, place, s)
}

// Appends what a compare_swap found, and did.
#[tactic(auto, unfolding(crate::specs::Tails::changed_text))]
fn put_changed(
    text: &mut Vec<u8>,
    pairs: &Pairs,
    place: RegisterPlace,
    s: Swap,
    old: u32,
) -> Result<(), AllocError>
    ensures { OnOk result (text.new.items ≡ text.old.items ++ changed_text place s old) }
{
    put_word(text, " lock_response")?;
    put_rcode(text, COMPLETE)?;
    put_function(text, COMPARE_SWAP)?;
    put_at(text, place)?;
    put_swapped(text, pairs, place, s, old)
}

// Appends that a read brings nothing.
#[tactic(auto, unfolding(crate::specs::Tails::failed_text))]
fn put_failed(text: &mut Vec<u8>, place: RegisterPlace, rcode: u8) -> Result<(), AllocError>
    ensures { OnOk result (text.new.items ≡ text.old.items ++ failed_text place rcode) }
{
    put_word(text, " read_quadlet_response")?;
    put_rcode(text, rcode)?;
    put_at(text, place)
}

// Appends a write of a quadlet.
#[tactic(auto, unfolding(crate::specs::Tails::write_text))]
fn put_write(text: &mut Vec<u8>, place: RegisterPlace, value: u32) -> Result<(), AllocError>
    ensures { OnOk result (text.new.items ≡ text.old.items ++ write_text place value) }
{
    put_word(text, " write_quadlet_request")?;
    put_written_quadlet(text, place, value)
}

// The bytes of two quadlets.
fn pair_bytes(first: u32, second: u32) -> [u8; 8]
    ensures { result ≡ to_be_bytes w32 first ++ to_be_bytes w32 second }
{
    let [a, b, c, d] = first.to_be_bytes();
    let [e, f, g, h] = second.to_be_bytes();
    [a, b, c, d, e, f, g, h]
}

// Appends a write of a block of two quadlets.
#[tactic(auto, unfolding(crate::specs::Tails::pair_text))]
fn put_pair(
    text: &mut Vec<u8>,
    pairs: &Pairs,
    place: RegisterPlace,
    first: u32,
    second: u32,
) -> Result<(), AllocError>
    ensures { OnOk result (text.new.items ≡ text.old.items ++ pair_text place first second) }
{
    put_word(text, " write_block_request")?;
    put_written_block(text, pairs, place, &pair_bytes(first, second))
}

// Appends the response to a write.
#[tactic(auto, unfolding(crate::specs::Tails::written_text))]
fn put_written(text: &mut Vec<u8>, place: RegisterPlace, rcode: u8) -> Result<(), AllocError>
    ensures { OnOk result (text.new.items ≡ text.old.items ++ written_text place rcode) }
{
    put_word(text, " write_response")?;
    put_rcode(text, rcode)?;
    put_at(text, place)
}

/// Appends what a packet says after its head. An error says that memory ran out, and comes for nothing else.
#[tactic(auto, unfolding(crate::specs::Tails::words_text))]
pub fn put_tail(text: &mut Vec<u8>, pairs: &Pairs, tail: &Tail) -> Result<(), AllocError>
    ensures { OnOk result (text.new.items ≡ text.old.items ++ tail_text tail.now) }
{
    let place = RegisterPlace::of(tail.offset);
    match tail.words {
        TailWords::Read => put_asked(text, place),
        TailWords::Value(value) => put_brought(text, place, value),
        TailWords::Swap(s) => put_change(text, pairs, place, s),
        TailWords::Old(s, old) => put_changed(text, pairs, place, s, old),
        TailWords::NoValue(rcode) => put_failed(text, place, rcode),
        TailWords::Write(value) => put_write(text, place, value),
        TailWords::WritePair(first, second) => put_pair(text, pairs, place, first, second),
        TailWords::Written(rcode) => put_written(text, place, rcode),
    }
}
