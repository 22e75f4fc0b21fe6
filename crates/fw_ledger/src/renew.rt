//! What a bus reset leaves of the registers of plugs.

ghost use Rattle.std.specs.Prelude.{◌≡◌, ◌<◌, ◌≤◌, ◌/◌, ◌%◌, ℕ, nat_lt, length, slice_index, slice_index_or, false, not, ◌&&◌, ◌||◌, if◌then◌else◌, IsTrue};
ghost use Rattle.fw_log_entry.specs.Network.{speed_of, node_of_device};
ghost use Rattle.fw_plug.specs.Plugs.{disconnected};
ghost use Rattle.fw_model_account.specs.Words.{id_below};
ghost use Rattle.fw_ledger.specs.Resets.{AreRates, rate_of, first_output, first_input, renewed_output, renewed_input, renewed_seats, goes_on};
ghost use Rattle.fw_account_tables.specs.Stands.{no_seats};

use fw_account_tables::Seats;
use fw_async::node_id;
use fw_log_entry::NodeRow;
use fw_phy::PhyPacket;
use fw_plug::{FIRST_CHANNEL, OutWord, disconnected, unconnected_input, unconnected_output};

// The speed of a node, by its self-ID packet zero.
fn speed_of(n: usize, ids: &[PhyPacket]) -> u8
    ensures { result ≡ speed_of n ids.now }
{
    for packet in ids {
        if let PhyPacket::SelfId(zero) = packet
            && usize::from(zero.phy) == n
        {
            return zero.speed;
        }
    }
    0
}

// The number of the node that a device is, or how many nodes there are.
fn node_of_device(nodes: &[NodeRow], device: u8) -> usize
    ensures { result ≡ node_of_device nodes.now device }
{
    for (n, row) in nodes.iter().enumerate() {
        if row.device == device {
            return n;
        }
    }
    nodes.len()
}

/// The node ID of a device, if it is a node.
pub fn id_of_device(nodes: &[NodeRow], device: u8) -> Option<u16>
    requires { length nodes.now ≤ 63 }
    ensures { result ≡ id_below (length nodes.now) (node_of_device nodes.now device) }
{
    let node = node_of_device(nodes, device);
    if node < nodes.len() {
        Some(node_id(node as u8))
    } else {
        None
    }
}

// The speed of a device that gains plugs.
fn rate_of(nodes: &[NodeRow], ids: &[PhyPacket], device: u8, gains: bool) -> u8
    requires { (n : ℕ) → speed_of n ids.now < 4 }
    ensures rate { IsTrue gains → result ≡ rate_of nodes.now ids.now device }
    ensures small { result < 4 }
{
    if gains {
        speed_of(node_of_device(nodes, device), ids)
    } else {
        0
    }
}

/// The speeds of the devices that have more plugs now than before, by their self-ID packets. Those of the others do not count.
pub fn rates_of(before: &[u8; 63], now: &[u8; 63], nodes: &[NodeRow], ids: &[PhyPacket]) -> [u8; 63]
    requires { (n : ℕ) → speed_of n ids.now < 4 }
    ensures rates { AreRates before.now now.now nodes.now ids.now result }
    ensures small { (d : ℕ) → slice_index result d < 4 }
{
    let mut rates = [0; 63];
    for device in 0..63 {
        let gains = before[device] < now[device];
        rates[device] = rate_of(nodes, ids, device as u8, gains);
    }
    rates
}

// How many of the 31 places of a device have a plug, by how many plugs each device has.
fn plugs_of(counts: &[u8; 63], device: usize) -> usize
    requires { device < 63 }
    ensures within { result ≤ 31 }
    ensures plugs { (n : ℕ) → n < 31 → nat_lt n result ≡ nat_lt n (slice_index counts.now device) }
{
    let count = usize::from(counts[device]);
    if count < 31 { count } else { 31 }
}

// The word of an output plug after a bus reset.
fn output_word(was_there: bool, word: u32, rate: u8) -> u32
    requires { rate < 4 }
    ensures { result ≡ (if was_there then disconnected word else first_output rate) }
{
    if was_there {
        disconnected(word)
    } else {
        unconnected_output(FIRST_CHANNEL, rate, 0)
    }
}

// The word of an input plug after a bus reset.
fn input_word(was_there: bool, word: u32) -> u32
    ensures { result ≡ (if was_there then disconnected word else first_input) }
{
    if was_there {
        disconnected(word)
    } else {
        unconnected_input(FIRST_CHANNEL)
    }
}

// Whether an output plug goes on talking after a bus reset.
fn goes_on(was_there: bool, connected: bool, runs: bool, continues: bool) -> bool
    ensures { result ≡ (was_there && (connected || (runs && continues))) }
{
    was_there && (connected || (runs && continues))
}

// Whose the connections of a plug are after a bus reset. A plug that was there and had none is left as it is, as most are.
fn clear(seats: &mut Seats, was_there: bool, connected: bool)
    ensures { seats.new ≡ (if was_there && not connected then seats.old else no_seats) }
{
    if was_there && !connected {
        return;
    }
    *seats = Seats::empty();
}

/// The words of all output plugs after a bus reset, whose their connections are, and which go on talking. A plug that was there, and
/// is silent, is left as it is, as most are.
pub fn renew_outputs(
    words: &mut [u32],
    seats: &mut [Seats],
    continues: &mut [bool],
    before: &[u8; 63],
    now: &[u8; 63],
    runs: bool,
    rates: &[u8; 63],
)
    requires words { length words.old ≡ 1953 }
    requires seats { length seats.old ≡ 1953 }
    requires continues { length continues.old ≡ 1953 }
    requires rates { (d : ℕ) → slice_index rates.now d < 4 }
    ensures word_size { length words.new ≡ 1953 }
    ensures seat_size { length seats.new ≡ 1953 }
    ensures continue_size { length continues.new ≡ 1953 }
    ensures words { (k : ℕ) → k < 1953 → slice_index words.new k ≡ renewed_output before.now now.now rates.now (k / 31) (k % 31) (slice_index words.old k) }
    ensures seats { (k : ℕ) → k < 1953 → slice_index_or seats.new k no_seats
        ≡ renewed_seats before.now now.now (k / 31) (k % 31) (slice_index words.old k) (slice_index_or seats.old k no_seats) }
    ensures continues { (k : ℕ) → k < 1953 → slice_index_or continues.new k false
        ≡ goes_on before.now now.now runs (k / 31) (k % 31) (slice_index words.old k) (slice_index_or continues.old k false) }
{
    for device in 0..63 {
        let first = device * 31;
        let had = usize::from(before[device]);
        for k in first..first + plugs_of(now, device) {
            let word = words[k];
            let was_there = k - first < had;
            let connected = OutWord(word).is_connected();
            if was_there && !connected && !continues[k] {
                continue;
            }
            words[k] = output_word(was_there, word, rates[device]);
            continues[k] = goes_on(was_there, connected, runs, continues[k]);
            clear(&mut seats[k], was_there, connected);
        }
    }
}

/// The words of all input plugs after a bus reset, and whose their connections are. A plug that was there and has none is left as it is.
pub fn renew_inputs(words: &mut [u32], seats: &mut [Seats], before: &[u8; 63], now: &[u8; 63])
    requires words { length words.old ≡ 1953 }
    requires seats { length seats.old ≡ 1953 }
    ensures word_size { length words.new ≡ 1953 }
    ensures seat_size { length seats.new ≡ 1953 }
    ensures words { (k : ℕ) → k < 1953 → slice_index words.new k ≡ renewed_input before.now now.now (k / 31) (k % 31) (slice_index words.old k) }
    ensures seats { (k : ℕ) → k < 1953 → slice_index_or seats.new k no_seats
        ≡ renewed_seats before.now now.now (k / 31) (k % 31) (slice_index words.old k) (slice_index_or seats.old k no_seats) }
{
    for device in 0..63 {
        let first = device * 31;
        let had = usize::from(before[device]);
        for k in first..first + plugs_of(now, device) {
            let word = words[k];
            let was_there = k - first < had;
            let connected = OutWord(word).is_connected();
            if !connected && was_there {
                continue;
            }
            words[k] = input_word(was_there, word);
            clear(&mut seats[k], was_there, connected);
        }
    }
}
