//! Node IDs, and the numbers of nodes in them.

ghost use Rattle.std.specs.Prelude.{◌≡◌, ◌≤◌, ◌<◌, ◌^◌, IfSome, ℕ, Some};
ghost use Rattle.fw_async_fields.specs.NodeIds.{first_id, node_id, number_of, local_number};

/// The node ID of node 0 of the local bus: ten ones, and six zeros (IEEE 1394-1995, node_ID).
const FIRST_ID: u16 = 0xFFC0;

/// How many nodes a bus may have: the number 63 stands for all of them (IEEE 1394-1995, node_ID).
pub const MOST_NODES: usize = 63;

/// The node ID of a node of the local bus, by its number, at most 63.
pub fn node_id(number: u8) -> u16
    requires { number ≤ 63 }
    ensures { result ≡ node_id number }
{
    FIRST_ID + u16::from(number)
}

/// The number in a node ID, 0 to 63, whatever the bus: its last six bits.
pub fn number_of(id: u16) -> u8
    ensures value { result ≡ number_of id }
    ensures within { result ≤ 63 }
{
    (id % 64) as u8
}

/// The number in a node ID of the local bus, 0 to 63; none in that of another bus.
pub fn local_number(id: u16) -> Option<u8>
    ensures value { result ≡ local_number id }
    ensures within { IfSome result (λ n. n ≤ 63) }
{
    if id < FIRST_ID {
        None
    } else {
        Some(number_of(id))
    }
}

/// There and back: a node's ID has its number, and on the local bus its number has the ID that it came from.
pub fn node_ids_are_numbers()
    ensures number { (n : ℕ) → n ≤ 63 → number_of (node_id n) ≡ n }
    ensures local { (n : ℕ) → n ≤ 63 → local_number (node_id n) ≡ Some n }
    ensures id { (id : ℕ) → first_id ≤ id → id < 2 ^ 16 → node_id (number_of id) ≡ id }
{}
