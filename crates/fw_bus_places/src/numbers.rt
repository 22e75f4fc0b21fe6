//! The numbers of a machine's parts, as one list and told apart.

ghost use Rattle.std.specs.Prelude.{◌≡◌, ◌≤◌, ◌+◌, length, slice_index, take, drop};

/// How many numbers stand before those of the nodes.
pub(crate) const PREFIX: usize = 6;

/// The numbers of a machine's parts, told apart.
#[derive(Drop)]
pub(crate) struct Numbers<'a> {
    pub(crate) rest: u32,
    pub(crate) reel: u32,
    pub(crate) wire: u32,
    pub(crate) bids: u32,
    pub(crate) half_steps: u32,
    pub(crate) nodes: &'a [u32],
    pub(crate) controllers: &'a [u32],
}

/// The numbers of a list, which has them in this order, and how many nodes there are before those of the nodes.
pub(crate) fn told_apart(words: &[u32]) -> Numbers<'_>
    requires { 6 + slice_index words.now 5 ≤ length words.now }
    ensures rest { result.rest ≡ slice_index words.now 0 }
    ensures reel { result.reel ≡ slice_index words.now 1 }
    ensures wire { result.wire ≡ slice_index words.now 2 }
    ensures bids { result.bids ≡ slice_index words.now 3 }
    ensures half_steps { result.half_steps ≡ slice_index words.now 4 }
    ensures nodes { result.nodes.now ≡ take (slice_index words.now 5) (drop 6 words.now) }
    ensures controllers { result.controllers.now ≡ drop (slice_index words.now 5) (drop 6 words.now) }
{
    let (nodes, controllers) = words[PREFIX..].split_at(words[5] as usize);
    Numbers {
        rest: words[0],
        reel: words[1],
        wire: words[2],
        bids: words[3],
        half_steps: words[4],
        nodes,
        controllers,
    }
}

/// The number at a place of a list, or 0.
pub(crate) fn number_at(numbers: &[u32], place: usize) -> u32 {
    match numbers.get(place) {
        Some(number) => *number,
        None => 0,
    }
}

/// The numbers from a place on, if there are any.
pub(crate) fn numbers_from(numbers: &[u32], place: usize) -> &[u32] {
    if place <= numbers.len() {
        &numbers[place..]
    } else {
        numbers
    }
}
