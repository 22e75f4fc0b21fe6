ghost use Rattle.std.specs.Prelude.{◌≡◌, ◌+◌, ◌≤◌, ◌↔◌, IsTrue, length};
ghost use Rattle.fw_explore_levels.specs.Spots.{hash_of, key_in};

use std::hash::{FoldHasher, Hasher};

// A place of a level: where its bytes stand, and by how many schedules it is reached.
#[derive(Clone, Copy)]
pub(crate) struct Spot {
    pub(crate) at: u32,
    pub(crate) size: u32,
    pub(crate) hash: u64,
    // The last place before it in its bucket, from 1, or 0 for none.
    pub(crate) link: u32,
    // The step that led to it first.
    pub(crate) step: u32,
    pub(crate) ways: u128,
}

// By what the place with these bytes is found.
#[tactic(auto, unfolding(crate::specs::Spots::hash_of))]
pub(crate) fn hash_of(key: &[u8]) -> u64
    ensures { result ≡ hash_of key.now }
{
    let mut hasher = FoldHasher::default();
    hasher.write(key);
    hasher.finish()
}

// The bytes of a place.
pub(crate) fn key_at(bytes: &[u8], spot: Spot) -> &[u8]
    requires { spot.at + spot.size ≤ length bytes.now }
    ensures { result.now ≡ key_in bytes.now spot }
{
    let at = spot.at as usize;
    &bytes[at..at + spot.size as usize]
}

// Whether a place has these bytes.
pub(crate) fn has_key(bytes: &[u8], spot: Spot, hash: u64, key: &[u8]) -> bool
    requires within { spot.at + spot.size ≤ length bytes.now }
    requires kept { spot.hash ≡ hash_of (key_in bytes.now spot) }
    requires hash { hash ≡ hash_of key.now }
    ensures { IsTrue result ↔ (key_in bytes.now spot ≡ key.now) }
{
    if spot.hash != hash {
        return false;
    }
    key_at(bytes, spot) == key
}
