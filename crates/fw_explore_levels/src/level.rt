ghost use Rattle.std.specs.Prelude.{◌≡◌, ◌≢◌, ◌<◌, ◌≤◌, ◌+◌, ◌-◌, ◌^◌, ℕ, [], ◌∷◌, ◌++◌, List, length, min, slice_index_or, slice_set, IfOk, OnOk, OnErr, MatchOption};
ghost use Rattle.std.specs.List.{All};
ghost use Rattle.fw_explore_levels.specs.Counting.{most_told};
ghost use Rattle.fw_explore_levels.specs.Spots.{hash_of};

use crate::spot::{Spot, has_key, key_at};
use fw_kept_parts::Full;
use std::alloc::{AllocError, Global};
use std::marker::Model;

/// The most bytes of the places of one length.
const MOST_BYTES: usize = 268_435_456;

// The places of one length: clauses see each with its bytes, in the order in which they are reached.
#[derive(Drop)]
pub(crate) struct Level {
    bytes: Vec<u8>,
    spots: Vec<Spot>,
    // The last place of each bucket, from 1, or 0 for none.
    heads: Vec<u32>,
}

impl Model for Level {
    ghost use Rattle.std.specs.Prelude.{List};
    ghost use Rattle.fw_explore_levels.specs.Spots.{Spotted, spotted, AreLinked};

    ghost Value = { List Spotted };

    ghost view = { λ l. spotted l.bytes.items l.spots.items };

    ghost invariant = { λ l. AreLinked l.bytes.items l.spots.items l.heads.items };
}

impl Level {
    ghost use Rattle.fw_explore_levels.specs.Spots.{Spotted};

    pub(crate) fn new(alloc: Global, buckets: usize) -> Result<Level, AllocError>
        requires { 0 < buckets }
        ensures { IfOk result (λ l. l ≡ []) }
    {
        let heads = vec![in alloc; 0; buckets]?;
        let bytes = Vec::new(alloc);
        let spots = Vec::new(alloc);
        Ok(Level {
            bytes,
            spots,
            heads,
        })
    }

    pub(crate) fn len(&self) -> usize
        ensures { result ≡ length self.now }
    {
        self.spots.len()
    }

    pub(crate) fn ways(&self, place: usize) -> u128
        requires { place < length self.now }
        ensures { (d : Spotted) → result ≡ (slice_index_or self.now place d).ways }
    {
        self.spots[place].ways
    }

    pub(crate) fn step(&self, place: usize) -> u32
        requires { place < length self.now }
        ensures { (d : Spotted) → result ≡ (slice_index_or self.now place d).step }
    {
        self.spots[place].step
    }

    pub(crate) fn key(&self, place: usize) -> &[u8]
        requires { place < length self.now }
        ensures { (d : Spotted) → result.now ≡ (slice_index_or self.now place d).key }
    {
        let spot = self.spots[place];
        key_at(self.bytes.as_slice(), spot)
    }

    // The place with these bytes.
    pub(crate) fn find(&self, hash: u64, key: &[u8]) -> Option<usize>
        requires { hash ≡ hash_of key.now }
        ensures { MatchOption result (All (λ s. s.key ≢ key.now) self.now) (λ k. (k < length self.now) × ((d : Spotted) → (slice_index_or self.now k d).key ≡ key.now)) }
    {
        let mut head = self.heads[(hash as usize) & (self.heads.len() - 1)];
        while head != 0 {
            let place = head as usize - 1;
            let spot = self.spots[place];
            if has_key(self.bytes.as_slice(), spot, hash, key) {
                return Some(place);
            }
            head = spot.link;
        }
        None
    }

    // So many schedules more lead to a place.
    pub(crate) fn reach(&mut self, place: usize, ways: u128)
        requires { place < length self.old }
        ensures { (d : Spotted) → let s = slice_index_or self.old place d in self.new ≡ slice_set self.old place (record s { ways = min most_told (s.ways + ways) }) }
    {
        let spot = &mut self.spots[place];
        spot.ways = spot.ways.saturating_add(ways);
    }

    // A new place, after the others.
    pub(crate) fn add(&mut self, hash: u64, key: &[u8], ways: u128, step: u32) -> Result<(), Full>
        requires hash { hash ≡ hash_of key.now }
        requires none { All (λ s. s.key ≢ key.now) self.old }
        ensures ok { OnOk result (self.new ≡ self.old ++ record { key = key.now; ways = ways; step = step } ∷ []) }
        ensures err { OnErr result (self.new ≡ self.old) }
    {
        let at = self.bytes.len();
        if at >= MOST_BYTES || key.len() > MOST_BYTES - at || self.spots.len() >= MOST_BYTES {
            return Err(Full::TooLarge);
        }
        let bucket = (hash as usize) & (self.heads.len() - 1);
        self.bytes.extend_from_slice(key)?;
        self.spots.push(Spot {
            at: at as u32,
            size: key.len() as u32,
            hash,
            link: self.heads[bucket],
            step,
            ways,
        })?;
        self.heads[bucket] = self.spots.len() as u32;
        Ok(())
    }
}
