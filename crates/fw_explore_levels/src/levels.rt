ghost use Rattle.std.specs.Prelude.{◌≡◌, ◌<◌, ◌≤◌, ◌+◌, ◌-◌, ◌^◌, ℕ, [], ◌∷◌, ◌++◌, List, length, slice_index_or, IfOk, OnOk, OnErr};
ghost use Rattle.fw_explore_levels.specs.Tables.{Entry, IsReached};

use crate::level::Level;
use crate::spot::hash_of;
use crate::steps::Steps;
use fw_kept_parts::Full;
use std::alloc::{AllocError, Global};
use std::marker::Model;
use std::mem;

/// A walk from one level, the places of one length, to the next: clauses see both, each place with its key, by how many
/// schedules it is reached (2^128 - 1 stands for all numbers from there on), and the first of them.
#[derive(Drop)]
pub struct Levels {
    alloc: Global,
    most: usize,
    level: Level,
    next: Level,
    steps: Steps,
}

impl Model for Levels {
    ghost use Rattle.fw_explore_levels.specs.Walked.{Walked, entries_of, HaveSteps};

    ghost Value = { Walked };

    ghost view = { λ l. record { level = entries_of l.steps l.level; next = entries_of l.steps l.next } };

    ghost invariant = { λ l. HaveSteps l.steps l.level × HaveSteps l.steps l.next };
}

// The buckets of the level after one of so many places.
fn buckets_for(places: usize) -> usize
    ensures { 0 < result }
{
    (2 * places.min(0x4000_0000)).max(64).next_power_of_two()
}

impl Levels {
    /// The level of length 0, which has one place, the one with this key; at most so many places of all lengths together.
    pub fn new(alloc: Global, most: usize, key: &[u8]) -> Result<Levels, Full>
        ensures level { IfOk result (λ l. l.level ≡ record { key = key.now; ways = 1; first = [] } ∷ []) }
        ensures next { IfOk result (λ l. l.next ≡ []) }
    {
        let mut level = Level::new(alloc, buckets_for(0))?;
        level.add(hash_of(key), key, 1, 0)?;
        let next = Level::new(alloc, buckets_for(0))?;
        let steps = Steps::new(alloc);
        Ok(Levels {
            alloc,
            most,
            level,
            next,
            steps,
        })
    }

    /// How many places the level has.
    pub fn len(&self) -> usize
        ensures { result ≡ length self.now.level }
    {
        self.level.len()
    }

    /// The key of a place.
    pub fn key(&self, place: usize) -> &[u8]
        requires { place < length self.now.level }
        ensures { (d : Entry) → result.now ≡ (slice_index_or self.now.level place d).key }
    {
        self.level.key(place)
    }

    /// By how many schedules a place is reached.
    pub fn ways(&self, place: usize) -> u128
        requires { place < length self.now.level }
        ensures { (d : Entry) → result ≡ (slice_index_or self.now.level place d).ways }
    {
        self.level.ways(place)
    }

    /// The first schedule of a place.
    pub fn first(&self, place: usize) -> Result<Vec<u8>, AllocError>
        requires { place < length self.now.level }
        ensures { IfOk result (λ v. (d : Entry) → v.items ≡ (slice_index_or self.now.level place d).first) }
    {
        self.steps.path(self.alloc, self.level.step(place))
    }

    /// A move leads from a place to the key of a place of the next level.
    pub fn reach(&mut self, place: usize, mover: u8, key: &[u8]) -> Result<(), Full>
        requires { place < length self.old.level }
        ensures ok { OnOk result ((d : Entry) → let from = slice_index_or self.old.level place d in IsReached self.old.next self.new.next key.now from.ways (from.first ++ mover ∷ [])) }
        ensures err { OnErr result (self.new.next ≡ self.old.next) }
        ensures level { self.new.level ≡ self.old.level }
    {
        let hash = hash_of(key);
        let ways = self.level.ways(place);
        match self.next.find(hash, key) {
            Some(there) => {
                self.next.reach(there, ways);
                return Ok(());
            }
            None => {}
        }
        let step = self.steps.len();
        if step >= self.most || step > 0xFFFF_FFFF {
            return Err(Full::TooLarge);
        }
        self.steps.add(self.level.step(place), mover)?;
        self.next.add(hash, key, ways, step as u32)?;
        Ok(())
    }

    /// The next level is the one to go on from.
    pub fn turn(&mut self) -> Result<(), AllocError>
        ensures ok { OnOk result ((self.new.level ≡ self.old.next) × (self.new.next ≡ [])) }
        ensures err { OnErr result (self.new ≡ self.old) }
    {
        let next = Level::new(self.alloc, buckets_for(self.next.len()))?;
        self.level = mem::replace(&mut self.next, next);
        Ok(())
    }
}
