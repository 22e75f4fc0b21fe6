//! Names of devices, and where each stands.

ghost use Rattle.std.specs.Prelude.{ℕ, ◌≡◌, ◌<◌, ◌++◌, ◌∷◌, [], length, position, get_or, set, slice_index_or, IfOk, IfSome, IsTrue};
ghost use Rattle.fw_devices.specs.Network.{same_bytes};

use crate::MOST_DEVICES;
use fw_script_command::Name;
use std::alloc::{AllocError, Global};
use std::marker::Model;

/// How many keys there are.
const KEYS: usize = 256;

/// A place that no device has.
const NOWHERE: u8 = 255;

/// The names of devices, in order of declaration. Where each key was seen first is kept, so that a name is mostly found
/// by one comparison.
#[derive(Drop)]
pub(crate) struct Names {
    list: Vec<Name>,
    places: [u8; KEYS],
}

impl Model for Names {
    ghost use Rattle.std.specs.Prelude.{List, ℕ, vec_capacity};
    ghost use Rattle.fw_devices.specs.Names.{HasPlaces};

    ghost Value = { List (List ℕ) };

    ghost view = { λ n. n.list.items };

    ghost invariant = { λ n. HasPlaces n.list.items n.places (vec_capacity n.list) };
}

// The two names are the same.
fn same_name(a: &Name, b: &Name) -> bool
    ensures { result ≡ same_bytes a.now b.now }
{
    a == b
}

// Two names that are found the same are the same.
#[tactic(auto, using(crate::proofs::NameLaws::same_is))]
fn is_name(name: &Name, other: &Name) -> bool
    ensures { IsTrue result → name.now ≡ other.now }
{
    same_name(name, other)
}

// The place of the first name that is the same.
fn place_of(name: &Name, names: &[Name]) -> Option<usize>
    ensures value { result ≡ position (same_bytes name.now) names.now }
    ensures there { IfSome result (λ place. place < length names.now) }
{
    names.iter().position(|other| same_name(name, other))
}

// A number by which most names differ.
fn key_of(name: &Name) -> u8 {
    let mut key: u8 = 0;
    for b in name.as_slice() {
        key = key.wrapping_mul(10).wrapping_add(*b);
    }
    key
}

// No key was seen.
fn no_places() -> [u8; KEYS]
    ensures { (key : ℕ) → get_or result key 255 ≡ 255 }
{
    [NOWHERE; KEYS]
}

// Where a key was seen.
fn seen(places: &[u8; KEYS], key: u8) -> usize
    ensures { result ≡ get_or places.now key 255 }
{
    usize::from(places[usize::from(key)])
}

// Keeps where a key was seen.
fn keep(places: &mut [u8; KEYS], key: u8, place: usize)
    requires { place < 63 }
    ensures { places.new ≡ set places.old key place }
{
    places[usize::from(key)] = place as u8;
}

impl Names {
    /// No names. The memory for 63 is taken here, and no later call takes any.
    pub(crate) fn new(alloc: Global) -> Result<Names, AllocError>
        ensures { IfOk result (λ n. n ≡ []) }
    {
        Ok(Names {
            list: Vec::with_capacity(alloc, MOST_DEVICES)?,
            places: no_places(),
        })
    }

    /// Becomes a copy of others.
    pub(crate) fn copy_from(&mut self, other: &Names)
        ensures { self.new ≡ other.now }
    {
        self.clear();
        for name in &other.list {
            self.push(name);
        }
    }

    fn clear(&mut self)
        ensures { self.new ≡ [] }
    {
        self.list.clear();
        self.places = no_places();
    }

    /// Those that are found the same are the same.
    pub(crate) fn is_same(&self, other: &Names) -> bool
        ensures { IsTrue result → self.now ≡ other.now }
    {
        if self.count() != other.count() {
            return false;
        }
        for n in 0..self.count() {
            if !is_name(self.get(n), other.get(n)) {
                return false;
            }
        }
        true
    }

    /// How many there are.
    pub(crate) fn count(&self) -> usize
        ensures { result ≡ length self.now }
    {
        self.list.len()
    }

    /// The place of the first name that is the same. None if there is none.
    pub(crate) fn find(&self, name: &Name) -> Option<usize>
        ensures value { result ≡ position (same_bytes name.now) self.now }
        ensures there { IfSome result (λ place. place < length self.now) }
    {
        let place = seen(&self.places, key_of(name));
        if place < self.list.len() && same_name(name, &self.list[place]) {
            return Some(place);
        }
        place_of(name, &self.list)
    }

    /// The name at a place.
    pub(crate) fn get(&self, place: usize) -> &Name
        requires { place < length self.now }
        ensures { result.now ≡ slice_index_or self.now place [] }
    {
        &self.list[place]
    }

    /// Appends a name.
    pub(crate) fn push(&mut self, name: &Name)
        requires { length self.old < 63 }
        ensures { self.new ≡ self.old ++ name.now ∷ [] }
    {
        if place_of(name, &self.list).is_none() {
            keep(&mut self.places, key_of(name), self.list.len());
        }
        self.list.push(*name).unwrap();
    }
}
