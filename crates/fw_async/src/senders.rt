//! Who has a request on the bus, in the order in which the requests were put there.

ghost use Rattle.std.specs.Prelude.{◌≡◌, ◌≢◌, ◌<◌, ◌≤◌, ℕ, [], ◌∷◌, ◌++◌, IsTrue, false, not, eqb, length, get_or};
ghost use Rattle.std.specs.List.{filter, list_any, IsDistinct};

use arrayvec::ArrayVec;
use std::marker::Model;

/// Node numbers, the oldest first. The oldest is mostly the next to go, so it goes without a move of the others.
#[derive(Drop)]
pub struct Senders {
    /// Twice as many as there are nodes, so that the places of those that have gone are seldom closed up.
    numbers: ArrayVec<u8, 126>,
    /// How many at the beginning have gone.
    gone: usize,
}

impl Model for Senders {
    ghost use Rattle.std.specs.Prelude.{List, ℕ, ◌≤◌, drop, length};

    ghost Value = { List ℕ };

    ghost view = { λ s. drop s.gone s.numbers.items };

    ghost invariant = { λ s. s.gone ≤ length s.numbers.items };
}

impl Senders {
    /// None.
    pub fn new() -> Senders
        ensures { result ≡ [] }
    {
        Senders {
            numbers: ArrayVec::new(),
            gone: 0,
        }
    }

    /// Appends a sender.
    pub fn push(&mut self, sender: u8)
        requires { length self.old < 63 }
        ensures { self.new ≡ self.old ++ sender ∷ [] }
    {
        if self.numbers.is_full() {
            let mut numbers = ArrayVec::new();
            let _ = numbers.try_extend_from_slice(&self.numbers.as_slice()[self.gone..]);
            self.numbers = numbers;
            self.gone = 0;
        }
        self.numbers.push(sender);
    }

    /// Takes a sender away; the others keep their order.
    #[tactic(auto, using(crate::proofs::SenderLaws::first_gone, crate::proofs::SenderLaws::later_gone, crate::proofs::SenderLaws::none_gone))]
    pub fn remove(&mut self, sender: u8)
        requires { IsDistinct eqb self.old }
        ensures { self.new ≡ filter (λ other. not (eqb sender other)) self.old }
    {
        if stands_at(self.numbers.as_slice(), self.gone, sender) {
            self.gone += 1;
            return;
        }
        let at = place_of(self.numbers.as_slice(), self.gone, sender);
        if at < self.numbers.len() {
            self.numbers.remove(at);
        }
    }

    /// One more than the greatest, or 0: from there on none stands.
    pub(crate) fn end(&self) -> usize
        ensures { (sender : ℕ) → result ≤ sender → list_any (eqb sender) self.now ≡ false }
    {
        end_of(&self.numbers.as_slice()[self.gone..])
    }

    /// Takes all away.
    pub fn clear(&mut self)
        ensures { self.new ≡ [] }
    {
        self.numbers.clear();
        self.gone = 0;
    }
}

/// Whether a sender stands at this place.
fn stands_at(numbers: &[u8], at: usize, sender: u8) -> bool
    ensures within { IsTrue result → at < length numbers.now }
    ensures here { IsTrue result → get_or numbers.now at 0 ≡ sender }
{
    at < numbers.len() && numbers[at] == sender
}

/// The first place from `from` on at which a sender stands; the numbers' end if it stands nowhere there.
fn place_of(numbers: &[u8], from: usize, sender: u8) -> usize
    requires { from ≤ length numbers.now }
    ensures from { from ≤ result }
    ensures within { result ≤ length numbers.now }
    ensures here { result < length numbers.now → get_or numbers.now result 0 ≡ sender }
    ensures first { (i : ℕ) → from ≤ i → i < result → get_or numbers.now i 0 ≢ sender }
{
    for at in from..numbers.len() {
        if numbers[at] == sender {
            return at;
        }
    }
    numbers.len()
}

/// One more than the greatest sender, or 0.
fn end_of(senders: &[u8]) -> usize
    ensures { (sender : ℕ) → result ≤ sender → list_any (eqb sender) senders.now ≡ false }
{
    let mut end = 0;
    for n in 0..senders.len() {
        if usize::from(senders[n]) >= end {
            end = usize::from(senders[n]) + 1;
        }
    }
    end
}
