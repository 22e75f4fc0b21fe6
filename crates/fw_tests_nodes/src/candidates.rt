//! Bids of a candidate: one an epoch, which ends by what was found.

use fw_csr::{BUS_MANAGER_ID, Reply};
use fw_manager::{Bid, Candidate};
use fw_words::Swap;

/// What a turn came to: the words of the swap, or how the bid ended.
#[derive(Clone, Copy, PartialEq)]
enum Seen {
    Swap(u8, u64, u32, u32),
    Elected,
    Defeated(u32),
    Done,
    Other,
}

fn turn_of(bid: &Bid) -> Seen {
    match bid {
        Bid::Send { to, request } => match request.parts() {
            (offset, Some(Swap { argument, new })) => Seen::Swap(*to, offset, argument, new),
            _ => Seen::Other,
        },
        Bid::Elected => Seen::Elected,
        Bid::Defeated { by } => Seen::Defeated(*by),
        Bid::Done => Seen::Done,
    }
}

/// The swap of a bid: to this node, from 3F to this number.
fn bid(to: u8, number: u32) -> Seen {
    Seen::Swap(to, BUS_MANAGER_ID, 0x3F, number)
}

/// Whether a bid that finds this word ends so, and the next epoch has a bid of its own.
fn ends(word: u32, end: Seen) -> bool {
    let mut c = Candidate::new();
    let begun = turn_of(&c.next(2, 0, 1)) == bid(1, 0);
    c.hear(&Reply::complete(word));
    begun
        && turn_of(&c.next(2, 0, 1)) == end
        && turn_of(&c.next(2, 0, 1)) == Seen::Done
        && turn_of(&c.next(3, 4, 5)) == bid(5, 4)
}

#[test]
fn a_bid_ends_by_the_word_that_it_found(rt: HostRuntime) {
    assert!(rt; ends(0x3F, Seen::Elected));
    assert!(rt; ends(1, Seen::Defeated(1)));
}

#[test]
fn a_new_epoch_drops_what_was_asked_and_heard(rt: HostRuntime) {
    let mut c = Candidate::new();
    assert!(rt; turn_of(&c.next(2, 0, 1)) == bid(1, 0));
    assert!(rt; c.has_request(2) && !c.has_request(3));
    assert!(rt; turn_of(&c.next(3, 0, 1)) == bid(1, 0));
    c.hear(&Reply::complete(0x3F));
    assert!(rt; turn_of(&c.next(4, 1, 2)) == bid(2, 1));
}
