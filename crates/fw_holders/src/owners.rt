//! Whose the connections of a plug are, as text.

ghost use Rattle.std.specs.Prelude.{◌≡◌, ◌++◌, List, ℕ, OnOk, codes, length, slice_index};
ghost use Rattle.fw_model_account.specs.Account.{Connections, counter as connections};
ghost use Rattle.fw_account_tables.specs.Stands.{SeatsFor, owner_of};
ghost use Rattle.fw_holders_text.specs.Names.{who};
ghost use Rattle.fw_holders.specs.Table.{comma, with_count, counts_below, with_broadcast, owners_text};

use fw_account_tables::{Broadcaster, Seats};
use fw_holders_text::put_who;
use fw_log_entry::NodeRow;
use fw_log_names::{put_number, put_word};
use std::alloc::AllocError;

// Appends what stands between one who has a connection and the next, if the first stands at this byte.
#[tactic(auto, unfolding(crate::specs::Table::comma))]
fn put_comma(text: &mut Vec<u8>, from: usize) -> Result<(), AllocError>
    ensures { (before owners : List ℕ) → text.old.items ≡ before ++ owners → length before ≡ from → OnOk result (text.new.items ≡ before ++ (owners ++ comma owners)) }
{
    put_word(text, if text.len() == from { "" } else { ", " })
}

// Appends so many point-to-point connections of a controller, if there are some.
#[tactic(auto, unfolding(crate::specs::Table::with_count))]
fn put_counted(
    text: &mut Vec<u8>,
    from: usize,
    nodes: &[NodeRow],
    device: u8,
    count: u8,
) -> Result<(), AllocError>
    ensures { (before owners : List ℕ) → text.old.items ≡ before ++ owners → length before ≡ from → OnOk result (text.new.items ≡ before ++ with_count count (who nodes.now device) owners) }
{
    if count == 0 {
        return Ok(());
    }
    put_comma(text, from)?;
    put_number(text, u64::from(count))?;
    put_word(text, " point-to-point of ")?;
    put_who(text, nodes, device)
}

// Appends so many point-to-point connections of controllers that died, if there are some.
#[tactic(auto, unfolding(crate::specs::Table::with_count))]
fn put_dead(text: &mut Vec<u8>, from: usize, count: u8) -> Result<(), AllocError>
    ensures { (before owners : List ℕ) → text.old.items ≡ before ++ owners → length before ≡ from → OnOk result (text.new.items ≡ before ++ with_count count (codes "the dead") owners) }
{
    if count == 0 {
        return Ok(());
    }
    put_comma(text, from)?;
    put_number(text, u64::from(count))?;
    put_word(text, " point-to-point of the dead")
}

// Appends whose the point-to-point connections of a plug are.
fn put_counts(
    text: &mut Vec<u8>,
    from: usize,
    nodes: &[NodeRow],
    counts: &[u8; 63],
) -> Result<(), AllocError>
    ensures { length text.old.items ≡ from → OnOk result (text.new.items ≡ text.old.items ++ counts_below 63 nodes.now (slice_index counts.now)) }
{
    for device in 0..63 {
        put_counted(text, from, nodes, device, counts[usize::from(device)])?;
    }
    Ok(())
}

// How many point-to-point connections of a plug are of controllers that died, if it has so many.
fn orphaned(seats: &Seats, counter: u8) -> u8
    ensures { (s : Connections) → SeatsFor seats.now s → counter ≡ connections s → result ≡ s.orphaned }
{
    let mut orphaned = counter;
    for device in 0..63 {
        orphaned = orphaned.saturating_sub(seats.counts[device]);
    }
    orphaned
}

// Appends whose the broadcast connection of a plug is, if this is the first byte of whose the others are.
#[tactic(auto, unfolding(crate::specs::Table::with_broadcast))]
fn put_broadcast(
    text: &mut Vec<u8>,
    from: usize,
    nodes: &[NodeRow],
    broadcaster: Broadcaster,
) -> Result<(), AllocError>
    ensures { (before owners : List ℕ) → text.old.items ≡ before ++ owners → length before ≡ from → OnOk result (text.new.items ≡ before ++ with_broadcast nodes.now (owner_of broadcaster) owners) }
{
    match broadcaster {
        Broadcaster::Nobody => Ok(()),
        Broadcaster::Controller(controller) => {
            put_comma(text, from)?;
            put_word(text, "broadcast of ")?;
            put_who(text, nodes, controller)
        },
        Broadcaster::Died => {
            put_comma(text, from)?;
            put_word(text, "broadcast of the dead")
        },
    }
}

/// Appends whose the connections of a plug are, of which so many are point-to-point.
pub(crate) fn put_owners(
    text: &mut Vec<u8>,
    nodes: &[NodeRow],
    seats: &Seats,
    counter: u8,
) -> Result<(), AllocError>
    ensures { (s : Connections) → SeatsFor seats.now s → counter ≡ connections s → OnOk result (text.new.items ≡ text.old.items ++ owners_text nodes.now s) }
{
    let from = text.len();
    put_counts(text, from, nodes, &seats.counts)?;
    put_dead(text, from, orphaned(seats, counter))?;
    put_broadcast(text, from, nodes, seats.broadcaster)
}
