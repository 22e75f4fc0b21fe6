//! What a controller leaves that dies.

ghost use Rattle.std.specs.Prelude.{◌≡◌, ◌≤◌, ◌<◌, ◌+◌, ◌==◌, ◌++◌, [], OnOk, codes, decimal, length, slice_index, if◌then◌else◌};
ghost use Rattle.fw_terms.specs.Tables.{find_to, sum_to, sum_plugs, at_plug};
ghost use Rattle.fw_model_account.specs.Account.{Account, is_pending, pending_channel};
ghost use Rattle.fw_model_account.specs.Decode.{is_owner};
ghost use Rattle.fw_account_tables.specs.Stands.{Stands, StandsFor, allocation_of, charge_at, owner_of, place};
ghost use Rattle.fw_holders_text.specs.Names.{count_text};
ghost use Rattle.fw_holders.specs.Deeds.{ends_of, orphans_text, death_text};
ghost use Rattle.fw_holders.specs.Seated.{ends_if, ends_in};

use crate::place::{has_plug, seats_at};
use fw_account_tables::{Broadcaster, Charge, Seats, Tables};
use fw_holders_text::{put_count, put_who};
use fw_log_names::{put_number, put_word};
use fw_terms::PlugAt;
use std::alloc::AllocError;

// This is a Pending allocation of a controller.
fn is_pending(charge: Charge, controller: u8) -> bool
    ensures { result ≡ is_pending controller (allocation_of charge) }
{
    match charge {
        Charge::Pending { controller: c, .. } => controller == c,
        _ => false,
    }
}

// The first channel of which a controller has a Pending allocation.
fn first_pending(charges: &[Charge], controller: u8) -> Option<usize>
    requires { length charges.now ≡ 64 }
    ensures { result ≡ find_to 64 (λ ch. is_pending controller (allocation_of (charge_at charges.now ch))) }
{
    for ch in 0..64 {
        if is_pending(charges[ch], controller) {
            return Some(ch);
        }
    }
    None
}

// The channel that a controller has for a plug that is not connected.
fn pending_channel(tables: &Tables, controller: u8) -> Option<usize>
    requires stands { Stands tables.now }
    ensures { (l : Account) → StandsFor tables.now l → result ≡ pending_channel controller l.allocations }
{
    first_pending(&tables.charges, controller)
}

// Whether the broadcast connection is that of a controller.
fn is_owner(broadcaster: Broadcaster, controller: u8) -> bool
    ensures { result ≡ is_owner controller (owner_of broadcaster) }
{
    match broadcaster {
        Broadcaster::Controller(c) => c == controller,
        _ => false,
    }
}

// How many point-to-point connections a controller has at a plug.
fn count_of(seats: &Seats, controller: u8) -> u8
    ensures { result ≡ slice_index seats.now.counts controller }
{
    match seats.counts.get(usize::from(controller)) {
        Some(count) => *count,
        None => 0,
    }
}

// How many ends of its connections a controller has at a plug.
fn ends_at(seats: &Seats, controller: u8) -> u64
    ensures ends { result ≡ slice_index seats.now.counts controller + (if is_owner controller (owner_of seats.now.broadcaster) then 1 else 0) }
    ensures few { result ≤ 256 }
{
    let counted = u64::from(count_of(seats, controller));
    if is_owner(seats.broadcaster, controller) {
        counted + 1
    } else {
        counted
    }
}

// How many it has at a plug, which may be there or not.
fn ends_if(there: bool, seats: &Seats, controller: u8) -> u64
    ensures ends { result ≡ ends_if there seats.now controller }
    ensures few { result ≤ 256 }
{
    if there { ends_at(seats, controller) } else { 0 }
}

// How many it has at a plug, by how many plugs each device has.
fn ends_in(seats: &[Seats], counts: &[u8; 63], p: PlugAt, controller: u8) -> u64
    requires { place p < length seats.now }
    ensures ends { result ≡ ends_in counts.now seats.now controller p }
    ensures few { result ≤ 256 }
{
    ends_if(has_plug(counts, p), &seats_at(seats, p), controller)
}

// How many it has at the plugs of a device.
fn ends_on(seats: &[Seats], counts: &[u8; 63], device: u8, controller: u8) -> u64
    requires size { length seats.now ≡ 1953 }
    requires within { device < 63 }
    ensures ends { result ≡ sum_to 31 (λ n. ends_in counts.now seats.now controller (at_plug device n)) }
    ensures few { result ≤ 7936 }
{
    let mut ends = 0;
    for plug in 0..31 {
        ends += ends_in(seats, counts, PlugAt { device, plug }, controller);
    }
    ends
}

// How many it has at all plugs of a table.
fn ends_among(seats: &[Seats], counts: &[u8; 63], controller: u8) -> u64
    requires { length seats.now ≡ 1953 }
    ensures ends { result ≡ sum_plugs (ends_in counts.now seats.now controller) }
    ensures few { result ≤ 499968 }
{
    let mut ends = 0;
    for device in 0..63 {
        ends += ends_on(seats, counts, device, controller);
    }
    ends
}

// How many it has at all plugs.
fn ends(tables: &Tables, controller: u8) -> u64
    requires stands { Stands tables.now }
    ensures { (l : Account) → StandsFor tables.now l → result ≡ ends_of controller l }
{
    ends_among(&tables.output_seats, &tables.outs, controller)
        + ends_among(&tables.input_seats, &tables.ins, controller)
}

// Appends how many ends of connections there are, after a word, if there are some.
fn put_ends(text: &mut Vec<u8>, before: &str, ends: u64) -> Result<(), AllocError>
    ensures { OnOk result (text.new.items ≡ text.old.items ++ (if ends == 0 then [] else before.now ++ count_text ends (codes "connection end"))) }
{
    if ends == 0 {
        return Ok(());
    }
    put_word(text, before)?;
    put_count(text, ends, "connection end")
}

// Appends the channel that nobody has from now on.
fn put_orphan(text: &mut Vec<u8>, channel: usize) -> Result<(), AllocError>
    ensures { OnOk result (text.new.items ≡ text.old.items ++ (codes ", orphans channel " ++ decimal channel)) }
{
    put_word(text, ", orphans channel ")?;
    put_number(text, channel as u64)
}

// Appends what nobody has from now on.
#[tactic(auto, unfolding(crate::specs::Deeds::orphans_text))]
fn put_orphans(text: &mut Vec<u8>, channel: Option<usize>, ends: u64) -> Result<(), AllocError>
    ensures { OnOk result (text.new.items ≡ text.old.items ++ orphans_text channel ends) }
{
    match channel {
        Some(channel) => {
            put_orphan(text, channel)?;
            put_ends(text, ", ", ends)
        },
        None => put_ends(text, ", orphans ", ends),
    }
}

/// Appends the death of the controller of a device, by what it had until then.
#[tactic(auto, unfolding(crate::specs::Deeds::death_text))]
pub(crate) fn put_death(text: &mut Vec<u8>, tables: &Tables, device: u8) -> Result<(), AllocError>
    requires stands { Stands tables.now }
    ensures { (l : Account) → StandsFor tables.now l → OnOk result (text.new.items ≡ text.old.items ++ death_text l device) }
{
    put_who(text, tables.nodes.as_slice(), device)?;
    put_word(text, " dies")?;
    put_orphans(text, pending_channel(tables, device), ends(tables, device))
}
