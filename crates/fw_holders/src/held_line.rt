//! The line of what a controller did, put together of texts that are at hand.

ghost use Rattle.std.specs.Prelude.{◌≡◌, ◌<◌, ◌≤◌, ◌+◌, ◌++◌, List, ℕ, None, codes, length, IsTrue, IsFalse, IfSome};
ghost use Rattle.fw_model_account.specs.Account.{Account};
ghost use Rattle.fw_account_tables.specs.Stands.{Stands, StandsFor, allocation_of, charge_at};
ghost use Rattle.fw_holders_text.specs.Deeds.{done_text};
ghost use Rattle.fw_holders_text.specs.Names.{nodes_of};
ghost use Rattle.fw_holders.specs.Held.{holding_of, with_holding, listed, held_text};
ghost use Rattle.fw_holders.specs.Told.{line};

use crate::holding::end_of_taken;
use fw_account_tables::{Charge, Tables};
use fw_holders_text::{Deed, HeldTexts, Holding, How, Line, TextRow};

// Appends a text, and answers whether it is at hand.
#[inline(always)]
fn pass_row(line: &mut Line, row: Option<&TextRow>) -> bool
    requires room { length line.old + 48 ≤ 3216 }
    ensures few { length line.new ≤ length line.old + 48 }
    ensures text { IsTrue result → (what : List ℕ) → IfSome row.entry (λ r. r.now ≡ what) → line.new ≡ line.old ++ what }
{
    match row {
        Some(row) => {
            line.put(row);
            true
        }
        None => false,
    }
}

// What is allocated of a channel.
#[inline(always)]
fn charge_of(tables: &Tables, channel: usize) -> &Charge
    requires stands { Stands tables.now }
    requires within { channel < 64 }
    ensures { result.now ≡ charge_at tables.now.charges.items channel }
{
    &tables.charges[channel]
}

// Appends a channel if it is allocated, and answers whether its text is at hand.
#[inline(always)]
fn pass_channel(line: &mut Line, tables: &Tables, texts: &HeldTexts, channel: usize) -> bool
    requires stands { Stands tables.now }
    requires within { channel < 64 }
    requires room { length line.old + 48 ≤ 3216 }
    ensures few { length line.new ≤ length line.old + 48 }
    ensures text { (before told : List ℕ) → line.old ≡ before ++ listed told → IsTrue result
        → line.new ≡ before ++ listed (with_holding texts.now channel (holding_of (allocation_of (charge_at tables.now.charges.items channel)) None) told) }
{
    // Each arm looks up its own text, so that what is held is not put together in memory.
    match *charge_of(tables, channel) {
        Charge::Free => true,
        Charge::Pending {
            controller,
            plug,
            units,
        } => {
            let how = How::Pending(controller);
            pass_row(
                line,
                texts.channel_row(channel as u8, Holding { how, plug, units }),
            )
        }
        Charge::Connected { plug, units } => {
            let how = How::Connected;
            pass_row(
                line,
                texts.channel_row(channel as u8, Holding { how, plug, units }),
            )
        }
        Charge::Orphaned { plug, units } => {
            let how = How::Orphaned;
            pass_row(
                line,
                texts.channel_row(channel as u8, Holding { how, plug, units }),
            )
        }
    }
}

// Appends all channels that are held while no reclaim second runs to a line that ends with what stands before the first, and answers
// whether their texts are at hand.
#[inline(always)]
fn pass_held(line: &mut Line, tables: &Tables, texts: &HeldTexts) -> bool
    requires stands { Stands tables.now }
    requires nodes { texts.now ≡ tables.now.nodes }
    requires stopped { IsFalse tables.now.reclaiming }
    requires room { length line.old ≤ 144 }
    ensures text { (before : List ℕ) (l : Account) → line.old ≡ before ++ codes ": " → StandsFor tables.now l → IsTrue result → line.new ≡ before ++ listed (held_text l) }
{
    for channel in 0..end_of_taken(tables) {
        if !pass_channel(line, tables, texts, channel) {
            return false;
        }
    }
    true
}

/// Puts the line of what the controller of a device did together, and answers whether all of its texts are at hand; if not the line is
/// none.
#[inline(always)]
pub(crate) fn pass_done_line(
    room: &mut Line,
    cycle: u64,
    tables: &Tables,
    texts: &HeldTexts,
    controller: u8,
    deed: Deed,
) -> bool
    requires stands { Stands tables.now }
    requires nodes { texts.now ≡ tables.now.nodes }
    ensures { (k : Account) → StandsFor tables.now k → IsTrue result → room.new ≡ line cycle (done_text (nodes_of k.latest) k.reclaiming controller deed) k }
{
    if tables.reclaiming {
        return false;
    }
    let Some(begins) = texts.cycle_row(cycle) else {
        return false;
    };
    let Some(what) = texts.done_row(tables.reclaiming, controller, deed) else {
        return false;
    };
    let Some(left) = texts.left_row(u64::from(tables.left)) else {
        return false;
    };
    room.clear();
    room.put(begins);
    room.put(what);
    room.put(left);
    if !pass_held(room, tables, texts) {
        return false;
    }
    room.end();
    true
}
