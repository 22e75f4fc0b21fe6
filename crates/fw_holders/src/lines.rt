//! The lines of entries.

ghost use Rattle.std.specs.Prelude.{◌≡◌, ◌++◌, ◌+◌, List, ℕ, OnOk, Some, codes, decimal, is_some, length, slice_get, IsTrue};
ghost use Rattle.fw_model_account.specs.Account.{Account, remainder};
ghost use Rattle.fw_account_tables.specs.Stands.{Stands, StandsFor};
ghost use Rattle.fw_log_entry.specs.Network.{device_of_id};
ghost use Rattle.fw_model_account.specs.Packets.{answered};
ghost use Rattle.fw_model_account.specs.Sound.{IsSound};
ghost use Rattle.fw_model_audit.specs.Looked.{Response, Replies};
ghost use Rattle.fw_ledger.specs.Refused.{IsAnswered};
ghost use Rattle.fw_holders_text.specs.Names.{nodes_of, right};
ghost use Rattle.fw_holders_text.specs.Deeds.{done_text};
ghost use Rattle.fw_holders.specs.Found.{HasReply};
ghost use Rattle.fw_holders.specs.Held.{held_text};
ghost use Rattle.fw_holders.specs.Deeds.{event_told, initiator_text, manager_text, reset_text, packet_told};
ghost use Rattle.fw_holders.specs.Told.{rest_of_line, line, line_of};

use crate::death::put_death;
use crate::held::put_held;
use crate::held_line::pass_done_line;
use crate::moves::deed_of;
use fw_account_tables::Tables;
use fw_holders_text::{Deed, HeldTexts, Line, WHAT_WIDTH, fill, put_count, put_who};
use fw_ledger::{Answer, Ledger};
use fw_log_entry::codes::event::{DIED, SECOND_OVER, WITHHELD};
use fw_log_entry::{EventEntry, ResetEntry};
use fw_log_names::{put_number, put_word};
use std::alloc::AllocError;

// Appends the end of a line after what is told: what is left and held after its entry.
fn put_standing(
    text: &mut Vec<u8>,
    tables: &Tables,
    texts: &mut HeldTexts,
) -> Result<(), AllocError>
    requires stands { Stands tables.now }
    requires nodes { texts.old ≡ tables.now.nodes }
    ensures same { texts.new ≡ texts.old }
    ensures text { (l : Account) → StandsFor tables.now l → OnOk result (text.new.items ≡ text.old.items ++ (right 4 (decimal (remainder l)) ++ codes " left" ++ held_text l ++ codes "\n")) }
{
    texts.put_left(text, u64::from(tables.left))?;
    put_held(text, tables, texts)?;
    put_word(text, "\n")
}

/// Appends the end of a line in which what is told begins at this byte: what is left and held after its entry.
pub(crate) fn put_rest(
    text: &mut Vec<u8>,
    from: usize,
    tables: &Tables,
    texts: &mut HeldTexts,
) -> Result<(), AllocError>
    requires stands { Stands tables.now }
    requires nodes { texts.old ≡ tables.now.nodes }
    ensures same { texts.new ≡ texts.old }
    ensures text { (before what : List ℕ) (l : Account) → text.old.items ≡ before ++ what → length before ≡ from → StandsFor tables.now l
        → OnOk result (text.new.items ≡ before ++ rest_of_line what l) }
{
    fill(text, from, WHAT_WIDTH)?;
    put_word(text, " ")?;
    put_standing(text, tables, texts)
}

// Appends the device that began a bus reset.
#[tactic(auto, unfolding(crate::specs::Deeds::initiator_text))]
fn put_initiator(text: &mut Vec<u8>, r: &ResetEntry) -> Result<(), AllocError>
    ensures { OnOk result (text.new.items ≡ text.old.items ++ initiator_text r.now (slice_get r.now.nodes r.now.initiator)) }
{
    let nodes = r.nodes.as_slice();
    match nodes.get(usize::from(r.initiator)) {
        Some(row) => put_who(text, nodes, row.device),
        None => Ok(()),
    }
}

// Appends that no node is resource manager, if it is so.
#[tactic(auto, unfolding(crate::specs::Deeds::manager_text))]
fn put_manager(text: &mut Vec<u8>, manager: Option<u8>) -> Result<(), AllocError>
    ensures { OnOk result (text.new.items ≡ text.old.items ++ manager_text manager) }
{
    match manager {
        Some(_) => Ok(()),
        None => put_word(text, ", no manager"),
    }
}

// Appends what is told of a bus reset.
#[tactic(auto, unfolding(crate::specs::Deeds::reset_text))]
fn put_bus_reset(text: &mut Vec<u8>, r: &ResetEntry) -> Result<(), AllocError>
    ensures { OnOk result (text.new.items ≡ text.old.items ++ reset_text r.now) }
{
    put_word(text, "bus reset ")?;
    put_number(text, u64::from(r.epoch))?;
    put_word(text, " by ")?;
    put_initiator(text, r)?;
    put_word(text, ", ")?;
    put_count(text, r.nodes.as_slice().len() as u64, "node")?;
    put_manager(text, r.manager)
}

/// Appends the line of a bus reset.
pub(crate) fn put_reset(
    text: &mut Vec<u8>,
    cycle: u64,
    tables: &Tables,
    texts: &mut HeldTexts,
    r: &ResetEntry,
) -> Result<(), AllocError>
    requires stands { Stands tables.now }
    requires nodes { texts.old ≡ tables.now.nodes }
    ensures same { texts.new ≡ texts.old }
    ensures text { (l : Account) → StandsFor tables.now l → OnOk result (text.new.items ≡ text.old.items ++ line cycle (reset_text r.now) l) }
{
    texts.put_cycle(text, cycle)?;
    let from = text.len();
    put_bus_reset(text, r)?;
    put_rest(text, from, tables, texts)
}

/// Whether an event changes what is held, and so has a line.
pub(crate) fn is_told(e: &EventEntry) -> bool
    ensures { (l : Account) → result ≡ is_some (event_told l e.now) }
{
    matches!(e.code, SECOND_OVER | DIED | WITHHELD)
}

/// Appends such an event, by the tables before it.
pub(crate) fn put_event(
    text: &mut Vec<u8>,
    tables: &Tables,
    e: &EventEntry,
) -> Result<(), AllocError>
    requires stands { Stands tables.now }
    ensures { (l : Account) (what : List ℕ) → StandsFor tables.now l → event_told l e.now ≡ Some what → OnOk result (text.new.items ≡ text.old.items ++ what) }
{
    match e.code {
        SECOND_OVER => put_word(text, "the second is over"),
        DIED => put_death(text, tables, e.device),
        _ => put_word(text, "channel 31 is withheld"),
    }
}

// Appends the line of what the controller of a device did, of which not all texts are at hand.
#[inline(never)]
fn put_new_line(
    text: &mut Vec<u8>,
    cycle: u64,
    tables: &Tables,
    texts: &mut HeldTexts,
    controller: u8,
    deed: Deed,
) -> Result<(), AllocError>
    requires stands { Stands tables.now }
    requires nodes { texts.old ≡ tables.now.nodes }
    ensures same { texts.new ≡ texts.old }
    ensures text { (k : Account) → StandsFor tables.now k → OnOk result (text.new.items ≡ text.old.items ++ line cycle (done_text (nodes_of k.latest) k.reclaiming controller deed) k) }
{
    texts.put_cycle(text, cycle)?;
    texts.put_done(text, tables.reclaiming, controller, deed)?;
    put_standing(text, tables, texts)
}

// Appends the line of what the controller of a device did.
#[inline(never)]
fn put_done_line(
    text: &mut Vec<u8>,
    room: &mut Line,
    cycle: u64,
    tables: &Tables,
    texts: &mut HeldTexts,
    controller: u8,
    deed: Deed,
) -> Result<(), AllocError>
    requires stands { Stands tables.now }
    requires nodes { texts.old ≡ tables.now.nodes }
    ensures same { texts.new ≡ texts.old }
    ensures text { (k : Account) → StandsFor tables.now k → OnOk result (text.new.items ≡ text.old.items ++ line cycle (done_text (nodes_of k.latest) k.reclaiming controller deed) k) }
{
    texts.keep_numbers(cycle, u64::from(tables.left))?;
    if pass_done_line(room, cycle, tables, texts, controller, deed) {
        return text.extend_from_slice(room.as_slice());
    }
    put_new_line(text, cycle, tables, texts, controller, deed)
}

/// Appends the line of a response that made a move; of another nothing.
// In line, so that nothing is made of an answer that has no line.
#[inline(always)]
pub(crate) fn put_answer(
    text: &mut Vec<u8>,
    room: &mut Line,
    cycle: u64,
    ledger: &Ledger,
    texts: &mut HeldTexts,
    answer: &Answer,
) -> Result<(), AllocError>
    requires nodes { texts.old ≡ ledger.now.nodes }
    ensures same { texts.new ≡ texts.old }
    ensures text { (l k : Account) (r : Response) → IsSound l → StandsFor ledger.now k → HasReply r.reply r.rcode r.word
        → answered (device_of_id l.latest r.requester) r.responder r.reply l ≡ Some k → IsAnswered l r answer.now
        → OnOk result (text.new.items ≡ text.old.items ++ line_of cycle (packet_told l (Replies r)) (Some k)) }
{
    let tables = ledger.tables();
    let Some(deed) = deed_of(tables, answer) else {
        return Ok(());
    };
    match ledger.device(answer.requester) {
        Some(controller) => put_done_line(text, room, cycle, tables, texts, controller, deed),
        None => Ok(()),
    }
}
