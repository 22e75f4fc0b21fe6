//! The line of a bus reset.

ghost use Rattle.std.specs.Prelude.{◌≡◌, ◌<◌, ◌++◌, Option, ℕ, IfSome, OnOk, flat_map};
ghost use Rattle.fw_phy.specs.Phy as Phy;
ghost use Rattle.fw_log_entry.specs.Log.{ResetFits, body, manager_byte};
ghost use Rattle.fw_log_entry.specs.declared.entry.Entry.TheVariants as Entries;
ghost use Rattle.fw_log_entry.specs.declared.entry.ResetEntry.{ResetEntry as AReset};
ghost use Rattle.fw_log_text.specs.Line.{manager_text, reset_text};
ghost use Rattle.fw_log_text.specs.Resets.{HasHead, IsResetBody, head_text};

use crate::quadlets::{put_count, put_ids, put_number, put_word};
use crate::tables::Tables;
use crate::text_room::TextRoom;
use fw_log_entry::ResetEntry;
use fw_words::quadlet_at;
use std::alloc::AllocError;

/// What the line tells before the self-ID packets, and how many nodes there are.
#[derive(Clone, Copy)]
pub(crate) struct ResetHead {
    epoch: u32,
    root: u8,
    manager: Option<u8>,
    initiator: u8,
    count: usize,
}

fn put_manager(text: &mut TextRoom, tables: &Tables, manager: Option<u8>) -> Result<(), AllocError>
    ensures { OnOk result (text.new ≡ text.old ++ manager_text manager) }
{
    match manager {
        Some(node) => put_number(text, &tables.numbers, u64::from(node)),
        None => put_word(text, "none"),
    }
}

fn put_head(text: &mut TextRoom, tables: &Tables, head: ResetHead) -> Result<(), AllocError>
    ensures { OnOk result (text.new ≡ text.old ++ head_text head) }
{
    let numbers = &tables.numbers;
    put_count(text, numbers, "reset ", u64::from(head.epoch))?;
    put_count(text, numbers, " root ", u64::from(head.root))?;
    put_word(text, " manager ")?;
    put_manager(text, tables, head.manager)?;
    put_count(text, numbers, " by ", u64::from(head.initiator))?;
    put_word(text, ":")
}

// The self-ID packets in the body of a reset entry, after two quadlets and one for each node.
fn ids_part<'a>(r: &ResetEntry, bytes: &'a [u8]) -> &'a [u8]
    requires { bytes.now ≡ body (Entries.Reset r.now) }
    ensures { result.now ≡ flat_map Phy.spelling r.now.ids }
{
    &bytes[8 + 4 * r.nodes.as_slice().len()..]
}

/// Appends what the line of a reset says after its cycle; the bytes are the body of its entry.
pub(crate) fn put_reset(
    text: &mut TextRoom,
    tables: &Tables,
    r: &ResetEntry,
    bytes: &[u8],
) -> Result<(), AllocError>
    requires fits { ResetFits r.now }
    requires bytes { bytes.now ≡ body (Entries.Reset r.now) }
    ensures { OnOk result (text.new ≡ text.old ++ reset_text r.now) }
{
    let head = ResetHead {
        epoch: r.epoch,
        root: r.root,
        manager: r.manager,
        initiator: r.initiator,
        count: r.nodes.as_slice().len(),
    };
    put_head(text, tables, head)?;
    put_ids(text, &tables.pairs, r.ids.as_slice(), ids_part(r, bytes))
}

// The manager that a byte names; 255 is none.
fn manager_of(byte: u8) -> Option<u8>
    ensures { (m : Option ℕ) → IfSome m (λ n. n < 255) → byte ≡ manager_byte m → result ≡ m }
{
    if byte == 255 { None } else { Some(byte) }
}

// What a body tells before the self-ID packets.
fn head_of(bytes: &[u8]) -> ResetHead
    requires { IsResetBody bytes.now }
    ensures { (r : AReset) → ResetFits r → body (Entries.Reset r) ≡ bytes.now → HasHead r result }
{
    let second = quadlet_at(bytes, 4);
    ResetHead {
        epoch: quadlet_at(bytes, 0).0,
        root: second.field(0, 7) as u8,
        manager: manager_of(second.field(8, 15) as u8),
        initiator: second.field(16, 23) as u8,
        count: second.field(24, 31) as usize,
    }
}

/// The same from the bytes alone: no reset is made of them.
pub(crate) fn put_reset_bytes(
    text: &mut TextRoom,
    tables: &Tables,
    bytes: &[u8],
) -> Result<(), AllocError>
    requires { IsResetBody bytes.now }
    ensures { (r : AReset) → ResetFits r → body (Entries.Reset r) ≡ bytes.now → OnOk result (text.new ≡ text.old ++ reset_text r) }
{
    let head = head_of(bytes);
    put_head(text, tables, head)?;
    text.put_ids(&tables.pairs, &bytes[8 + 4 * head.count..])
}
