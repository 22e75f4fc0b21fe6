//! Text that is appended to in place.

ghost use Rattle.std.specs.Prelude.{◌≡◌, ◌≤◌, ◌+◌, ◌++◌, ◌∷◌, [], List, flat_map, length, IfOk, OnOk, take};
ghost use Rattle.fw_phy.specs.Phy.{spelling};
ghost use Rattle.fw_phy.specs.declared.packet.PhyPacket.{PhyPacket};
ghost use Rattle.fw_log_text.specs.Line.{id_text, quadlets_text};

use crate::numbers::FEW;
use crate::rows::{ROW, Row, WORD, write_few, write_ids, write_quadlets, write_row};
use fw_log_names::Pairs;
use std::alloc::{AllocError, Global};
use std::marker::Model;

/// How many bytes of text there is room for at first: more than the lines have of 4,096 bytes of a log and of the longest
/// entry after them.
const ROOM: usize = 24_576;

/// A text, and room after it: a short piece is appended by a few moves, and nothing else.
#[derive(Drop)]
pub(crate) struct TextRoom {
    bytes: Vec<u8>,
    // How many of the bytes are the text.
    filled: usize,
}

impl Model for TextRoom {
    ghost use Rattle.std.specs.Prelude.{List, ℕ, ◌≤◌, length, take};

    ghost Value = { List ℕ };

    ghost view = { λ r. take r.filled r.bytes.items };

    ghost invariant = { λ r. r.filled ≤ length r.bytes.items };
}

// Appends so many zeros.
#[cold]
#[inline(never)]
fn grow(bytes: &mut Vec<u8>, count: usize) -> Result<(), AllocError>
    ensures grown { OnOk result (length bytes.new.items ≡ length bytes.old.items + count) }
    ensures same { take (length bytes.old.items) bytes.new.items ≡ bytes.old.items }
{
    for _ in 0..count {
        bytes.push(0)?;
    }
    Ok(())
}

// Makes room for so many bytes more after those that are filled, which stay as they are.
#[inline(always)]
fn make_room(bytes: &mut Vec<u8>, filled: usize, room: usize) -> Result<(), AllocError>
    requires { filled ≤ length bytes.old.items }
    ensures room { OnOk result (filled + room ≤ length bytes.new.items) }
    ensures filled { filled ≤ length bytes.new.items }
    ensures same { take filled bytes.new.items ≡ take filled bytes.old.items }
{
    if room <= bytes.len() - filled {
        return Ok(());
    }
    grow(bytes, room)
}

impl TextRoom {
    /// No text. An error says that memory ran out.
    pub(crate) fn new(alloc: Global) -> Result<TextRoom, AllocError>
        ensures { IfOk result (λ r. r ≡ []) }
    {
        Ok(TextRoom {
            bytes: vec![in alloc; 0; ROOM]?,
            filled: 0,
        })
    }

    /// The text.
    pub(crate) fn as_slice(&self) -> &[u8]
        ensures { result.now ≡ self.now }
    {
        &self.bytes[..self.filled]
    }

    /// Drops the text, and keeps the memory.
    pub(crate) fn clear(&mut self)
        ensures { self.new ≡ [] }
    {
        self.filled = 0;
    }

    /// Appends a piece. An error says that memory ran out.
    #[inline(always)]
    pub(crate) fn put(&mut self, piece: &[u8]) -> Result<(), AllocError>
        ensures { OnOk result (self.new ≡ self.old ++ piece.now) }
    {
        make_room(&mut self.bytes, self.filled, piece.len())?;
        let end = self.filled + piece.len();
        self.bytes[self.filled..end].copy_from_slice(piece);
        self.filled = end;
        Ok(())
    }

    /// Appends what a row begins with.
    #[inline(always)]
    pub(crate) fn put_row(&mut self, row: Row) -> Result<(), AllocError>
        ensures { OnOk result (self.new ≡ self.old ++ row.entry) }
    {
        make_room(&mut self.bytes, self.filled, ROW)?;
        self.filled = write_row(&mut self.bytes, self.filled, row);
        Ok(())
    }

    /// Appends the first so many of a few bytes.
    #[inline(always)]
    pub(crate) fn put_few(&mut self, few: [u8; FEW], size: usize) -> Result<(), AllocError>
        requires { size ≤ 4 }
        ensures { OnOk result (self.new ≡ self.old ++ take size few) }
    {
        make_room(&mut self.bytes, self.filled, FEW)?;
        self.filled = write_few(&mut self.bytes, self.filled, few, size);
        Ok(())
    }

    /// Appends the first quadlet of each eight bytes.
    #[inline(always)]
    pub(crate) fn put_ids(&mut self, pairs: &Pairs, bytes: &[u8]) -> Result<(), AllocError>
        ensures { (ids : List PhyPacket) → bytes.now ≡ flat_map spelling ids → OnOk result (self.new ≡ self.old ++ flat_map id_text ids) }
    {
        let room = WORD * (bytes.len() / 8);
        make_room(&mut self.bytes, self.filled, room)?;
        self.filled = write_ids(&mut self.bytes, self.filled, pairs, bytes);
        Ok(())
    }

    /// Appends as many bytes of two rows as `put_row` does, the quadlets of some bytes, and a line feed. The room is asked for once.
    #[inline(always)]
    pub(crate) fn put_line(
        &mut self,
        prefix: Row,
        word: Row,
        pairs: &Pairs,
        bytes: &[u8],
    ) -> Result<(), AllocError>
        requires { length bytes.now ≤ 528 }
        ensures { OnOk result (self.new ≡ self.old ++ (prefix.entry ++ (word.entry ++ quadlets_text bytes.now) ++ 10 ∷ [])) }
    {
        let room = 2 * ROW + WORD * (bytes.len() / 4) + 1;
        make_room(&mut self.bytes, self.filled, room)?;
        let at = write_row(&mut self.bytes, self.filled, prefix);
        let at = write_row(&mut self.bytes, at, word);
        let at = write_quadlets(&mut self.bytes, at, pairs, bytes);
        self.bytes[at] = b'\n';
        self.filled = at + 1;
        Ok(())
    }
}
