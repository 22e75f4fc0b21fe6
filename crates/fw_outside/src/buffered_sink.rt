ghost use Rattle.std.specs.Prelude.{◌≡◌, ◌≤◌, ◌+◌, ◌++◌, length, take, None, OnOk, OnErr};
ghost use Rattle.std.specs.Io.KnownBytes.{Appends};
ghost use Rattle.fw_outside.specs.Gathering.{gathered};
ghost use Rattle.fw_outside.specs.Outside.{AppendsPart, HasCause, Writes, counted};
ghost use Rattle.fw_outside.specs.declared.buffered_sink.TheConstants.{ROOM};

use crate::{Failed, Sink, StdSink};
use std::io::Write;

/// How many bytes a `BufferedSink` keeps back at most.
const ROOM: usize = 65_536;

/// A `StdSink` that gathers what is written and passes it on once its room is full, so that a short piece is only copied. What it
/// still keeps back is passed on by `flush`; if the writer fails, it is lost.
#[derive(Drop)]
pub struct BufferedSink<W: Write> {
    inner: StdSink<W>,
    bytes: [u8; ROOM],
    /// How many bytes are kept back.
    length: usize,
    ghost within: { length ≤ ROOM },
}

impl<W: Write> BufferedSink<W> {
    /// A sink that writes to `inner`.
    pub fn new(inner: W) -> BufferedSink<W>
        ensures inner { result.inner.inner ≡ inner }
        ensures empty { result.length ≡ 0 }
        ensures faults { result.inner.faults ≡ 0 }
    {
        BufferedSink {
            inner: StdSink::new(inner),
            bytes: [0; ROOM],
            length: 0,
        }
    }

    /// Passes on what is kept back, here and by the writer. If it fails, some of it may not have been passed on.
    pub fn flush(&mut self) -> Result<(), Failed>
        ensures passed { OnOk result (Appends (W.contents self.old.inner.inner) (W.contents self.new.inner.inner) (take self.old.length self.old.bytes)) }
        ensures prefix { OnErr result (AppendsPart (W.contents self.old.inner.inner) (W.contents self.new.inner.inner) (take self.old.length self.old.bytes)) }
        ensures empty { self.new.length ≡ 0 }
        ensures same { OnOk result (self.new.inner.faults ≡ self.old.inner.faults) }
        ensures risen { OnErr result (self.new.inner.faults ≡ counted self.old.inner.faults) }
    {
        self.pass_on()?;
        self.inner.flush()
    }

    /// Passes on what is kept back here.
    fn pass_on(&mut self) -> Result<(), Failed>
        ensures passed { OnOk result (Appends (W.contents self.old.inner.inner) (W.contents self.new.inner.inner) (take self.old.length self.old.bytes)) }
        ensures prefix { OnErr result (AppendsPart (W.contents self.old.inner.inner) (W.contents self.new.inner.inner) (take self.old.length self.old.bytes)) }
        ensures empty { self.new.length ≡ 0 }
        ensures cause { HasCause self.old.inner.faults self.new.inner.faults result }
        ensures same { OnOk result (self.new.inner.faults ≡ self.old.inner.faults) }
        ensures risen { OnErr result (self.new.inner.faults ≡ counted self.old.inner.faults) }
    {
        let result = self.inner.write(&self.bytes[..self.length]);
        self.length = 0;
        result
    }

    /// Keeps a piece back, which fits.
    fn keep(&mut self, piece: &[u8])
        requires { self.old.length + length piece.now ≤ ROOM }
        ensures kept { take self.new.length self.new.bytes ≡ take self.old.length self.old.bytes ++ piece.now }
        ensures inner { self.new.inner ≡ self.old.inner }
    {
        let end = self.length + piece.len();
        self.bytes[self.length..end].copy_from_slice(piece);
        self.length = end;
    }

    /// Keeps the beginning of a row back, which fits whole.
    #[inline(always)]
    fn keep_prefix(&mut self, row: &[u8; 48], count: usize)
        requires count { count ≤ 48 }
        requires room { self.old.length + 48 ≤ ROOM }
        ensures kept { take self.new.length self.new.bytes ≡ take self.old.length self.old.bytes ++ take count row.now }
        ensures inner { self.new.inner ≡ self.old.inner }
    {
        put_row(&mut self.bytes[self.length..self.length + 48], row);
        self.length += count;
    }

    /// Writes a piece that may not fit: what is kept back is passed on before it.
    #[tactic(auto, using(crate::proofs::Knowns::part_then, crate::proofs::Knowns::then_part))]
    #[cold]
    #[inline(never)]
    fn write_after(&mut self, piece: &[u8]) -> Result<(), Failed>
        ensures passed { OnOk result (Appends (gathered (W.contents self.old.inner.inner) self.old.bytes self.old.length) (gathered (W.contents self.new.inner.inner) self.new.bytes self.new.length) piece.now) }
        ensures prefix { OnErr result (AppendsPart (W.contents self.old.inner.inner) (W.contents self.new.inner.inner) (take self.old.length self.old.bytes ++ piece.now)) }
        ensures lost { OnErr result (self.new.length ≡ 0) }
        ensures cause { HasCause self.old.inner.faults self.new.inner.faults result }
        ensures same { OnOk result (self.new.inner.faults ≡ self.old.inner.faults) }
        ensures risen { OnErr result (self.new.inner.faults ≡ counted self.old.inner.faults) }
    {
        self.pass_on()?;
        if piece.len() > ROOM {
            return self.inner.write(piece);
        }
        self.keep(piece);
        Ok(())
    }
}

// Puts a row in place of as many bytes. One array is moved over another, so that no test is made of whether they overlap.
#[inline(always)]
fn put_row(room: &mut [u8], row: &[u8; 48])
    requires { length room.old ≡ 48 }
    ensures bytes { room.new ≡ row.now }
    ensures size { length room.new ≡ 48 }
{
    match room.as_mut_array::<48>() {
        Some(room) => *room = *row,
        None => unreachable!(),
    }
}

impl<W: Write> Sink for BufferedSink<W> {
    ghost held = { λ _. None };

    ghost faults = { λ s. s.inner.faults };

    fn write(&mut self, piece: &[u8]) -> Result<(), Failed>
        ensures bytes { Writes None None result piece.now }
        ensures passed { OnOk result (Appends (gathered (W.contents self.old.inner.inner) self.old.bytes self.old.length) (gathered (W.contents self.new.inner.inner) self.new.bytes self.new.length) piece.now) }
        ensures prefix { OnErr result (AppendsPart (W.contents self.old.inner.inner) (W.contents self.new.inner.inner) (take self.old.length self.old.bytes ++ piece.now)) }
        ensures lost { OnErr result (self.new.length ≡ 0) }
        ensures cause { HasCause self.old.inner.faults self.new.inner.faults result }
        ensures same { OnOk result (self.new.inner.faults ≡ self.old.inner.faults) }
        ensures risen { OnErr result (self.new.inner.faults ≡ counted self.old.inner.faults) }
    {
        if piece.len() > ROOM - self.length {
            return self.write_after(piece);
        }
        self.keep(piece);
        Ok(())
    }

    #[inline(always)]
    fn write_prefix(&mut self, row: &[u8; 48], count: usize) -> Result<(), Failed>
        requires { count ≤ 48 }
        ensures bytes { Writes None None result (take count row.now) }
        ensures passed { OnOk result (Appends (gathered (W.contents self.old.inner.inner) self.old.bytes self.old.length) (gathered (W.contents self.new.inner.inner) self.new.bytes self.new.length) (take count row.now)) }
        ensures prefix { OnErr result (AppendsPart (W.contents self.old.inner.inner) (W.contents self.new.inner.inner) (take self.old.length self.old.bytes ++ take count row.now)) }
        ensures lost { OnErr result (self.new.length ≡ 0) }
        ensures cause { HasCause self.old.inner.faults self.new.inner.faults result }
        ensures same { OnOk result (self.new.inner.faults ≡ self.old.inner.faults) }
        ensures risen { OnErr result (self.new.inner.faults ≡ counted self.old.inner.faults) }
    {
        if ROOM - self.length < 48 {
            return self.write_after(&row[..count]);
        }
        self.keep_prefix(row, count);
        Ok(())
    }
}
