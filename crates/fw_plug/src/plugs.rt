ghost use Rattle.std.specs.Prelude.{◌≡◌, ◌<◌, ◌≤◌, ◌∷◌, [], length, slice_index, slice_index_or, false};
ghost use Rattle.fw_words.specs.Layout.{packed};
ghost use Rattle.fw_csr.specs.Requests.{offset_of};
ghost use Rattle.fw_csr.specs.Replies.{reply};
ghost use Rattle.fw_plug.specs.Plugs.{first_words, table_of, register_at, output_master, input_master, words_after, reset_words, after_second, is_active};

use crate::row::Row;
use crate::settings::{FIRST_CHANNEL, unconnected_input, unconnected_output};
use crate::{InWord, OutWord};
use fw_csr::offset::{IMPR, IPCR, OMPR, OPCR};
use fw_csr::{RegisterAccess, RegisterRequest, Reply};
use fw_words::with_field;
use std::marker::Model;

/// The plugs of a device: at most 31 output plugs and at most 31 input plugs, with their registers (IEC 61883-1, 7).
#[derive(Drop)]
pub struct Plugs {
    pub(crate) rate: u8,
    pub(crate) outputs: Row,
    pub(crate) inputs: Row,
}

impl Model for Plugs {
    ghost use Rattle.std.specs.Prelude.{◌≤◌, length};
    ghost use Rattle.fw_plug.specs.Plugs.{PlugWords};

    ghost Value = { PlugWords };

    ghost view = { λ p. record {
      rate = p.rate;
      outputs = p.outputs.words;
      inputs = p.inputs.words;
      lingering_outputs = p.outputs.lingering;
      lingering_inputs = p.inputs.lingering;
    } };

    ghost invariant = { λ p. (p.rate ≤ 2) × (length p.outputs.words ≤ 31) × (length p.inputs.words ≤ 31) };
}

impl Plugs {
    /// So many output and input plugs of a device at this data rate, 0, 1 or 2 for 100, 200 or 400 Mbit/s: on-line, not
    /// connected, on channel 63, and with a payload of 122 quadlets (own).
    pub fn new(outs: u8, ins: u8, rate: u8) -> Plugs
        requires outs { outs ≤ 31 }
        requires ins { ins ≤ 31 }
        requires rate { rate ≤ 2 }
        ensures { result ≡ first_words outs ins rate }
    {
        Plugs {
            rate,
            outputs: Row::new(outs, unconnected_output(FIRST_CHANNEL, rate, 0)),
            inputs: Row::new(ins, unconnected_input(FIRST_CHANNEL)),
        }
    }

    /// Carries a request out: address_error if it is at none of the registers, type_error if it is no quadlet read
    /// and, at a plug control register, no quadlet compare_swap, else complete.
    #[inline(always)]
    pub fn answer<R: RegisterRequest>(&mut self, r: &R) -> Reply
        ensures reply { result ≡ reply (register_at (table_of self.old) (offset_of (R.request r.now))) (R.request r.now) }
        ensures words { self.new ≡ words_after self.old (R.request r.now) }
    {
        // Most requests are at a plug: a master register is looked for last.
        let offset = r.offset();
        if let Some(n) = self.outputs.place(OPCR, offset) {
            return self.outputs.answer_at(n, r);
        }
        if let Some(n) = self.inputs.place(IPCR, offset) {
            return self.inputs.answer_at(n, r);
        }
        match offset {
            OMPR => r.reply_at(self.output_master()),
            IMPR => r.reply_at(self.input_master()),
            _ => Reply::address_error(),
        }
    }

    /// The register at an offset, if there is one.
    pub fn register(&self, offset: u64) -> Option<RegisterAccess>
        ensures { result ≡ register_at (table_of self.now) offset }
    {
        match offset {
            OMPR => Some(self.output_master()),
            IMPR => Some(self.input_master()),
            offset if offset < IMPR => self.outputs.register(OPCR, offset),
            _ => self.inputs.register(IPCR, offset),
        }
    }

    fn output_master(&self) -> RegisterAccess
        ensures { result ≡ RegisterAccess.ReadOnly (output_master self.now.rate (length self.now.outputs)) }
    {
        RegisterAccess::ReadOnly(master(self.rate, 0x3F, self.outputs.len()))
    }

    fn input_master(&self) -> RegisterAccess
        ensures { result ≡ RegisterAccess.ReadOnly (input_master self.now.rate (length self.now.inputs)) }
    {
        RegisterAccess::ReadOnly(master(self.rate, 0, self.inputs.len()))
    }

    /// A bus reset: no plug is connected any more, and all other fields stay. An output plug that talked and an input plug
    /// that heard lingers: it goes on until the second is over, or a request changes its word.
    pub fn reset(&mut self)
        ensures { self.new ≡ reset_words self.old }
    {
        self.outputs.reset();
        self.inputs.reset();
    }

    /// The second after a bus reset is over: no plug lingers. No register changes.
    pub fn second_over(&mut self)
        ensures { self.new ≡ after_second self.old }
    {
        self.outputs.second_over();
        self.inputs.second_over();
    }

    /// Output plug `n` sends: it is connected, or lingers.
    pub fn talks(&self, n: u8) -> bool
        requires { n < length self.now.outputs }
        ensures { result ≡ is_active (slice_index self.now.outputs n) (slice_index_or self.now.lingering_outputs n false) }
    {
        self.outputs.is_active(n)
    }

    /// Input plug `n` listens: it is connected, or lingers.
    pub fn hears(&self, n: u8) -> bool
        requires { n < length self.now.inputs }
        ensures { result ≡ is_active (slice_index self.now.inputs n) (slice_index_or self.now.lingering_inputs n false) }
    {
        self.inputs.is_active(n)
    }

    /// The register of output plug `n`.
    pub fn out_word(&self, n: u8) -> OutWord
        requires { n < length self.now.outputs }
        ensures { result.0 ≡ slice_index self.now.outputs n }
    {
        OutWord(self.outputs.word(n))
    }

    /// The register of input plug `n`.
    pub fn in_word(&self, n: u8) -> InWord
        requires { n < length self.now.inputs }
        ensures { result.0 ≡ slice_index self.now.inputs n }
    {
        InWord(self.inputs.word(n))
    }
}

/// A master plug register: the data rate, the base of the broadcast channels, two extension fields of ones, and the
/// number of plugs.
fn master(rate: u8, base: u8, plugs: usize) -> u32
    requires rate { rate ≤ 2 }
    requires base { base < 64 }
    requires plugs { plugs ≤ 31 }
    ensures { result ≡ packed ((2, rate) ∷ (6, base) ∷ (8, 0xFF) ∷ (8, 0xFF) ∷ (3, 0) ∷ (5, plugs) ∷ []) 0 }
{
    let word = with_field(u32::from(rate), 6, u32::from(base));
    let word = with_field(word, 16, 0xFFFF);
    with_field(word, 8, plugs as u32)
}
