//! Which move a compare_swap is, by its register and its two words.

ghost use Rattle.std.specs.Prelude.{◌≡◌, ◌<◌, IfSome, Some};
ghost use Rattle.fw_model_account.specs.Account.{Account, Request};
ghost use Rattle.fw_model_account.specs.Decode.{changed_bit, is_more, kind_of};
ghost use Rattle.fw_model_account.specs.Words.{OutputPlug, InputPlug};
ghost use Rattle.fw_account_tables.specs.Stands.{Stands, StandsFor, AskedFor};
ghost use Rattle.fw_account_tables.specs.Swaps.{register_named};
ghost use Rattle.fw_holders.specs.Counts.{shows};
ghost use Rattle.fw_holders.specs.Found.{units_deed, channel_deed, connection_deed, word_deed, answer_deed};

use fw_account_tables::{Asked, Register, Tables};
use fw_holders_text::{Deed, Side};
use fw_ledger::Answer;
use fw_plug::{InWord, OutWord};
use fw_terms::{ConnectionKind, PlugAt};
use fw_words::{Quadlet, Swap};

// Units that are taken or given back.
fn units(swap: Swap) -> Deed
    ensures { result ≡ units_deed swap.argument swap.new }
{
    if swap.new < swap.argument {
        Deed::TakesUnits(swap.argument - swap.new)
    } else {
        Deed::GivesUnits(swap.new - swap.argument)
    }
}

// The first bit that changes.
fn changed_bit(argument: u32, new: u32) -> Option<u8>
    ensures first { result ≡ changed_bit argument new }
    ensures within { IfSome result (λ i. i < 32) }
{
    for i in 0..32 {
        if Quadlet(argument).field(i, i) != Quadlet(new).field(i, i) {
            return Some(i);
        }
    }
    None
}

// The channel of which the bit changes, in the half of CHANNELS_AVAILABLE that begins with another.
fn channel(base: u8, swap: Swap) -> Option<Deed>
    requires { base < 64 }
    ensures { result ≡ channel_deed base swap.argument (changed_bit swap.argument swap.new) }
{
    let bit = changed_bit(swap.argument, swap.new)?;
    if Quadlet(swap.argument).field(bit, bit) == 1 {
        Some(Deed::TakesChannel(base + bit))
    } else {
        Some(Deed::GivesChannel(base + bit))
    }
}

// The kind of the connection that is made or broken, by the broadcast connection bit before and after.
fn kind_of(before: bool, after: bool) -> ConnectionKind
    ensures { result ≡ kind_of before after }
{
    if before == after {
        ConnectionKind::PointToPoint
    } else {
        ConnectionKind::Broadcast
    }
}

// Whether a connection is made, by the broadcast connection bits and the counters.
fn is_more(before: (bool, u8), after: (bool, u8)) -> bool
    ensures { result ≡ is_more before.0 before.1 after.0 after.1 }
{
    if before.0 == after.0 {
        before.1 < after.1
    } else {
        after.0
    }
}

// The connection that is made or broken, at a plug that had one before or not.
fn connection(side: Side, p: PlugAt, kind: ConnectionKind, more: bool, connected: bool) -> Deed
    ensures { result ≡ connection_deed side p kind more connected }
{
    if !more {
        Deed::Leaves(side, p, kind)
    } else if connected {
        Deed::Adds(side, p, kind)
    } else {
        Deed::Connects(side, p, kind)
    }
}

// At an output plug.
fn output(p: PlugAt, before: OutWord, after: OutWord) -> Deed
    ensures { Some result ≡ word_deed (OutputPlug p) before.0 after.0 }
{
    let kind = kind_of(before.broadcast(), after.broadcast());
    let more = is_more(
        (before.broadcast(), before.counter()),
        (after.broadcast(), after.counter()),
    );
    connection(Side::Output, p, kind, more, before.is_connected())
}

// At an input plug.
fn input(p: PlugAt, before: InWord, after: InWord) -> Deed
    ensures { Some result ≡ word_deed (InputPlug p) before.0 after.0 }
{
    let kind = kind_of(before.broadcast(), after.broadcast());
    let more = is_more(
        (before.broadcast(), before.counter()),
        (after.broadcast(), after.counter()),
    );
    connection(Side::Input, p, kind, more, before.is_connected())
}

// What a swap of a register does that is a move.
#[inline(always)]
fn deed(register: Register, swap: Swap) -> Option<Deed>
    ensures { result ≡ word_deed (register_named register) swap.argument swap.new }
{
    match register {
        Register::Bandwidth => Some(units(swap)),
        Register::HighChannels => channel(0, swap),
        Register::LowChannels => channel(32, swap),
        Register::Output(p) => Some(output(p, OutWord(swap.argument), OutWord(swap.new))),
        Register::Input(p) => Some(input(p, InWord(swap.argument), InWord(swap.new))),
    }
}

/// Whether a quadlet that is shown is this word.
pub(crate) fn shows(shown: Option<u32>, word: u32) -> bool
    ensures { result ≡ shows shown word }
{
    match shown {
        Some(shown) => shown == word,
        None => false,
    }
}

/// What a response does that was taken: it is a move exactly if it shows the argument of a compare_swap of a register of the
/// account.
#[inline(always)]
pub(crate) fn deed_of(tables: &Tables, answer: &Answer) -> Option<Deed>
    requires stands { Stands tables.now }
    ensures { (k : Account) (q : Request) → StandsFor tables.now k → AskedFor answer.now.asked (Some q) → result ≡ answer_deed k.latest q answer.now.rcode answer.now.shown }
{
    let Asked::Swap { swap, .. } = answer.asked else {
        return None;
    };
    if answer.rcode != 0 || !shows(answer.shown, swap.argument) {
        return None;
    }
    let register = tables.register_asked(answer.asked)?;
    deed(register, swap)
}
