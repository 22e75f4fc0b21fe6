//! Sets of channels: a bit is 1 if its channel is free (IEEE 1394-1995, 8.3.2.3.8).

ghost use Rattle.std.specs.Prelude.{◌≡◌, ◌++◌, ◌<◌};
ghost use Rattle.fw_log_registers.specs.Words.{channel_text, channels_text, taken_text, moved_text, told_channels};

use crate::told::RegisterValue;
use fw_text::Text;
use fw_words::Quadlet;

// Says a space and the number of the channel at a bit of a set, if the bit is 1.
fn put_channel(text: &mut Text, first: u8, set: u32, bit: u8)
    requires { bit < 32 }
    ensures { text.new ≡ text.old ++ channel_text first set bit }
{
    if Quadlet(set).field(bit, bit) != 1 {
        return;
    }
    text.word(" ");
    text.number(u64::from(first) + u64::from(bit));
}

// Says the channels of a set, whose first is `first`.
fn put_channels(text: &mut Text, first: u8, set: u32)
    ensures { text.new ≡ text.old ++ channels_text first set }
{
    for bit in 0..32 {
        put_channel(text, first, set, bit);
    }
}

// Says the channels that a swap moves, if there are any.
fn put_moved(text: &mut Text, lead: &str, first: u8, set: u32)
    ensures { text.new ≡ text.old ++ moved_text lead.now first set }
{
    if set == 0 {
        return;
    }
    text.word(lead);
    put_channels(text, first, set);
}

// Says the channels that are taken, or that none is.
fn put_taken(text: &mut Text, first: u8, taken: u32)
    ensures { text.new ≡ text.old ++ taken_text first taken }
{
    if taken == 0 {
        text.word(" none");
    } else {
        put_channels(text, first, taken);
    }
}

// Says what is told of a set of 32 channels, whose first is `first`.
pub(crate) fn put_set(text: &mut Text, told: RegisterValue, first: u8)
    ensures { text.new ≡ text.old ++ told_channels told first }
{
    match told {
        RegisterValue::Word(free) => {
            text.word(", channels taken");
            put_taken(text, first, !free);
        }
        RegisterValue::Swap { old, new } => {
            put_moved(text, ", takes channel", first, old & !new);
            put_moved(text, ", gives back channel", first, new & !old);
        }
    }
}
