//! Which channels are to be used within a second, and which of them are late.

ghost use Rattle.std.specs.Prelude.{◌≡◌, ◌+◌, ◌≤◌, ◌<◌, IfSome};
ghost use Rattle.fw_watch_known.specs.Channels.{next_late, is_taken, is_to_be_used};

use crate::channel::Due;
use crate::channels::Late;
use crate::plugs::Plugs;
use fw_watch_remarks::bit;

// Of a channel that is late and this one, if it is, the one that was taken first, and of two of one cycle the first.
#[tactic(auto, unfolding(crate::specs::Channels::next_late))]
pub(crate) fn next_late(
    best: Option<Late>,
    channel: u8,
    due: Option<Due>,
    cycle: u64,
) -> Option<Late>
    ensures value { result ≡ next_late best channel due cycle }
    ensures past { IfSome best (λ late. late.due.since + 8000 ≤ cycle) → IfSome result (λ late. late.due.since + 8000 ≤ cycle) }
{
    let Some(due) = due else {
        return best;
    };
    if !due.is_late(cycle) {
        return best;
    }
    match best {
        Some(late) if late.due.since <= due.since => best,
        _ => Some(Late { channel, due }),
    }
}

// The channel at a bit of a half was taken.
pub(crate) fn is_taken(old: u32, new: u32, at: u8) -> bool
    requires { at < 32 }
    ensures { result ≡ is_taken at old new }
{
    bit(old, at) && !bit(new, at)
}

// A channel that was taken is to be used, but for 31, which a manager has for itself, and one that a plug is on.
pub(crate) fn is_to_be_used(is_taken: bool, channel: u8, plugs: &Plugs) -> bool
    ensures { result ≡ is_to_be_used is_taken channel plugs.now }
{
    is_taken && channel != 31 && !plugs.is_used(channel)
}
