//! Words that answers show, and the swaps that have found them.

ghost use Rattle.std.specs.Prelude.{◌≡◌, ◌++◌, OnOk};
ghost use Rattle.fw_watch_remarks.specs.Remarks.{told};
ghost use Rattle.fw_watch_known.specs.Judging.{judged};
ghost use Rattle.fw_watch_known.specs.Swapped.{swapped};
ghost use Rattle.fw_watch.specs.Judging.{judge_remarks};
ghost use Rattle.fw_watch.specs.Swaps.{swap_remarks};
ghost use Rattle.fw_watch.specs.Answering.{made, made_remarks, after_made, found_remarks, after_found};

use crate::judge::tell_judged;
use crate::tell_swap::tell_swap;
use fw_watch_known::{Answer, Made, State};
use fw_watch_remarks::{At, Journal};
use fw_words::Swap;
use std::alloc::AllocError;

// Takes a swap that was made.
#[inline(never)]
fn take_made(state: &mut State, journal: &mut Journal, made: &Made) -> Result<(), AllocError>
    ensures lines { OnOk result (journal.new ≡ told journal.old (swap_remarks state.old made.now)) }
    ensures known { OnOk result (state.new ≡ swapped state.old made.now) }
{
    tell_swap(state, journal, made)?;
    state.swap(made);
    Ok(())
}

// Takes a word that is found, which is not the one that is known to be there.
#[inline(never)]
fn take_other(
    state: &mut State,
    journal: &mut Journal,
    cycle: u64,
    at: At,
    found: u32,
) -> Result<(), AllocError>
    ensures lines { OnOk result (journal.new ≡ told journal.old (judge_remarks state.old cycle at found)) }
    ensures known { OnOk result (state.new ≡ judged state.old at found) }
{
    tell_judged(state, journal, cycle, at, found)?;
    state.judge(at, found);
    Ok(())
}

// Takes such a word, and then the swap that has found it.
#[inline(never)]
#[tactic(auto, using(crate::proofs::WatchLaws::told_more))]
fn take_other_made(
    state: &mut State,
    journal: &mut Journal,
    made: &Made,
    found: u32,
) -> Result<(), AllocError>
    ensures lines { OnOk result (journal.new ≡ told journal.old (judge_remarks state.old made.now.cycle made.now.at found ++ swap_remarks (judged state.old made.now.at found) made.now)) }
    ensures known { OnOk result (state.new ≡ swapped (judged state.old made.now.at found) made.now) }
{
    take_other(state, journal, made.cycle, made.at, found)?;
    take_made(state, journal, made)
}

// A swap that an answer has made.
#[inline(always)]
fn made_by(cycle: u64, a: &Answer, swap: Swap) -> Made
    ensures { result ≡ made cycle a.now swap }
{
    Made {
        cycle,
        by: a.by,
        at: a.at,
        old: swap.argument,
        new: swap.new,
    }
}

// Takes a swap that an answer has made, if it has made one.
#[inline(always)]
#[tactic(auto, unfolding(crate::specs::Answering::made_remarks, crate::specs::Answering::after_made))]
fn take_swap(
    state: &mut State,
    journal: &mut Journal,
    cycle: u64,
    a: &Answer,
) -> Result<(), AllocError>
    ensures lines { OnOk result (journal.new ≡ told journal.old (made_remarks cycle a.now a.now.swap state.old)) }
    ensures known { OnOk result (state.new ≡ after_made cycle a.now a.now.swap state.old) }
{
    match a.swap {
        Some(swap) => take_made(state, journal, &made_by(cycle, a, swap)),
        None => Ok(()),
    }
}

// Takes an answer that shows another word than the one that is known to be there.
#[inline(always)]
#[tactic(auto, unfolding(crate::specs::Answering::found_remarks, crate::specs::Answering::after_found, crate::specs::Answering::made_remarks, crate::specs::Answering::after_made))]
fn take_unlike(
    state: &mut State,
    journal: &mut Journal,
    cycle: u64,
    a: &Answer,
    found: u32,
) -> Result<(), AllocError>
    ensures lines { OnOk result (journal.new ≡ told journal.old (found_remarks cycle a.now found state.old)) }
    ensures known { OnOk result (state.new ≡ after_found cycle a.now found state.old) }
{
    match a.swap {
        Some(swap) => take_other_made(state, journal, &made_by(cycle, a, swap), found),
        None => take_other(state, journal, cycle, a.at, found),
    }
}

/// Takes an answer that shows a word. What is not inlined is not given the answer, and nothing is done after it, so that the answer need
/// not be put together in memory.
#[inline(always)]
#[tactic(auto, unfolding(crate::specs::Answering::found_remarks, crate::specs::Answering::after_found, crate::specs::Judging::judge_remarks))]
pub(crate) fn take_found(
    state: &mut State,
    journal: &mut Journal,
    cycle: u64,
    a: &Answer,
    found: u32,
) -> Result<(), AllocError>
    ensures lines { OnOk result (journal.new ≡ told journal.old (found_remarks cycle a.now found state.old)) }
    ensures known { OnOk result (state.new ≡ after_found cycle a.now found state.old) }
{
    if state.judge_same(a.at, found) {
        take_swap(state, journal, cycle, a)
    } else {
        take_unlike(state, journal, cycle, a, found)
    }
}
