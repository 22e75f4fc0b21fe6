//! What the words say, done.

ghost use Rattle.std.specs.Prelude.{◌≡◌, ◌≢◌, ◌≤◌, ◌∷◌, List, ℕ, length, Some};
ghost use Rattle.fw_log_entry.specs.declared.entry.Timed.{Timed};
ghost use Rattle.fw_log.specs.History.{IsLog};
ghost use Rattle.fw_log_loop.specs.Endings.{limit, Reads};
ghost use Rattle.fw_log_loop.specs.declared.ending.LogEnding.{LogEnding};
ghost use Rattle.fw_log_words.specs.Words.{form_by, rules_by, Accepts};
ghost use Rattle.fw_log_reports.specs.declared.refusal.LogRefusal.{LogRefusal};
ghost use Rattle.fw_log_words.specs.declared.LogWord.{LogWord};
ghost use Rattle.fw_script_gen.specs.Gen.{script_of};
ghost use Rattle.fw_script_words.specs.Scripts.{IsValid};
ghost use Rattle.fw_script_words.specs.Sums.{Sums};
ghost use Rattle.fw_script_words.specs.declared.ending.RunEnding.{RunEnding};
ghost use Rattle.fw_tape.specs.Desks.{AnyBlock, AnyVendorByte};
ghost use Rattle.fw_tool.specs.About.{about_text, IsSaid};
ghost use Rattle.fw_tool.specs.Completing.{IsDoneOrUnmet};
ghost use Rattle.fw_tool.specs.Explorations.{ExploresAs};
ghost use Rattle.fw_tool.specs.Faults.{FirstFault};
ghost use Rattle.fw_tool.specs.Logs.{by_log};
ghost use Rattle.fw_tool.specs.Runs.{by_run};
ghost use Rattle.fw_tool.specs.Scripts.{RunsAs};
ghost use Rattle.fw_tool.specs.Words.{IsWord, IsListed, IsExploration};
ghost use Rattle.fw_tool.specs.declared.about.About.{About as AnAbout};
ghost use Rattle.fw_tool.specs.declared.ending.Ending.{Ending as AnEnding};
ghost use Rattle.fw_tool.specs.declared.scripts.ScriptWord.{ScriptWord};
ghost use Rattle.fw_tool.specs.declared.words.Word.{Word as AWord};

use crate::about::say;
use crate::ending::Ending;
use crate::explorations::explore_as;
use crate::forms::word_of;
use crate::logs::ending_of_log;
use crate::scripts::{ending_of_run, run_as};
use crate::words::Word;
use fw_log_words::read_as;
use fw_outside::{Flush, Source, Stop};
use fw_script_words::run_seed;
use fw_tape::Desk;
use std::alloc::Global;

/// Does what the words say, and answers how that ended. Nothing is told yet.
pub(crate) fn dispatch_form<
    S: Source,
    K: Flush,
    F: Fn(u16, u32, u16) -> [u8; 480],
    H: Fn(u32, u8) -> u8,
>(alloc: Global, words: &[String], source: &mut S, sink: &mut K, desk: &Desk<F, H>) -> Ending
    requires blocks { AnyBlock (F.pre desk.now.blocks) }
    requires desk { AnyVendorByte (H.pre desk.now.vendor) }
    ensures scripts { (word : ScriptWord) → IsWord words.now (AWord.Script word) → (e : RunEnding) × (result ≡ by_run e)
        × RunsAs (record { blocks = F.post desk.now.blocks; vendor = H.post desk.now.vendor }) word (S.left source.old) (S.left source.new) (K.held sink.old) (K.held sink.new) e }
    ensures sums { (seed : ℕ) → IsWord words.now (AWord.Gen seed) → (source.new ≡ source.old) × ((e : RunEnding) × (result ≡ by_run e)
        × Sums (record { blocks = F.post desk.now.blocks; vendor = H.post desk.now.vendor }) seed (K.held sink.old) (K.held sink.new) e) }
    ensures logs { (word : LogWord) → IsWord words.now (AWord.Log word) → (e : LogEnding LogRefusal) × (result ≡ by_log e)
        × Reads (form_by word) (rules_by word) (S.left source.old) (S.left source.new) (K.held sink.old) (K.held sink.new) e }
    ensures explorations { (more : List (List ℕ)) → IsExploration words.now more
        → ExploresAs (record { blocks = F.post desk.now.blocks; vendor = H.post desk.now.vendor }) more (S.left source.old) (S.left source.new) (K.held sink.old) (K.held sink.new) result }
    ensures about { (about : AnAbout) → IsWord words.now (AWord.About about) → (source.new ≡ source.old)
        × IsSaid (K.held sink.old) (K.held sink.new) (about_text about) result }
    ensures usage { (IsListed words.now → ⊥) → (source.new ≡ source.old) × (sink.new ≡ sink.old) × (result ≡ AnEnding.Usage) }
    ensures first { FirstFault (S.faults source.old) (S.faults source.new) (K.faults sink.old) (K.faults sink.new) result }
    ensures complete { (word : ScriptWord) → IsWord words.now (AWord.Script word) → (script : List ℕ) → S.left source.old ≡ Some script → IsValid script
        → result ≢ AnEnding.Stopped Stop.ReadFault → result ≢ AnEnding.Stopped Stop.WriteFault → IsDoneOrUnmet result }
    ensures complete_sums { (seed : ℕ) → IsWord words.now (AWord.Gen seed) → IsValid (script_of seed) → result ≢ AnEnding.Stopped Stop.WriteFault → IsDoneOrUnmet result }
    ensures complete_log { (word : LogWord) → IsWord words.now (AWord.Log word)
        → (entries : List Timed) → (bytes : List ℕ) → S.left source.old ≡ Some bytes → IsLog entries bytes → length bytes ≤ limit → Accepts word entries
        → result ≢ AnEnding.Stopped Stop.ReadFault → result ≢ AnEnding.Stopped Stop.WriteFault → IsDoneOrUnmet result }
{
    let Some(word) = word_of(words) else {
        return Ending::Usage;
    };
    match word {
        Word::Script(word) => ending_of_run(run_as(alloc, word, source, sink, desk)),
        Word::Gen(seed) => ending_of_run(run_seed(alloc, seed, sink, desk)),
        Word::Log(word) => ending_of_log(read_as(alloc, word, source, sink)),
        Word::Explore => explore_as(alloc, words, source, sink, desk),
        Word::About(about) => say(about, sink),
    }
}
