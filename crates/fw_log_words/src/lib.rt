//! The words that read a log: `LogWord` says what each writes.
//!
//! Each word is a `Reading` of a file of its own with the call that reads a log by it, and `fw_log_loop` has the loop. A further word is
//! such a file, a case of `LogWord` with its line in `read_as`, and its two lines in the definitions by the word (`specs/Words.antt`).
#![tactic(auto)]

ghost use Rattle.fw_log_loop.specs.Endings.{ReadsLog};
ghost use Rattle.fw_log_words.specs.Words.{form_by, rules_by};

use fw_log::Version;
use fw_outside::{Flush, Source};
use std::alloc::Global;

mod entry_room;
mod explanation;
mod held;
mod laws;
mod lines;
mod marked;
mod objects;
mod paging;
mod rewriting;

pub use explanation::explain;
pub use fw_log_loop::{LogEnding, Stop};
pub use fw_log_reports::{
    LogRefusal, NoMap, Unsound, audit, dv, holders, map, map_graph, sound_logs_are_vouched, watch,
};
pub use laws::{logs_convert_back, marks_give_words_back, swaps_are_told};
pub use lines::decode;
pub use objects::json;
pub use paging::page;
pub use rewriting::convert;

/// A word that reads a log of at most 268,435,456 bytes.
#[derive(Clone, Copy)]
pub enum LogWord {
    /// `decode`: a line of raw quadlets for each entry, as it ends.
    Decode,
    /// `explain`: a line in words for each entry, as it ends.
    Explain,
    /// `json`: a JSON object with every field for each entry, as it ends.
    Json,
    /// `page`: the log as a page of HTML, with the lines of `json`, `explain`, `holders` and `watch` of each entry, as they end.
    Page,
    /// `dv`: at the log's end a line for each channel that has isochronous packets.
    Dv,
    /// `convert`: the entries as a log of this version, as they end.
    Convert(Version),
    /// `audit`: how many entries there are, if the registers that they show ran as a sound account.
    Audit,
    /// `holders`: a line each time that an allocation or a connection changes, as its entry ends, and at the end what is held.
    Holders,
    /// `watch`: a line for each thing that an entry shows of channels, bandwidth and plugs, as it ends; then how much was judged.
    Watch,
    /// `map`: the tree of the last bus reset, as text.
    Map,
    /// `map dot`: the same tree as a graph.
    Graph,
}

/// Reads a log as a word does.
pub fn read_as<S: Source, K: Flush>(
    alloc: Global,
    word: LogWord,
    source: &mut S,
    sink: &mut K,
) -> LogEnding<LogRefusal>
    ensures { ReadsLog (form_by word) (rules_by word) (record { left = S.left; faults = S.faults; old = source.old; new = source.new })
        (record { held = K.held; faults = K.faults; old = sink.old; new = sink.new }) result }
{
    match word {
        LogWord::Decode => decode(alloc, source, sink),
        LogWord::Explain => explain(alloc, source, sink),
        LogWord::Json => json(alloc, source, sink),
        LogWord::Page => page(alloc, source, sink),
        LogWord::Dv => dv(alloc, source, sink),
        LogWord::Convert(version) => convert(alloc, version, source, sink),
        LogWord::Audit => audit(alloc, source, sink),
        LogWord::Holders => holders(alloc, source, sink),
        LogWord::Watch => watch(alloc, source, sink),
        LogWord::Map => map(alloc, source, sink),
        LogWord::Graph => map_graph(alloc, source, sink),
    }
}
