//! `map` and `map dot`: the tree of the last bus reset of a log, as text or as a graph.

ghost use Rattle.std.specs.Prelude.{◌≡◌, [], List, ℕ, IfOk, string_bytes};
ghost use Rattle.fw_log_entry.specs.declared.entry.ResetEntry.{ResetEntry as AReset};
ghost use Rattle.fw_map.specs.declared.tree.Tree.{Tree as ATree};
ghost use Rattle.fw_map.specs.Walks.{IsRebuilt};
ghost use Rattle.fw_log_loop.specs.Endings.{ReadsLog};
ghost use Rattle.fw_log_reports.specs.Texts.{silent_form};
ghost use Rattle.fw_log_reports.specs.Maps.{IsGraphOf, IsTextOf, graph_rules, map_rules};

use crate::last_reset::LastReset;
use crate::{LogRefusal, NoMap};
use fw_log::{LogReader, ReadBuffers, Timed};
use fw_log_entry::ResetEntry;
use fw_log_loop::{Closing, LogEnding, Reading, read_log};
use fw_map::{Tree, rebuild, tree_graph, tree_text};
use fw_outside::{Failed, Flush, Sink, Source};
use std::alloc::{AllocError, Global};

// How a tree is shown.
trait Picture: Drop {
    // The text shows the tree, which has the packets of the bus reset.
    ghost Shows: { ATree → AReset → List ℕ → Type 0 };

    fn draw(&self, alloc: Global, tree: &Tree, reset: &ResetEntry) -> Result<String, AllocError>
        requires { IsRebuilt tree.now }
        ensures { IfOk result (λ s. Shows tree.now reset.now (string_bytes s)) };
}

// As lines, with the speeds between the nodes.
#[derive(Drop)]
struct AsText;

impl Picture for AsText {
    ghost Shows = { IsTextOf };

    fn draw(&self, alloc: Global, tree: &Tree, _: &ResetEntry) -> Result<String, AllocError> {
        tree_text(alloc, tree)
    }
}

// As a graph.
#[derive(Drop)]
struct AsGraph;

impl Picture for AsGraph {
    ghost Shows = { IsGraphOf };

    fn draw(&self, alloc: Global, tree: &Tree, reset: &ResetEntry) -> Result<String, AllocError> {
        tree_graph(alloc, tree, reset.nodes.as_slice())
    }
}

// The bus reset whose tree is to be written.
#[derive(Drop)]
struct Mapping<P: Picture> {
    last: LastReset,
    picture: P,
}

impl<P: Picture> Reading for Mapping<P> {
    type Refusal = LogRefusal;

    ghost use Rattle.fw_log_reports.specs.Maps.{picture_rules, picture_unrefused};
    ghost use Rattle.fw_log_reports.specs.Texts.{silent_each};
    ghost use Rattle.fw_log_reports.specs.Trees.{KeepsLast};

    ghost form = { λ m. silent_form };

    ghost rules = { picture_rules P.Shows };

    ghost took = { λ m entries. KeepsLast entries m.last.there m.last.body.items };

    ghost gathered = { λ m. [] };

    fn open<K: Sink>(&self, _sink: &mut K) -> Result<(), Failed> {
        Ok(())
    }

    fn take(&mut self, entry: &Timed, bytes: &[u8]) -> Result<Option<LogRefusal>, AllocError> {
        self.last.take(entry, bytes)?;
        Ok(None)
    }

    fn take_raw(
        &mut self,
        reader: &mut LogReader,
        room: &mut ReadBuffers,
        piece: &[u8],
    ) -> Result<Option<usize>, AllocError> {
        self.last.take_raw(reader, room, piece)
    }

    fn gathered(&self) -> &[u8] {
        &[]
    }

    fn clear(&mut self) {}

    fn close(&self, alloc: Global) -> Result<Closing<LogRefusal>, AllocError> {
        let Some(reset) = self.last.reset() else {
            return Ok(Closing::Refused(LogRefusal::Map(NoMap::NoReset)));
        };
        match rebuild(&reset) {
            Ok(tree) => Ok(Closing::Text(self.picture.draw(alloc, &tree, &reset)?)),
            Err(fault) => Ok(Closing::Refused(LogRefusal::Map(NoMap::NoTree(fault)))),
        }
    }

    ghost each = { λ m. silent_each };

    ghost accepted = { λ m entries t. tt };

    ghost unrefused = { picture_unrefused P.Shows };
}

/// Reads a log, and writes at its end the tree of its last bus reset, and the speeds between its nodes (`fw_map::tree_text`). Nothing
/// is written before, nor if the log has no bus reset or no tree has the packets of the last one.
pub fn map<S: Source, K: Flush>(
    alloc: Global,
    source: &mut S,
    sink: &mut K,
) -> LogEnding<LogRefusal>
    ensures { ReadsLog silent_form map_rules (record { left = S.left; faults = S.faults; old = source.old; new = source.new })
        (record { held = K.held; faults = K.faults; old = sink.old; new = sink.new }) result }
{
    let last = LastReset::new(alloc);
    let picture = AsText;
    read_log(alloc, Mapping { last, picture }, source, sink)
}

/// Reads a log, and writes at its end the tree of its last bus reset as a graph (`fw_map::tree_graph`), if `map` writes its text.
pub fn map_graph<S: Source, K: Flush>(
    alloc: Global,
    source: &mut S,
    sink: &mut K,
) -> LogEnding<LogRefusal>
    ensures { ReadsLog silent_form graph_rules (record { left = S.left; faults = S.faults; old = source.old; new = source.new })
        (record { held = K.held; faults = K.faults; old = sink.old; new = sink.new }) result }
{
    let last = LastReset::new(alloc);
    let picture = AsGraph;
    read_log(alloc, Mapping { last, picture }, source, sink)
}
