//! What the program says of itself.

ghost use Rattle.std.specs.Prelude.{◌≡◌, ℕ};
ghost use Rattle.fw_tool.specs.About.{about_text, IsSaid};
ghost use Rattle.fw_tool.specs.Faults.{FirstFault};

use crate::ending::Ending;
use fw_outside::{Failed, Sink, Stop};

/// What a word has the program say of itself.
#[derive(Clone, Copy)]
pub enum About {
    /// `help`, `--help` or `-h`: the words, what each reads and writes, and the statuses.
    Help,
    /// `version`, `--version` or `-V`: the program's name and version.
    Version,
}

const VERSION: &[u8] = b"fire 1.0\n";

// The same text stands in `fire_sessions/data/help.txt`, which the launcher shows if nothing is built; the gate compares the two.
const HELP: &[u8] = b"\
fire simulates a FireWire (IEEE 1394) audio and video bus, and reads the logs of such buses.

  fire WORD < INPUT > OUTPUT

A script goes in:
  run            writes the log of what happens on the bus
  dub            writes the blocks that the deck named by its line `dub` recorded
  trace          writes the script with what each line caused, by name
  check          says why a line is refused, or counts what the script has
  explore WORDS  tells how every interleaving of half steps and lines after it ends

A log of version 1 or 2 goes in (docs/CAPTURES.md says how to make one of a capture):
  explain        writes a line an entry, in words
  decode         writes a line an entry, with the raw quadlets
  json           writes a JSON object an entry, each on its line, with every field
  page           writes the log as a page of HTML, to look at
  dv             counts packets, blocks and gaps of each channel
  audit          says whether channels, units and connections went by the rules of docs/AUDIT.md
  holders        says who holds what, each time that changes
  watch          says what channels and plugs did, what changed unseen, and what was odd
  map            writes the tree of the last bus reset, and the speeds
  map dot        writes that tree for Graphviz
  convert 1      writes the log in version 1
  convert 2      writes the log in version 2

Nothing goes in:
  gen NUMBER     runs the script of a number, 0 to 4294967295, and counts what happened
  help           writes this, as --help and -h do
  version        writes the version, as --version and -V do

The status is 0 if all is done. Else a note on standard error says why:
  2  usage: wrong words                 7  the input is too long
  3  a line of the script is refused    8  no memory is left
  4  the input is no log                9  audit, holders: an entry breaks the account
  5  the input cannot be read          10  map: no tree
  6  the output cannot be written      11  explore: a word is refused, or too much to explore

Read README.md first; docs/SCRIPT.md has the scripts, docs/LOG.md the logs and their lines,
docs/BUS.md the bus, docs/DECKS.md the decks and tapes; examples/ has scripts to run.
";

fn about_text(about: About) -> &'static [u8]
    ensures { result.now ≡ about_text about }
{
    match about {
        About::Help => HELP,
        About::Version => VERSION,
    }
}

/// Writes what the program says of itself.
pub(crate) fn say<K: Sink>(about: About, sink: &mut K) -> Ending
    ensures said { IsSaid (K.held sink.old) (K.held sink.new) (about_text about) result }
    ensures first { (reads : ℕ) → FirstFault reads reads (K.faults sink.old) (K.faults sink.new) result }
{
    match sink.write(about_text(about)) {
        Ok(()) => Ending::Done,
        Err(Failed) => Ending::Stopped(Stop::WriteFault),
    }
}
