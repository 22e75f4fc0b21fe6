//! The devices that commands name.

ghost use Rattle.std.specs.Prelude.{◌≡◌, List, Option, ℕ};
ghost use Rattle.std.specs.List.{filter_map, list_any};
ghost use Rattle.std.specs.Str.{bytes_eq};
ghost use Rattle.fw_model_run.specs.Named.{names_of};
ghost use Rattle.fw_explore_endings.specs.Texts.{is_name, names_device};

use fw_explore_movers::Mover;
use fw_script_command::{Command, Name};

/// The names of devices that a command has, from left to right; three at most.
pub fn names_of(command: &Command) -> [Option<Name>; 3]
    ensures { filter_map (λ (o : Option (List ℕ)). o) result ≡ names_of command.now }
{
    match command {
        Command::Cable((a, _), (b, _)) => [Some(*a), Some(*b), None],
        Command::Connect(first, (output, _), (input, _), ..) => {
            [Some(*first), Some(*output), Some(*input)]
        }
        Command::Broadcast(first, (plug, _), _) | Command::Listen(first, (plug, _)) => {
            [Some(*first), Some(*plug), None]
        }
        Command::Command(first, other, _)
        | Command::Read(first, other, _)
        | Command::Swap(first, other, ..) => [Some(*first), Some(*other), None],
        Command::Reset(first)
        | Command::Break(first, _)
        | Command::Step(first, _)
        | Command::Die(first, _)
        | Command::Lose(first)
        | Command::Start(first)
        | Command::Insert(first, ..)
        | Command::Eject(first)
        | Command::Show(Some(first), _)
        | Command::Candidate(first)
        | Command::Contend(first, _)
        | Command::Dub(first) => [Some(*first), None, None],
        Command::Withhold
        | Command::Device(..)
        | Command::Settle(_)
        | Command::Wait(_)
        | Command::Cycles(_)
        | Command::Show(None, _)
        | Command::End => [None, None, None],
    }
}

fn is_name(name: &Name, other: &Option<Name>) -> bool
    ensures { result ≡ is_name name.now other.now }
{
    match other {
        Some(other) => name == other,
        None => false,
    }
}

// Whether the name is among these.
fn is_among(names: &[Option<Name>], name: &Name) -> bool
    ensures { result ≡ list_any (bytes_eq name.now) (filter_map (λ (o : Option (List ℕ)). o) names.now) }
{
    names.iter().any(|other| is_name(name, other))
}

/// Whether a mover names the device.
pub(crate) fn names_device(movers: &[Mover], name: &Name) -> bool
    ensures { result ≡ names_device movers.now name.now }
{
    for mover in movers {
        if is_among(&names_of(&mover.command), name) {
            return true;
        }
    }
    false
}
