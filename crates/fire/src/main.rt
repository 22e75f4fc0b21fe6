//! `fire`: runs a script on a simulated FireWire bus and writes its log, or reads a log.
#![tactic(auto)]

ghost use Rattle.std.specs.Prelude.{◌≡◌, ◌⊎◌, IfErr};

use fw_outside::{BufferedSink, StdSink, StdSource, Stop};
use fw_program::{Ending, program, tell};
use std::env;
use std::io::ErrorKind;
use std::process::ExitCode;

/// The words of the command line, after the program's name.
fn words(rt: &HostRuntime) -> Result<Vec<String>, Ending>
    ensures { IfErr result (λ e. (e ≡ Ending.Usage) ⊎ (e ≡ Ending.Stopped Stop.NoMemory)) }
{
    match env::args(rt) {
        Ok(mut words) => {
            let _ = words.next();
            words
                .collect(rt.alloc())
                .map_err(|_| Ending::Stopped(Stop::NoMemory))
        }
        Err(error) if error.kind() == ErrorKind::OutOfMemory => Err(Ending::Stopped(
            Stop::NoMemory,
        )),
        Err(_) => Err(Ending::Usage),
    }
}

fn main(rt: HostRuntime) -> ExitCode {
    let alloc = rt.alloc();
    let mut errors = StdSink::new(rt.stderr());
    let words = match words(&rt) {
        Ok(words) => words,
        Err(ending) => return ExitCode::from(tell(ending, &mut errors)),
    };
    // The source is asked for whole pieces, and needs no buffer before it.
    let mut source = StdSource::new(rt.reader());
    let mut sink = BufferedSink::new(rt.stdout());
    ExitCode::from(program(alloc, &words, &mut source, &mut sink, &mut errors))
}
