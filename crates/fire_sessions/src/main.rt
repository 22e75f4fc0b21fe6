//! Makes the program's calls over whole sessions as they are known from outside, and compares status, note and output with what the tables
//! in `data` tell (`data/README.md`). The rows of `wrong.txt` are wrong on purpose, and each must be found to differ, so that a comparison
//! that never finds a difference shows. With words on its command line it makes only the calls of the rows that have one of them.
#![tactic(auto)]

use fire_rows::{Portions, Program, hold};
use fw_outside::MemSink;
use fw_program::program;
use std::alloc::Global;
use std::process::ExitCode;
use std::{env, io};

/// The program of this repository.
struct Fire;

impl Program for Fire {
    fn call(
        &self,
        alloc: Global,
        words: &[String],
        source: &mut Portions<'_>,
        output: &mut MemSink,
        notes: &mut MemSink,
    ) -> u8 {
        program(alloc, words, source, output, notes)
    }
}

fn main(rt: HostRuntime) -> io::Result<ExitCode> {
    let mut words = env::args(&rt)?;
    let _ = words.next();
    let names = words.collect::<Vec<String>>(rt.alloc())?;
    Ok(if hold(&Fire, &rt, &names)? {
        ExitCode::SUCCESS
    } else {
        ExitCode::FAILURE
    })
}
