//! The program `ix`: asks a collection of named documents, or an index of one.
#![tactic(auto)]

mod meter;

use ix_ask::EngineRefusal;
use ix_build::Watch;
use ix_command::{Refusal, command_over, refuse};
use ix_files::{Files, SystemFiles};
use meter::Meter;
use std::alloc::AllocError;
use std::env;
use std::io::{ErrorKind, IsTerminal, Write};
use std::process::ExitCode;
use std::sync::Wait;
use std::thread::Threads;

/// The status of a refusal.
const REFUSED: u8 = 2;

fn main(rt: HostRuntime) -> ExitCode {
    let refusal = match env::args(&rt) {
        Ok(args) => {
            let meter = Meter::new(&rt, rt.stderr().is_terminal());
            let mut files = SystemFiles { rt: &rt };
            match run(
                &rt,
                &mut files,
                &meter,
                args,
                &mut rt.stdout(),
                &mut rt.stderr(),
            ) {
                Ok(status) => {
                    // The line of a refusal stands over that of the meter.
                    if status != REFUSED {
                        meter.clear();
                    }
                    return ExitCode::from(status);
                }
                Err(AllocError) => Refusal::Engine(EngineRefusal::Memory),
            }
        }
        Err(error) if error.kind() == ErrorKind::OutOfMemory => Refusal::Engine(
            EngineRefusal::Memory,
        ),
        Err(_) => Refusal::Arguments,
    };
    ExitCode::from(refuse(rt.alloc(), &mut rt.stderr(), &refusal))
}

/// Does what the words after the program's name ask for.
fn run<R: AllocGlobal + Threads + Wait + Sync, F: Files, V: Watch, W: Write, E: Write>(
    rt: &R,
    files: &mut F,
    watch: &V,
    args: env::Args,
    out: &mut W,
    err: &mut E,
) -> Result<u8, AllocError> {
    let mut texts = Vec::new(rt.alloc());
    for text in args.skip(1) {
        texts.push(text)?;
    }
    let mut words = Vec::new(rt.alloc());
    for text in &texts {
        words.push(text.as_str())?;
    }
    Ok(command_over(rt, rt.alloc(), files, watch, &words, out, err))
}
