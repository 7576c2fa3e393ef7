//! A crash reporter for RV32IM programs: it writes a report in which the input is replaced by the
//! first input, in an order that a seed fixes, with the same length and the same trace. Who gets a
//! report replays and checks it.
//!
//! [`crash_tool::tool::run_tool`] is all that the program does; `main` hands it the words after the
//! program's name, the files of the system, and the standard streams.
#![tactic(auto)]

ghost use Rattle.std.specs.Prelude.{◌≡◌, ◌↔◌, ◌⊎◌};

use crash_tool::answer::Refusal;
use crash_tool::say::say;
use crash_tool::tool::run_tool;
use fault_io::{HostFolder, HostSink};
use std::env;
use std::io::ErrorKind;
use std::process::ExitCode;

/// Why the words can't be had: those that are not UTF-8 are no command.
fn refusal_of(kind: ErrorKind) -> Refusal
    ensures usage { result ≡ Refusal.Usage ↔ (kind ≡ ErrorKind.InvalidData) }
    ensures either { (result ≡ Refusal.Usage) ⊎ (result ≡ Refusal.NoMemory) }
{
    match kind {
        ErrorKind::InvalidData => Refusal::Usage,
        _ => Refusal::NoMemory,
    }
}

fn main(rt: HostRuntime) -> ExitCode {
    let alloc = rt.alloc();
    let mut out = HostSink::new(rt.stdout());
    let mut err = HostSink::new(rt.stderr());
    let mut words = Vec::new(alloc);
    let mut refusal = None;
    match env::args(&rt) {
        Ok(args) => {
            for word in args.skip(1) {
                if words.push(word).is_err() {
                    refusal = Some(Refusal::NoMemory);
                    break;
                }
            }
        }
        Err(error) => refusal = Some(refusal_of(error.kind())),
    }
    let files: Result<_, _> = rt.clone();
    let status = match (refusal, files) {
        (None, Ok(files)) => {
            let mut folder = HostFolder::new(files);
            run_tool(alloc, words.as_slice(), &mut folder, &mut out, &mut err)
        }
        (Some(refusal), _) => say(&mut out, &mut err, &Err(refusal)),
        (None, Err(_)) => say(&mut out, &mut err, &Err(Refusal::NoMemory)),
    };
    ExitCode::from(status)
}
