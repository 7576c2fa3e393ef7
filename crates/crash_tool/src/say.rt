//! Saying an answer on out and on err.

ghost use Rattle.std.specs.Prelude.{◌≡◌, ◌≤◌, OnOk, OnErr};
ghost use Rattle.fault_io.specs.Faults.{Rose, after_taking, TookPrefix};
ghost use Rattle.crash_tool.specs.Call.{change, Says, TakesLine};

use crate::answer::{Answer, line_of, status_of};
use fault_io::{Failed, Sink};

/// The most bytes that are put at once: a piece has to be shorter than 2^32 bytes.
const PIECE: usize = 1 << 20;

/// Puts all the bytes, or a first part of them where a write fails.
fn put_all<S: Sink>(sink: &mut S, bytes: &[u8]) -> Result<(), Failed>
    ensures ok { OnOk result (S.holds sink.new ≡ after_taking (S.holds sink.old) bytes.now) }
    ensures err { TookPrefix (S.holds sink.old) (S.holds sink.new) bytes.now }
    ensures cause { OnErr result (Rose (S.faults sink.old) (S.faults sink.new)) }
    ensures counts { S.faults sink.old ≤ S.faults sink.new }
{
    let mut done = 0usize;
    while done < bytes.len() {
        let (_, rest) = bytes.split_at(done);
        let (piece, _) = rest.split_at(rest.len().min(PIECE));
        let count = sink.put(piece)?;
        done += count as usize;
    }
    Ok(())
}

/// Puts a line, as far as it goes.
fn put_line<E: Sink>(err: &mut E, line: &[u8])
    ensures line { TakesLine (change E.holds E.faults err.old err.new) line.now }
    ensures counts { E.faults err.old ≤ E.faults err.new }
{
    let _ = put_all(err, line);
}

/// Says an answer, and answers the status: a text goes to out, a refusal's line to err.
pub fn say<O: Sink, E: Sink>(out: &mut O, err: &mut E, answer: &Answer) -> u8
    ensures said { Says answer.now (change O.holds O.faults out.old out.new) (change E.holds E.faults err.old err.new) result }
    ensures counts { (O.faults out.old ≤ O.faults out.new) × (E.faults err.old ≤ E.faults err.new) }
{
    match answer {
        Ok(bytes) => match put_all(out, bytes.as_slice()) {
            Ok(()) => 0,
            Err(Failed) => {
                put_line(err, b"cannot write\n");
                4
            }
        },
        Err(refusal) => {
            put_line(err, line_of(*refusal).as_str().as_bytes());
            status_of(*refusal)
        }
    }
}
