//! Writing a text to a sink.
ghost use Rattle.std.specs.Prelude.{◌≡◌, ◌≢◌, ◌<◌, ◌≤◌, IfOk, IsErrOf, OnErr, OnOk, [], length};
ghost use Rattle.std.specs.Prelude.{take};
ghost use Rattle.std.specs.Io.KnownBytes.{Appends};
ghost use Rattle.base_io.specs.Outside.{AppendsPart, Rose};
ghost use Rattle.app_inputs.specs.Printing.{IsAnswer};

use crate::Status;
use base_io::{Put, Sink};

/// Why a text was not taken whole.
#[derive(Clone, Copy, Debug, PartialEq, Eq)]
enum WriteError {
    /// Writing failed.
    Fault,
    /// Memory ran out.
    OutOfMemory,
}

/// One call of the sink, at which no byte taken is a fault.
fn put_some<S: Sink>(out: &mut S, piece: &[u8]) -> Result<usize, WriteError>
    requires { 0 < length piece.now }
    ensures took { IfOk result (λ n. (0 < n) × (n ≤ length piece.now)
        × Appends (S.taken out.old) (S.taken out.new) (take n piece.now)) }
    ensures kept { OnErr result (Appends (S.taken out.old) (S.taken out.new) []) }
    ensures fault { IsErrOf result WriteError.Fault → Rose (S.faults out.old) (S.faults out.new) }
    ensures later { S.faults out.old ≤ S.faults out.new }
{
    match out.put(piece) {
        Put::Took(n) => {
            if n == 0 {
                return Err(WriteError::Fault);
            }
            Ok(n)
        }
        Put::Failed => Err(WriteError::Fault),
        Put::OutOfMemory => Err(WriteError::OutOfMemory),
    }
}

/// Writes all of the text.
fn write_all<S: Sink>(out: &mut S, text: &[u8]) -> Result<(), WriteError>
    ensures whole { OnOk result (Appends (S.taken out.old) (S.taken out.new) text.now) }
    ensures part { AppendsPart (S.taken out.old) (S.taken out.new) text.now }
    ensures fault { IsErrOf result WriteError.Fault → Rose (S.faults out.old) (S.faults out.new) }
    ensures later { S.faults out.old ≤ S.faults out.new }
{
    let mut at = 0;
    while at < text.len() {
        at += put_some(out, &text[at..])?;
    }
    Ok(())
}

/// Writes the text, and answers its status or why it wasn't taken whole.
pub fn write_text<S: Sink>(out: &mut S, text: &[u8], status: Status) -> Status
    requires { IsAnswer status }
    ensures whole { IsAnswer result → (result ≡ status)
        × Appends (S.taken out.old) (S.taken out.new) text.now }
    ensures part { AppendsPart (S.taken out.old) (S.taken out.new) text.now }
    ensures fault { result ≡ Status.WriteFault → Rose (S.faults out.old) (S.faults out.new) }
    ensures other { result ≢ Status.ReadFault }
    ensures no_disk { result ≢ Status.DiskFault }
    ensures later { S.faults out.old ≤ S.faults out.new }
{
    match write_all(out, text) {
        Ok(()) => status,
        Err(WriteError::Fault) => Status::WriteFault,
        Err(WriteError::OutOfMemory) => Status::OutOfMemory,
    }
}
