// Writing answers: texts to the output, and lines to standard error.

ghost use Rattle.std.specs.Prelude.{◌≡◌, ◌≤◌, ◌⊎◌, OnErr};
ghost use Rattle.std.specs.Io.KnownBytes.{Appends};
ghost use Rattle.br_base.specs.Ends.{Rose, AppendsSome};
ghost use Rattle.br_top.specs.Lines.{write_fault_line};
ghost use Rattle.br_top.specs.Reports.{Tells};

use crate::lines::write_fault_line;
use br_base::{Sink, Status, write_all};

/// Writes the line of a status that stays as it is where the line cannot be written.
pub(crate) fn tell<E: Sink>(err: &mut E, line: &[u8])
    ensures told { Tells (E.faults err.old) (E.faults err.new) (E.held err.old)
        (E.held err.new) line.now }
    ensures count { E.faults err.old ≤ E.faults err.new }
{
    let _ = write_all(err, line);
}

/// Writes the line of an answer that is a write fault where the line cannot be written.
pub(crate) fn answer_line<E: Sink>(err: &mut E, line: &[u8], status: Status) -> Status
    ensures answered { ((result ≡ status) × Appends (E.held err.old) (E.held err.new) line.now)
        ⊎ ((result ≡ Status.WriteFault) × Rose (E.faults err.old) (E.faults err.new)
        × AppendsSome (E.held err.old) (E.held err.new) line.now) }
    ensures count { E.faults err.old ≤ E.faults err.new }
{
    match write_all(err, line) {
        Ok(()) => status,
        Err(_) => Status::WriteFault,
    }
}

/// Writes a finished text.
pub(crate) fn answer_text<O: Sink, E: Sink>(out: &mut O, err: &mut E, text: &[u8]) -> Status
    ensures answered { ((result ≡ Status.Done) × Appends (O.held out.old) (O.held out.new) text.now
        × (O.faults out.new ≡ O.faults out.old) × (err.new ≡ err.old))
        ⊎ ((result ≡ Status.WriteFault) × Rose (O.faults out.old) (O.faults out.new)
        × AppendsSome (O.held out.old) (O.held out.new) text.now
        × Tells (E.faults err.old) (E.faults err.new) (E.held err.old) (E.held err.new)
        write_fault_line) }
    ensures out_count { O.faults out.old ≤ O.faults out.new }
    ensures err_count { E.faults err.old ≤ E.faults err.new }
{
    match write_all(out, text) {
        Ok(()) => Status::Done,
        Err(_) => {
            tell(err, write_fault_line());
            Status::WriteFault
        }
    }
}
