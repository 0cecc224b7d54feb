//! How the program ends: its outcomes, their statuses and their lines.

ghost use Rattle.std.specs.Prelude.{◌≡◌, ◌≤◌};
ghost use Rattle.tink_io.specs.Written.{WritesOrFaults};
ghost use Rattle.tink_program_core.specs.Program.{TellsNothing, answer_outcome, line_of, status_of};

use tink_io::{Kind, Sink, TinkError, write_all, write_line};

const USAGE: &[u8] =
    b"usage: seal KEYSET AAD SEED | open KEYSET AAD | keygen TEMPLATE SEED | rotate KEYSET TEMPLATE SEED | large N | range KEYSET AAD START LEN | rewrap KEYSET AAD KEYSET AAD SEED | sign KEYSET | verify KEYSET\n";

/// How the program ended.
#[derive(Clone, Copy, Debug, PartialEq, Eq)]
pub enum Outcome {
    /// The command did what it was to do.
    Done,
    /// The words spell no command.
    Usage,
    /// The command was refused.
    Refused(Kind),
}

/// The status of an outcome.
pub fn status(outcome: Outcome) -> u8
    ensures { result ≡ status_of outcome }
{
    match outcome {
        Outcome::Done => 0,
        Outcome::Usage => 2,
        Outcome::Refused(kind) => tink_io::refusals::status(kind),
    }
}

/// Writes the line of an outcome. It takes no memory.
pub fn tell<E: Sink>(faults: &mut E, outcome: Outcome)
    ensures line { WritesOrFaults (E.got faults.old) (E.got faults.new) (E.faults faults.old) (E.faults faults.new)
        (line_of outcome) }
    ensures still { TellsNothing outcome faults.old faults.new }
    ensures later { E.faults faults.old ≤ E.faults faults.new }
    ensures same { E.same faults.old faults.new }
{
    match outcome {
        Outcome::Done => {}
        Outcome::Usage => {
            let _ = write_all(faults, USAGE);
        }
        Outcome::Refused(kind) => write_line(faults, kind),
    }
}

/// The outcome of an answer.
///
/// # Errors
/// The kind of the answer's error.
pub fn outcome_of<T: Copy>(answer: Result<T, TinkError>) -> Outcome
    ensures { result ≡ answer_outcome answer }
{
    match answer {
        Ok(_) => Outcome::Done,
        Err(e) => Outcome::Refused(e.kind),
    }
}
