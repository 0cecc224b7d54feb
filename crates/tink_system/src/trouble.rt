//! Why a command ended without success, and the line that says it.

ghost use Rattle.std.specs.Prelude.{◌≡◌};
ghost use Rattle.tink_io.specs.Gathering.{OnlyGrows};
ghost use Rattle.tink_system.specs.Statuses.{refusal_status, trouble_status};

use crate::lines::{put, put_escaped, put_kind};
use tink_io::refusals::advice;
use tink_io::{Kind, Sink};

/// Why a command ended without success.
#[derive(Clone, Copy)]
pub enum Trouble<'w> {
    /// The words are no command.
    Usage,
    /// A call refused, because of a file.
    Refused(&'w [u8], Kind),
    /// No key of the second file opens the stream of the first.
    NoMatch(&'w [u8], &'w [u8]),
    /// A file is not one that can be used so, and why; the status.
    Unusable(&'w [u8], &'static str, u8),
}

/// The status of an error: that of the program over streams, and 30 to 35 for those that it has not.
pub fn status(kind: Kind) -> u8
    ensures { result ≡ refusal_status kind }
{
    match kind {
        Kind::BadJson => 30,
        Kind::KeyNotFound => 31,
        Kind::IsPrimary => 32,
        Kind::WrongStatus(_) | Kind::NotEnabled => 33,
        Kind::MasterFailed => 34,
        Kind::RandomFault => 35,
        Kind::KeysetTooLong => 13,
        _ => tink_io::refusals::status(kind),
    }
}

/// The status of what a command ended by.
pub fn trouble_status(trouble: Trouble<'_>) -> u8
    ensures { result ≡ trouble_status trouble.entry }
{
    match trouble {
        Trouble::Usage => 2,
        Trouble::Refused(_, kind) => status(kind),
        Trouble::NoMatch(_, _) => 21,
        Trouble::Unusable(_, _, status) => status,
    }
}

/// Writes the line of what a command ended by, and answers the status. A name is written by `put_escaped`. If the sink fails
/// the line ends there.
pub fn tell<E: Sink>(faults: &mut E, trouble: Trouble<'_>) -> u8
    ensures status { result ≡ trouble_status trouble.entry }
    ensures grows { OnlyGrows (E.got faults.old) (E.got faults.new) }
    ensures same { E.same faults.old faults.new }
{
    put_trouble(faults, trouble);
    trouble_status(trouble)
}

fn put_trouble<E: Sink>(faults: &mut E, trouble: Trouble<'_>)
    ensures grows { OnlyGrows (E.got faults.old) (E.got faults.new) }
    ensures same { E.same faults.old faults.new }
{
    match trouble {
        Trouble::Usage => put(
            faults,
            b"tink: these words are no command: `tink help` shows them all\n",
        ),
        Trouble::Refused(file, kind) => put_refused(faults, file, kind),
        Trouble::NoMatch(file, keys) => put_no_match(faults, file, keys),
        Trouble::Unusable(file, why, _) => put_unusable(faults, file, why),
    }
}

// The name, the error and what helps.
fn put_refused<E: Sink>(faults: &mut E, file: &[u8], kind: Kind)
    ensures grows { OnlyGrows (E.got faults.old) (E.got faults.new) }
    ensures same { E.same faults.old faults.new }
{
    put_head(faults, file);
    put_kind(faults, kind);
    put_end(faults, help_for(kind));
}

// What helps against an error of a file.
fn help_for(kind: Kind) -> &'static str {
    match kind {
        Kind::InvalidKeyset =>
            "it is empty, or its keyset breaks a rule: of a file the same command says which",
        Kind::BadJson =>
            "it is no keyset in JSON: a bracket, a name or a number is not right: take an intact copy",
        Kind::KeysetTooLong =>
            "a file of keys has at most 16,777,216 bytes and 65,536 keys: take another",
        _ => advice(kind),
    }
}

// The name of a stream and that of the keys.
fn put_no_match<E: Sink>(faults: &mut E, file: &[u8], keys: &[u8])
    ensures grows { OnlyGrows (E.got faults.old) (E.got faults.new) }
    ensures same { E.same faults.old faults.new }
{
    put_head(faults, file);
    put(faults, b"no key of ");
    put_escaped(faults, keys);
    put(
        faults,
        b" opens this stream: give the keys and the --aad that encrypted it; if they are right, it is damaged or was never encrypted\n",
    );
}

// The name of a file that cannot be used so, and why.
fn put_unusable<E: Sink>(faults: &mut E, file: &[u8], why: &str)
    ensures grows { OnlyGrows (E.got faults.old) (E.got faults.new) }
    ensures same { E.same faults.old faults.new }
{
    put_head(faults, file);
    put(faults, why.as_bytes());
    put(faults, b"\n");
}

// The program's name and that of a file.
fn put_head<E: Sink>(faults: &mut E, file: &[u8])
    ensures grows { OnlyGrows (E.got faults.old) (E.got faults.new) }
    ensures same { E.same faults.old faults.new }
{
    put(faults, b"tink: ");
    put_escaped(faults, file);
    put(faults, b": ");
}

// What helps, and the end of the line.
fn put_end<E: Sink>(faults: &mut E, helps: &str)
    ensures grows { OnlyGrows (E.got faults.old) (E.got faults.new) }
    ensures same { E.same faults.old faults.new }
{
    put(faults, b": ");
    put(faults, helps.as_bytes());
    put(faults, b"\n");
}
