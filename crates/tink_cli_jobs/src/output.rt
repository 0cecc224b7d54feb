//! Where what a command makes goes.

ghost use Rattle.std.specs.Prelude.{◌≡◌, IfErr, OnErr, OnOk};
ghost use Rattle.std.specs.Io.KnownBytes.{Appends};
ghost use Rattle.tink_io.specs.Faults.{Rose};
ghost use Rattle.tink_io.specs.Written.{AppendsPrefix};
ghost use Rattle.tink_cli_jobs.specs.Outputs.{how_by};
ghost use Rattle.tink_system.specs.Statuses.{trouble_status};

use crate::job::Job;
use tink_io::{Sink, write_all};
use tink_system::{How, Trouble};

/// The reason for a failed standard output: the system keeps none.
pub const WRITE_FAULT: &str = "it could not be written: a full disk, or a closed pipe";

/// How the output of a job becomes a file.
pub fn how_of(job: &Job<'_>) -> How
    ensures { result ≡ how_by job.now.keeps_output }
{
    if job.keeps_output {
        How::Fresh
    } else {
        How::Replace
    }
}

/// Writes to standard output. If it fails a part is written.
///
/// # Errors
/// 12 if it fails.
pub fn put<K: Sink>(sink: &mut K, text: &[u8]) -> Result<(), Trouble<'static>>
    ensures done { OnOk result (Appends (K.got sink.old) (K.got sink.new) text.now) }
    ensures part { OnErr result (AppendsPrefix (K.got sink.old) (K.got sink.new) text.now) }
    ensures cause { OnErr result (Rose (K.faults sink.old) (K.faults sink.new)) }
    ensures refused { IfErr result (λ t. trouble_status t ≡ 12) }
    ensures sink { K.same sink.old sink.new }
{
    match write_all(sink, text) {
        Ok(()) => Ok(()),
        Err(e) => Err(Trouble::Refused(b"standard output", e.kind)),
    }
}
