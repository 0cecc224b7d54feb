//! The command that writes the key and the sizes of a stream without decrypting all of it.

ghost use Rattle.std.specs.Io.KnownBytes.{Appends};
ghost use Rattle.std.specs.Prelude.{◌≡◌, ◌≤◌, ◌<◌, ℕ, List, Some, true, IfErr, IfOk, OnOk, option_map};
ghost use Rattle.tink_cli_ranges.specs.Informing.{IsInformed, IsTold, IsToldOf, IsUnwritten, LeavesInfo, LeavesLines, info_lines};
ghost use Rattle.tink_cli_ranges.specs.Refusing.{HasCauseOf, HasInfoCause, IsEndRefused, MayEnd};
ghost use Rattle.tink_io.specs.Faults.{Rose};
ghost use Rattle.tink_io.specs.Written.{AppendsPrefix};
ghost use Rattle.tink_system.specs.Statuses.{trouble_status};

use crate::ranges::trouble_of;
use std::alloc::{AllocError, Global};
use std::marker::Brand;
use std::sync::ledger::{Blank, Ledger};
use tink_cli_jobs::keys::keyset_of;
use tink_cli_jobs::protecting::spare_input;
use tink_cli_jobs::{Job, WRITE_FAULT, job_of, put};
use tink_cli_words::Line;
use tink_io::{Kind, Sink};
use tink_range::Steps;
use tink_rewrap::info::{StreamInfo, stream_info};
use tink_system::{System, Trouble};

/// `info`: writes four lines about the stream of a file. They are the id of the key that opens it, its segments, and
/// the bytes of its plaintext and of a whole segment. The first and the last segment are opened, and those between
/// them are not checked.
///
/// # Errors
/// Those of `stream_info` of `tink_rewrap` and of `keyset_of`, by their statuses. 11 if the file cannot be read, or
/// standard input is named for two things. 12 if standard output fails, and a part of the lines may be there. 10. 2 if
/// no file is named.
pub fn info<'w, Y: System, K: Sink>(
    alloc: Global,
    system: &mut Y,
    line: &Line<'w>,
    sink: &mut K,
) -> Result<(), Trouble<'w>>
    ensures done { OnOk result ((Y.state system.old).is_known ≡ true → IsInformed line.now (Y.state system.old) (K.got sink.old) (K.got sink.new)) }
    ensures left { IfErr result (λ t. (Y.state system.old).is_known ≡ true → LeavesInfo line.now (Y.state system.old)
        (K.got sink.old) (K.got sink.new) (trouble_status t)) }
    ensures cause { IfErr result (λ t. (Y.state system.old).is_known ≡ true → HasInfoCause line.now (Y.state system.old)
        (Y.faults system.old) (Y.faults system.new) (K.faults sink.old) (K.faults sink.new) (trouble_status t)) }
    ensures state { Y.state system.new ≡ Y.state system.old }
    ensures later { Y.faults system.old ≤ Y.faults system.new }
    ensures sink { K.same sink.old sink.new }
{
    let Some(job) = job_of(line) else {
        return Err(Trouble::Usage);
    };
    if let Err(trouble) = spare_input(&job) {
        return Err(trouble);
    }
    match keyset_of(alloc, system, job.keys) {
        Ok(keyset) => info_under(alloc, system, keyset.as_slice(), &job, sink),
        Err(trouble) => Err(trouble),
    }
}

// Under a keyset that is loaded.
fn info_under<'w, Y: System, K: Sink>(
    alloc: Global,
    system: &mut Y,
    keyset: &[u8],
    job: &Job<'w>,
    sink: &mut K,
) -> Result<(), Trouble<'w>>
    ensures done { OnOk result ((Y.state system.old).is_known ≡ true → IsToldOf keyset.now job.now.aad.now (Y.state system.old)
        (option_map (λ n. n.now) job.now.input) (Appends (K.got sink.old) (K.got sink.new))) }
    ensures left { IfErr result (λ t. (Y.state system.old).is_known ≡ true → LeavesLines (K.got sink.old) (K.got sink.new)
        (IsToldOf keyset.now job.now.aad.now (Y.state system.old) (option_map (λ n. n.now) job.now.input)
        (AppendsPrefix (K.got sink.old) (K.got sink.new))) (trouble_status t)) }
    ensures cause { IfErr result (λ t. (Y.state system.old).is_known ≡ true → HasCauseOf IsEndRefused
        (Rose (K.faults sink.old) (K.faults sink.new)) keyset.now job.now.aad.now (Y.state system.old)
        (option_map (λ n. n.now) job.now.input) (Y.faults system.old) (Y.faults system.new) (trouble_status t)) }
    ensures state { Y.state system.new ≡ Y.state system.old }
    ensures later { Y.faults system.old ≤ Y.faults system.new }
    ensures sink { K.same sink.old sink.new }
{
    let Some(input) = job.input else {
        return Err(Trouble::Unusable(
            b"standard input",
            "the size of a stream is known of a file: name one",
            2,
        ));
    };
    match system.open_at(input, 0, true) {
        Ok(mut object) => info_of(alloc, system, keyset, job, &mut object, sink),
        Err(trouble) => Err(trouble),
    }
}

// Of an object that is open.
fn info_of<'w, Y: System, K: Sink>(
    alloc: Global,
    system: &Y,
    keyset: &[u8],
    job: &Job<'w>,
    object: &mut Y::Object,
    sink: &mut K,
) -> Result<(), Trouble<'w>>
    ensures done { OnOk result ((X : List ℕ) → Y.Object.bytes object.old ≡ Some X
        → IsTold keyset.now job.now.aad.now X (Appends (K.got sink.old) (K.got sink.new))) }
    ensures left { IfErr result (λ t. (X : List ℕ) → Y.Object.bytes object.old ≡ Some X → LeavesLines (K.got sink.old) (K.got sink.new)
        (IsTold keyset.now job.now.aad.now X (AppendsPrefix (K.got sink.old) (K.got sink.new))) (trouble_status t)) }
    ensures cause { IfErr result (λ t. MayEnd IsEndRefused (Rose (K.faults sink.old) (K.faults sink.new)) keyset.now job.now.aad.now
        (Y.Object.bytes object.old) (trouble_status t)) }
    ensures sink { K.same sink.old sink.new }
{
    inform_by::<Brand, Y, K>(alloc, system, keyset, job, object, sink, Blank::new(1))
}

// The same by a ledger of steps.
fn inform_by<'w, L: Ledger, Y: System, K: Sink>(
    alloc: Global,
    system: &Y,
    keyset: &[u8],
    job: &Job<'w>,
    object: &mut Y::Object,
    sink: &mut K,
    blank: Blank,
) -> Result<(), Trouble<'w>>
    requires name { blank.name ≡ L.name }
    requires parts { blank.parts ≡ L.parts }
    requires some { 0 < blank.parts }
    ensures done { OnOk result ((X : List ℕ) → Y.Object.bytes object.old ≡ Some X
        → IsTold keyset.now job.now.aad.now X (Appends (K.got sink.old) (K.got sink.new))) }
    ensures left { IfErr result (λ t. (X : List ℕ) → Y.Object.bytes object.old ≡ Some X → LeavesLines (K.got sink.old) (K.got sink.new)
        (IsTold keyset.now job.now.aad.now X (AppendsPrefix (K.got sink.old) (K.got sink.new))) (trouble_status t)) }
    ensures cause { IfErr result (λ t. MayEnd IsEndRefused (Rose (K.faults sink.old) (K.faults sink.new)) keyset.now job.now.aad.now
        (Y.Object.bytes object.old) (trouble_status t)) }
    ensures sink { K.same sink.old sink.new }
{
    let mut steps = Steps::<L>::new(blank);
    match stream_info(alloc, keyset, job.aad, object, &mut steps) {
        Ok(info) => put_info(alloc, info, sink),
        Err(e) => Err(trouble_of(system, object, job, e.kind, WRITE_FAULT)),
    }
}

// Writes the lines.
fn put_info<K: Sink>(alloc: Global, info: StreamInfo, sink: &mut K) -> Result<(), Trouble<'static>>
    ensures done { OnOk result (Appends (K.got sink.old) (K.got sink.new) (info_lines info)) }
    ensures refused { IfErr result (λ t. IsUnwritten (info_lines info) (K.got sink.old) (K.got sink.new)
        (K.faults sink.old) (K.faults sink.new) (trouble_status t)) }
    ensures sink { K.same sink.old sink.new }
{
    match lines_of(alloc, info) {
        Ok(lines) => put(sink, lines.as_slice()),
        Err(_) => Err(Trouble::Refused(b"standard output", Kind::OutOfMemory)),
    }
}

// The lines.
fn lines_of(alloc: Global, info: StreamInfo) -> Result<Vec<u8>, AllocError>
    ensures { IfOk result (λ lines. lines.items ≡ info_lines info) }
{
    let StreamInfo {
        key_id,
        segments,
        plaintext_len,
        segment_len,
    } = info;
    let text = format!(in alloc;
        "key {key_id}\nsegments {segments}\nsegment {segment_len} bytes\nplaintext {plaintext_len} bytes\n"
    )?;
    Ok(text.into_bytes())
}
