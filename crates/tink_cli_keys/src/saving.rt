//! What a call made is saved: as a new file, on standard output, or in the place of a file.

ghost use Rattle.std.specs.Prelude.{◌≡◌, ◌⊎◌, ◌≤◌, ◌^◌, ℕ, List, Some, None, true, false, Result, IfErr, IfSome, IsErrAnd, OnErr, OnOk, length, nat_lt};
ghost use Rattle.tink_io.specs.Faults.{Rose};
ghost use Rattle.tink_io.specs.Answering.{Answers};
ghost use Rattle.tink_io.specs.declared.error.Kind.{Kind};
ghost use Rattle.tink_cli_jobs.specs.Loading.{named};
ghost use Rattle.tink_cli_jobs.specs.Outputs.{KeepsFiles, KeepsOtherFiles};
ghost use Rattle.tink_cli_keys.specs.Refusing.{IsCaused, IsHindered, LeavesOut};
ghost use Rattle.tink_cli_keys.specs.Saving.{IsAppended, IsPutNew, IsSavedNew, readable, short};
ghost use Rattle.tink_system.specs.States.{IsSettled, KeepsSystem};
ghost use Rattle.tink_system.specs.Statuses.{refusal_status, trouble_status};

use std::alloc::Global;
use tink_cli_files::save_answer;
use tink_cli_jobs::keys::LIMIT;
use tink_cli_jobs::{name_of_file, put};
use tink_io::{Kind, Place, Sink, TinkError};
use tink_proto::Bytes;
use tink_system::{End, How, System, Trouble};

/// Saves the file of keys that a call made as a new file, or writes it to standard output if the name is a dash.
///
/// # Errors
/// That of the call, of the file `blamed`. 13 if no file of keys may be so long. 12 if a file has the name, or it cannot be
/// written, or standard output is a terminal. 10.
pub fn save_new<'w, Y: System, K: Sink>(
    alloc: Global,
    system: &mut Y,
    made: Result<Bytes, TinkError>,
    blamed: &'w [u8],
    output: &'w [u8],
    sink: &mut K,
) -> Result<(), Trouble<'w>>
    ensures done { (given : Result (List ℕ) Kind) → Answers made given → OnOk result ((Y.state system.old).is_known ≡ true
        → IsSavedNew given (Y.state system.old) (Y.state system.new) output.now (K.got sink.old) (K.got sink.new)) }
    ensures refused { (given : Result (List ℕ) Kind) → Answers made given → IfErr result (λ t. (Y.state system.old).is_known ≡ true
        → IsCaused (Y.faults system.old) (Y.faults system.new)
        (IsHindered (Y.state system.old) (named (Some output.now)) (K.faults sink.old) (K.faults sink.new)) (readable given) (trouble_status t)) }
    ensures left { (given : Result (List ℕ) Kind) → Answers made given → OnErr result (LeavesOut (readable given) (named (Some output.now))
        (K.got sink.old) (K.got sink.new)) }
    ensures kept { OnErr result ((Y.state system.old).is_known ≡ true → KeepsFiles (Y.state system.old) (Y.state system.new)) }
    ensures system { KeepsSystem (Y.state system.old) (Y.state system.new) }
    ensures random { (Y.state system.new).random ≡ (Y.state system.old).random }
    ensures later { Y.faults system.old ≤ Y.faults system.new }
    ensures sink { K.same sink.old sink.new }
{
    let blamed = blamed_for(&made, blamed, output);
    let made = readable(made);
    save_readable(alloc, system, made, blamed, output, sink)
}

// The same of a file of keys that may be so long.
fn save_readable<'w, Y: System, K: Sink>(
    alloc: Global,
    system: &mut Y,
    made: Result<Bytes, TinkError>,
    blamed: &'w [u8],
    output: &'w [u8],
    sink: &mut K,
) -> Result<(), Trouble<'w>>
    ensures done { (given : Result (List ℕ) Kind) → Answers made given → OnOk result ((Y.state system.old).is_known ≡ true
        → IsPutNew given (Y.state system.old) (Y.state system.new) output.now (K.got sink.old) (K.got sink.new)) }
    ensures refused { (given : Result (List ℕ) Kind) → Answers made given → IfErr result (λ t. (Y.state system.old).is_known ≡ true
        → IsCaused (Y.faults system.old) (Y.faults system.new)
        (IsHindered (Y.state system.old) (named (Some output.now)) (K.faults sink.old) (K.faults sink.new)) given (trouble_status t)) }
    ensures left { (given : Result (List ℕ) Kind) → Answers made given → OnErr result (LeavesOut given (named (Some output.now))
        (K.got sink.old) (K.got sink.new)) }
    ensures kept { OnErr result ((Y.state system.old).is_known ≡ true → KeepsFiles (Y.state system.old) (Y.state system.new)) }
    ensures system { KeepsSystem (Y.state system.old) (Y.state system.new) }
    ensures random { (Y.state system.new).random ≡ (Y.state system.old).random }
    ensures later { Y.faults system.old ≤ Y.faults system.new }
    ensures sink { K.same sink.old sink.new }
{
    let Some(name) = name_of_file(Some(output)) else {
        return put_made(system, made, blamed, sink);
    };
    match system.begin(name, How::Fresh) {
        Ok(draft) => save_in(alloc, system, made, blamed, name, draft),
        Err(trouble) => Err(trouble),
    }
}

/// The file of keys that a call made, if no file of keys that is read has more bytes.
///
/// # Errors
/// That of the call; `KeysetTooLong` if it made more than 16,777,216 bytes.
pub fn readable(made: Result<Bytes, TinkError>) -> Result<Bytes, TinkError>
    ensures { (given : Result (List ℕ) Kind) → Answers made given → Answers result (readable given) }
{
    match made {
        Ok(bytes) => short(bytes),
        Err(e) => Err(e),
    }
}

// Bytes that a file of keys may have.
fn short(bytes: Bytes) -> Result<Bytes, TinkError>
    ensures { Answers result (short bytes) }
{
    if is_long(&bytes) {
        return Err(TinkError::new(Kind::KeysetTooLong));
    }
    Ok(bytes)
}

// Whether these are more bytes than a file of keys may have.
fn is_long(bytes: &Bytes) -> bool
    ensures { result ≡ nat_lt (2 ^ 24) (length bytes.now) }
{
    bytes.as_slice().len() as u64 > LIMIT
}

// The file that an error is of: the output if what was made for it is too long.
fn blamed_for<'w>(made: &Result<Bytes, TinkError>, blamed: &'w [u8], output: &'w [u8]) -> &'w [u8] {
    match made {
        Ok(bytes) if is_long(bytes) => output,
        _ => blamed,
    }
}

/// Saves what a call made in a draft. If the call made nothing the draft is taken away.
///
/// # Errors
/// That of the call, of the file `blamed`; 12 if the draft cannot be written or shown; 10.
pub fn save_in<'w, Y: System>(
    alloc: Global,
    system: &mut Y,
    made: Result<Bytes, TinkError>,
    blamed: &'w [u8],
    name: &'w [u8],
    mut draft: Y::Draft,
) -> Result<(), Trouble<'w>>
    requires { Y.Draft.has_draft draft ≡ true }
    ensures done { (given : Result (List ℕ) Kind) → Answers made given → OnOk result ((before : List ℕ)
        → Y.Draft.got draft ≡ Some before → IsAppended given before ((Y.state system.new).file name.now)) }
    ensures fresh { (given : Result (List ℕ) Kind) → Answers made given → OnOk result (Y.Draft.replaces draft ≡ false
        → IfSome (Y.Draft.shown draft) (λ file. file ≡ None)) }
    ensures refused { (given : Result (List ℕ) Kind) → Answers made given → IfErr result (λ t. (Y.state system.old).is_known ≡ true
        → Y.Draft.faults draft ≡ 0 → IsCaused (Y.faults system.old) (Y.faults system.new) ⊥ given (trouble_status t)) }
    ensures others { KeepsOtherFiles (Y.state system.old) (Y.state system.new) name.now }
    ensures kept { OnErr result (Y.Draft.shown draft ≡ Some ((Y.state system.old).file name.now)
        → KeepsFiles (Y.state system.old) (Y.state system.new)) }
    ensures system { KeepsSystem (Y.state system.old) (Y.state system.new) }
    ensures random { (Y.state system.new).random ≡ (Y.state system.old).random }
    ensures later { Y.faults system.old ≤ Y.faults system.new }
{
    let answer = save_answer(&mut draft, made);
    let reason = system.reason_of_draft(&draft);
    match end_draft(alloc, system, name, draft) {
        Ok(()) => end_save(answer, blamed, name, reason),
        Err(trouble) => Err(trouble),
    }
}

/// Discards a draft, and answers with the error that was given, or with that of ending the draft. Nothing is saved.
pub fn give_up<'w, Y: System>(
    alloc: Global,
    system: &mut Y,
    name: &'w [u8],
    mut draft: Y::Draft,
    trouble: Trouble<'w>,
) -> Trouble<'w>
    ensures status { (trouble_status result ≡ 10) ⊎ (trouble_status result ≡ trouble_status trouble.entry) }
    ensures kept { Y.Draft.shown draft ≡ Some ((Y.state system.old).file name.now)
        → KeepsFiles (Y.state system.old) (Y.state system.new) }
    ensures system { KeepsSystem (Y.state system.old) (Y.state system.new) }
    ensures random { (Y.state system.new).random ≡ (Y.state system.old).random }
    ensures later { Y.faults system.old ≤ Y.faults system.new }
{
    draft.discard();
    match system.settle(alloc, name, draft) {
        Ok(()) => trouble,
        Err(want) => want,
    }
}

// Ends a draft that was shown or taken away.
fn end_draft<Y: System>(
    alloc: Global,
    system: &mut Y,
    name: &[u8],
    draft: Y::Draft,
) -> Result<(), Trouble<'static>>
    requires { Y.Draft.has_draft draft ≡ false }
    ensures settled { OnOk result (IsSettled (Y.state system.old) (Y.state system.new) name.now (Y.Draft.shown draft)) }
    ensures want { IfErr result (λ t. trouble_status t ≡ 10) }
    ensures refused { OnErr result (Y.state system.new ≡ Y.state system.old) }
    ensures counted { (Y.state system.old).is_known ≡ true → (Y.Draft.faults draft ≡ 0 → ⊥) → Rose (Y.faults system.old) (Y.faults system.new) }
    ensures kept { Y.Draft.shown draft ≡ Some ((Y.state system.old).file name.now)
        → KeepsFiles (Y.state system.old) (Y.state system.new) }
    ensures later { Y.faults system.old ≤ Y.faults system.new }
{
    match system.settle(alloc, name, draft) {
        Ok(()) => Ok(()),
        Err(trouble) => Err(trouble),
    }
}

// Writes what a call made to standard output.
fn put_made<'w, Y: System, K: Sink>(
    system: &mut Y,
    made: Result<Bytes, TinkError>,
    blamed: &'w [u8],
    sink: &mut K,
) -> Result<(), Trouble<'w>>
    ensures done { (given : Result (List ℕ) Kind) → Answers made given → OnOk result ((before : List ℕ)
        → K.got sink.old ≡ Some before → IsAppended given before (K.got sink.new)) }
    ensures refused { (given : Result (List ℕ) Kind) → Answers made given → IfErr result (λ t. (Y.state system.old).is_known ≡ true
        → IsCaused (Y.faults system.old) (Y.faults system.new) (Rose (K.faults sink.old) (K.faults sink.new)) given (trouble_status t)) }
    ensures left { (given : Result (List ℕ) Kind) → Answers made given → OnErr result (LeavesOut given None (K.got sink.old) (K.got sink.new)) }
    ensures still { system.new ≡ system.old }
    ensures sink { K.same sink.old sink.new }
{
    if system.is_terminal(End::Output) {
        return Err(Trouble::Unusable(
            b"standard output",
            "it is a terminal, and keys are not shown on one: redirect it, or name a file",
            12,
        ));
    }
    match made {
        Ok(bytes) => put(sink, bytes.as_slice()),
        Err(e) => Err(Trouble::Refused(blamed, e.kind)),
    }
}

// The end of a save, by its answer.
fn end_save<'w>(
    answer: Result<(), TinkError>,
    blamed: &'w [u8],
    name: &'w [u8],
    reason: &'static str,
) -> Result<(), Trouble<'w>>
    ensures ok { OnOk answer (OnErr result ⊥) }
    ensures refused { IfErr answer (λ e. IsErrAnd result (λ t. trouble_status t ≡ refusal_status e.kind)) }
{
    match answer {
        Ok(()) => Ok(()),
        Err(e) => Err(match e.kind {
            Kind::WriteFault => Trouble::Unusable(name, reason, 12),
            kind => Trouble::Refused(blamed, kind),
        }),
    }
}
