//! Tokens from a source to a sink.

ghost use Rattle.std.specs.Prelude.{◌≡◌, ◌+◌, ◌≤◌, IfErr};
ghost use Rattle.tink_io.specs.Taken.{LosesAtMost};
ghost use Rattle.tink_io.specs.Outside.{FaultsStay, outside};
ghost use Rattle.tink_tokens.specs.Inputs.{IsUnloadable, IsUnwritten, input_limit};
ghost use Rattle.tink_tokens.specs.TokenSteps.{AreLoadedMacs, GivesMacs, MakesOfInput};
ghost use Rattle.tink_tokens.specs.Tokens.{CompletesToken, Macs, RefusesSigning, RefusesVerifying, SignsTo, TokenMeans, VerifiesTo, macs_in, macs_of};

use crate::input::read_input;
use std::alloc::Global;
use tink::{Managers, key_managers};
use tink_io::{Sink, Source, TinkError, write_all};
use tink_keysets::keyset::{Handle, insecure};
use tink_mac::tokens::{sign, verify};
use tink_mac::{MacKind, WrappedMac};
use tink_proto::{Bytes, Text};

/// Writes the token of the source's bytes by the primary key of a keyset of MACs.
///
/// # Errors
/// The first that applies: `BadKeyset`, `InvalidKeyset`, `UnsupportedKeyType`, `InvalidKey`, `NoPrimary` or
/// `WrongPrimitive` if the keyset does not load as MACs, with nothing read. `ReadFault`. `InputTooLong` exactly if the
/// source has more than 16,777,216 bytes: at most 16,777,217 were taken. `WriteFault` after a prefix of the token.
/// `OutOfMemory` may come in place of each. Each but `WriteFault` leaves the sink as it is.
pub fn write_token<S: Source, K: Sink>(
    alloc: Global,
    keyset: &[u8],
    source: &mut S,
    sink: &mut K,
) -> Result<(), TinkError>
    ensures answer { TokenMeans SignsTo RefusesSigning keyset.now
        (outside S.Source K.Sink source.old sink.old)
        (outside S.Source K.Sink source.new sink.new)
        result }

    // Known bytes: where neither end fails, and something is made of the input, it is written, or there is no memory.
    ensures succeeds { CompletesToken SignsTo RefusesSigning keyset.now
        (outside S.Source K.Sink source.old sink.old)
        (outside S.Source K.Sink source.new sink.new)
        result }
    ensures taken { LosesAtMost (input_limit + 1) (S.left source.old) (S.left source.new) }
    ensures unread { IfErr result (λ e. IsUnloadable e.kind → source.new ≡ source.old) }
    ensures unwritten { IfErr result (λ e. IsUnwritten e.kind → sink.new ≡ sink.old) }
    ensures later { FaultsStay (outside S.Source K.Sink source.old sink.old)
        (outside S.Source K.Sink source.new sink.new) }
    ensures source_same { S.same source.old source.new }
    ensures sink_same { K.same sink.old sink.new }
{
    answer_token(alloc, keyset, source, sink)
}

// What `write_token` answers. All that it promises follows from this.
fn answer_token<S: Source, K: Sink>(
    alloc: Global,
    keyset: &[u8],
    source: &mut S,
    sink: &mut K,
) -> Result<(), TinkError>
    ensures answer { TokenMeans SignsTo RefusesSigning keyset.now
        (outside S.Source K.Sink source.old sink.old)
        (outside S.Source K.Sink source.new sink.new)
        result }
    ensures taken { LosesAtMost (input_limit + 1) (S.left source.old) (S.left source.new) }
    ensures unread { IfErr result (λ e. IsUnloadable e.kind → source.new ≡ source.old) }
    ensures unwritten { IfErr result (λ e. IsUnwritten e.kind → sink.new ≡ sink.old) }
    ensures later { FaultsStay (outside S.Source K.Sink source.old sink.old)
        (outside S.Source K.Sink source.new sink.new) }
    ensures source_same { S.same source.old source.new }
    ensures sink_same { K.same sink.old sink.new }
{
    let macs = load_macs(alloc, keyset)?;
    let token = signed_input(alloc, &macs, source)?;
    write_all(sink, token.as_bytes())
}

/// Writes the payload of the token that the source has, where a key of a keyset of MACs accepts it.
///
/// # Errors
/// As `write_token`, with a prefix of the payload before a `WriteFault`. Before that, `BadToken` exactly if the
/// source's bytes are no token, and `MacMismatch` exactly if no key accepts its MAC.
pub fn write_payload<S: Source, K: Sink>(
    alloc: Global,
    keyset: &[u8],
    source: &mut S,
    sink: &mut K,
) -> Result<(), TinkError>
    ensures answer { TokenMeans VerifiesTo RefusesVerifying keyset.now
        (outside S.Source K.Sink source.old sink.old)
        (outside S.Source K.Sink source.new sink.new)
        result }

    // Known bytes: where neither end fails, and something is made of the input, it is written, or there is no memory.
    ensures succeeds { CompletesToken VerifiesTo RefusesVerifying keyset.now
        (outside S.Source K.Sink source.old sink.old)
        (outside S.Source K.Sink source.new sink.new)
        result }
    ensures taken { LosesAtMost (input_limit + 1) (S.left source.old) (S.left source.new) }
    ensures unread { IfErr result (λ e. IsUnloadable e.kind → source.new ≡ source.old) }
    ensures unwritten { IfErr result (λ e. IsUnwritten e.kind → sink.new ≡ sink.old) }
    ensures later { FaultsStay (outside S.Source K.Sink source.old sink.old)
        (outside S.Source K.Sink source.new sink.new) }
    ensures source_same { S.same source.old source.new }
    ensures sink_same { K.same sink.old sink.new }
{
    answer_payload(alloc, keyset, source, sink)
}

// What `write_payload` answers. All that it promises follows from this.
fn answer_payload<S: Source, K: Sink>(
    alloc: Global,
    keyset: &[u8],
    source: &mut S,
    sink: &mut K,
) -> Result<(), TinkError>
    ensures answer { TokenMeans VerifiesTo RefusesVerifying keyset.now
        (outside S.Source K.Sink source.old sink.old)
        (outside S.Source K.Sink source.new sink.new)
        result }
    ensures taken { LosesAtMost (input_limit + 1) (S.left source.old) (S.left source.new) }
    ensures unread { IfErr result (λ e. IsUnloadable e.kind → source.new ≡ source.old) }
    ensures unwritten { IfErr result (λ e. IsUnwritten e.kind → sink.new ≡ sink.old) }
    ensures later { FaultsStay (outside S.Source K.Sink source.old sink.old)
        (outside S.Source K.Sink source.new sink.new) }
    ensures source_same { S.same source.old source.new }
    ensures sink_same { K.same sink.old sink.new }
{
    let macs = load_macs(alloc, keyset)?;
    let payload = verified_input(alloc, &macs, source)?;
    write_all(sink, payload.as_slice())
}

// The token of the source's bytes.
fn signed_input<S: Source>(
    alloc: Global,
    macs: &WrappedMac<MacKind>,
    source: &mut S,
) -> Result<Text, TinkError>
    ensures answer { (m : Macs) → AreLoadedMacs m macs.now → MakesOfInput (SignsTo m) (RefusesSigning m)
        (S.left source.old) (S.left source.new) (S.faults source.old) (S.faults source.new) result }
    ensures taken { LosesAtMost (input_limit + 1) (S.left source.old) (S.left source.new) }
    ensures later { S.faults source.old ≤ S.faults source.new }
    ensures same { S.same source.old source.new }
{
    let payload = read_input(alloc, source)?;
    sign(alloc, macs, &payload)
}

// The payload of the token that the source has.
fn verified_input<S: Source>(
    alloc: Global,
    macs: &WrappedMac<MacKind>,
    source: &mut S,
) -> Result<Bytes, TinkError>
    ensures answer { (m : Macs) → AreLoadedMacs m macs.now → MakesOfInput (VerifiesTo m) (RefusesVerifying m)
        (S.left source.old) (S.left source.new) (S.faults source.old) (S.faults source.new) result }
    ensures taken { LosesAtMost (input_limit + 1) (S.left source.old) (S.left source.new) }
    ensures later { S.faults source.old ≤ S.faults source.new }
    ensures same { S.same source.old source.new }
{
    let token = read_input(alloc, source)?;
    verify(alloc, macs, &token)
}

// The MACs of a keyset in the wire format.
fn load_macs(alloc: Global, bytes: &[u8]) -> Result<WrappedMac<MacKind>, TinkError>
    ensures { GivesMacs result (macs_of bytes.now) }
{
    let handle = insecure::valid_handle(alloc, bytes)?;
    build_macs(alloc, &handle)
}

// The MACs of a handle, by the managers of all types of keys.
fn build_macs(alloc: Global, handle: &Handle) -> Result<WrappedMac<MacKind>, TinkError>
    ensures { GivesMacs result (macs_in handle.now) }
{
    let registry = key_managers(alloc)?;
    tink_mac::new::<Managers, MacKind>(alloc, handle, &registry)
}
