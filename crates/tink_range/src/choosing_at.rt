ghost use Rattle.std.specs.Prelude.{◌≡◌, ◌≤◌, ◌<◌, ◌+◌, ◌*◌, ◌-◌, ◌^◌, length, take, map, None, true, false, IfOk, IfErr, IfSome, MatchResult, vec_len, vec_capacity};
ghost use Rattle.stream_model.specs.Cut.{numbered};
ghost use Rattle.stream_model.specs.Key.{nonce_size};
ghost use Rattle.stream_model.specs.Opening.{HasFront, IsChosen, header_of, opening_key};
ghost use Rattle.tink_range.specs.ChoosingAt.{DoesBeginAt, DoesNotBeginAt, IsFirstAt, IsPlaced, Tries};
ghost use Rattle.tink_range.specs.Objects.{ReadsObject};
ghost use Rattle.tink_range.specs.Rooms.{HasRoomFor, KeepsBuffers};
ghost use Rattle.tink_streaming_ciphers.specs.StreamSegments.{segment_by};
ghost use Rattle.tink_streaming_keys.specs.Decrypters.{OpensBehind};
ghost use Rattle.tink_streaming_keys.specs.Rooms.{HasRoomForEach};
ghost use Rattle.tink_streaming_io.specs.Choosing.{IsOpenerOf};

use crate::opening_at::open_at;
use crate::read_at::ReadAt;
use crate::reading_at::fill_at;
use crate::steps::Steps;
use std::sync::ledger::Ledger;
use tink_io::Failed;
use tink_streaming_ciphers::StreamSegment;
use tink_streaming_io::Opener;
use tink_streaming_keys::{DerivesStreams, opener_behind};

/// How the stream of an object is decrypted, and the bytes of its output prefix and header (`front`).
#[derive(Drop)]
pub struct BegunAt {
    /// How the segments are opened.
    pub opener: Opener<StreamSegment>,
    /// The bytes of the output prefix and the header.
    pub front: u64,
}

/// The same under the key at `place` of a list of keys.
#[derive(Drop)]
pub struct ChosenAt {
    /// How the stream is opened.
    pub begun: BegunAt,
    /// The place of the key in the list, from 0 on.
    pub place: usize,
}

// Reads as many bytes as a key's front has, and answers how the segments behind it are opened, if they are a front of
// the key and keys are derived from its header; else the memory of its prefix again.
fn front_at<A: ReadAt, T: DerivesStreams>(
    key: &T,
    aad: &[u8],
    object: &mut A,
    held: &mut [u8],
    prefix: Vec<u8>,
) -> Result<Result<Opener<StreamSegment>, Vec<u8>>, Failed>
    requires held { length held.old ≤ A.length_of object.old }
    requires prefix { 7 ≤ vec_capacity prefix }
    ensures held { IfOk result (λ _. IfSome (A.bytes object.old) (λ S. held.new ≡ take (length held.old) S)) }
    ensures answer { IfOk result (λ r. MatchResult r
        (λ o. OpensBehind (opening_key aad.now (T.key_of key.now)) (nonce_size (T.key_of key.now)) held.new
        (numbered (segment_by o.decrypter) o.nonce_size o.prefix.items) o.first o.size o.overhead o.nonce_size)
        (λ memory. (HasFront (opening_key aad.now (T.key_of key.now)) held.new
        → (opening_key aad.now (T.key_of key.now)).seg
        (header_of (opening_key aad.now (T.key_of key.now)) held.new) ≡ None))) }
    ensures room { IfOk result (λ r. MatchResult r
        (λ o. 7 ≤ vec_capacity o.prefix) (λ memory. 7 ≤ vec_capacity memory)) }
    ensures taken { A.taken object.new ≤ A.taken object.old + length held.old }
    ensures read { ReadsObject A.length_of A.bytes A.faults A.same object.old object.new result }
{
    match fill_at(object, 0, held) {
        Ok(()) => Ok(opener_behind(key, held, aad, prefix)),
        Err(e) => Err(e),
    }
}

// How the stream of an object is opened that begins so, or the memory of a prefix again.
fn begun_if(begins: bool, opener: Opener<StreamSegment>, front: u64) -> Result<BegunAt, Vec<u8>>
    ensures { MatchResult result
        (λ b. (begins ≡ true) × (b ≡ record { opener = opener; front = front }))
        (λ prefix. (begins ≡ false) × (prefix ≡ opener.prefix)) }
{
    if begins {
        Ok(BegunAt { opener, front })
    } else {
        Err(opener.prefix)
    }
}

// How the stream of an object is opened, if it begins in a front of the key and then in the segment of some text; else
// the memory of a prefix again.
fn try_at<A: ReadAt, T: DerivesStreams, L: Ledger>(
    key: &T,
    aad: &[u8],
    object: &mut A,
    sealed: &mut Vec<u8>,
    text: &mut Vec<u8>,
    nonce: &mut Vec<u8>,
    prefix: Vec<u8>,
    steps: &mut Steps<L>,
) -> Result<Result<BegunAt, Vec<u8>>, Failed>
    requires prefix { 7 ≤ vec_capacity prefix }
    requires sealed { length (T.key_of key.now).out + (T.key_of key.now).segment < vec_len sealed.old }
    requires text { (T.key_of key.now).segment ≤ vec_capacity text.old }
    requires nonce { nonce_size (T.key_of key.now) ≤ vec_len nonce.old }
    ensures answer { IfOk result (λ r. MatchResult r
        (λ b. DoesBeginAt (opening_key aad.now (T.key_of key.now)) (nonce_size (T.key_of key.now))
        (A.length_of object.old) (A.bytes object.old)
        (numbered (segment_by b.opener.decrypter) b.opener.nonce_size b.opener.prefix.items) b.front
        b.opener.first b.opener.size b.opener.overhead b.opener.nonce_size steps.old steps.new)
        (λ memory. DoesNotBeginAt (opening_key aad.now (T.key_of key.now)) (A.bytes object.old) steps.old steps.new
        (vec_capacity memory))) }
    ensures ticks { (steps.old ≤ steps.new) × (steps.new ≤ steps.old + 1) }
    ensures room { KeepsBuffers sealed.old sealed.new text.old text.new nonce.old nonce.new }
    ensures taken { A.taken object.new ≤ A.taken object.old + vec_len sealed.old }
    ensures read { ReadsObject A.length_of A.bytes A.faults A.same object.old object.new result }
{
    let front = key.output_prefix().len() + key.header_length();
    let size = object.size();
    if size <= front as u64 {
        return Ok(Err(prefix));
    }
    match front_at(key, aad, object, &mut sealed[..front], prefix) {
        Ok(Ok(opener)) => {
            let at = front as u64;
            match open_at(
                &opener,
                object,
                sealed,
                text,
                nonce,
                0,
                at,
                size - at,
                steps,
            ) {
                Ok(begins) => Ok(begun_if(begins, opener, at)),
                Err(e) => Err(e),
            }
        }
        Ok(Err(memory)) => Ok(Err(memory)),
        Err(e) => Err(e),
    }
}

/// Chooses the first key under which the stream of an object begins with the associated data. The answer is how the
/// stream is decrypted and the key's place in the list, or `None` if it begins under no key. Each trial of a first
/// segment is a step.
///
/// # Errors
/// `Failed` if the object failed.
pub fn choose_at<A: ReadAt, T: DerivesStreams, L: Ledger>(
    keys: &[T],
    aad: &[u8],
    object: &mut A,
    sealed: &mut Vec<u8>,
    text: &mut Vec<u8>,
    nonce: &mut Vec<u8>,
    prefix: Vec<u8>,
    steps: &mut Steps<L>,
) -> Result<Option<ChosenAt>, Failed>
    requires room { HasRoomForEach T.key_of keys.now (vec_len sealed.old) (vec_capacity text.old) (vec_len nonce.old)
        (vec_capacity prefix) }
    ensures none { IfOk result (λ o. o ≡ None → IfSome (A.bytes object.old)
        (λ S. IsChosen (map (λ k. opening_key aad.now (T.key_of k)) keys.now) S None)) }
    ensures found { IfOk result (λ o. IfSome o (λ c.
        IsFirstAt (map (λ k. opening_key aad.now (T.key_of k)) keys.now) (A.length_of object.old) (A.bytes object.old)
        (numbered (segment_by c.begun.opener.decrypter) c.begun.opener.nonce_size c.begun.opener.prefix.items)
        c.begun.front c.begun.opener.first c.begun.opener.size c.begun.opener.overhead)) }
    ensures placed { IfOk result (λ o. IfSome o (λ c. IsPlaced (λ k. opening_key aad.now (T.key_of k)) keys.now
        (A.bytes object.old) c.place c.begun.opener.size)) }
    ensures room { IfOk result (λ o. IfSome o (λ c. HasRoomFor c.begun.opener.size c.begun.opener.nonce_size
        (vec_len sealed.new) (vec_capacity text.new) (vec_len nonce.new))) }
    ensures tries { IfOk result (λ _. IfSome (A.bytes object.old)
        (λ S. Tries (map (λ k. opening_key aad.now (T.key_of k)) keys.now) S (steps.new - steps.old))) }
    ensures ticks { (steps.old ≤ steps.new) × (steps.new ≤ steps.old + length keys.now) }
    ensures taken { A.taken object.new ≤ A.taken object.old + length keys.now * vec_len sealed.old }
    ensures read { ReadsObject A.length_of A.bytes A.faults A.same object.old object.new result }
{
    let mut prefix = prefix;
    for (place, key) in keys.iter().enumerate() {
        match try_at(key, aad, object, sealed, text, nonce, prefix, steps) {
            Ok(Ok(begun)) => return Ok(Some(ChosenAt { begun, place })),
            Ok(Err(memory)) => prefix = memory,
            Err(e) => return Err(e),
        }
    }
    Ok(None)
}
