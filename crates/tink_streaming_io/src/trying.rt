ghost use Rattle.std.specs.Prelude.{◌≡◌, ◌≤◌, ◌<◌, ◌+◌, ◌-◌, ℕ, [], length, take, drop, max, Some, None, IfSome, IsNone, IfOk, IfErr, OnErr, vec_len, vec_capacity};
ghost use Rattle.stream_model.specs.Cut.{numbered};
ghost use Rattle.stream_model.specs.Opening.{OpeningKey, HasFront, begins_front, front_length, header_of};
ghost use Rattle.tink_streaming_io.specs.Choosing.{HasSizesOf};
ghost use Rattle.tink_streaming_segment.specs.Keeping.{kept_rest};
ghost use Rattle.tink_streaming_io.specs.Openers.{segment_map};
ghost use Rattle.tink_streaming_io.specs.Rooms.{HasRoomToTry, KeepsRoom};
ghost use Rattle.tink_streaming_io.specs.Trials.{HasPrefixRoom, IsTrialBy, MayBegin, TrialFailed, TrialMeans};

use tink_io::{Failed, Source};
use tink_streaming_segment::{Kept, Opener, SegmentDecrypter, open_front, refill};

/// A key that may have made a stream, under its associated data.
pub trait OpensStreams<D: SegmentDecrypter> {
    // its output prefix, its header, its sizes, and its segments under a header
    ghost opening_key: { Self → OpeningKey };

    // the bytes of its nonces
    ghost nonce_of: { Self → ℕ };

    /// The output prefix, which is before the header.
    fn output_prefix(&self) -> &[u8]
        ensures is { result.now ≡ (opening_key self.now).out };

    /// The bytes of the header: a byte, a salt, and a prefix of seven bytes.
    fn header_length(&self) -> usize
        ensures is { result ≡ (opening_key self.now).header }
        ensures long { 8 ≤ result };

    /// The bytes of a segment.
    fn segment_size(&self) -> u32
        ensures is { result ≡ (opening_key self.now).size };

    /// The bytes of the first segment, which with the header are no more than those of a segment.
    fn first_segment_size(&self) -> u32
        ensures is { result ≡ (opening_key self.now).first }
        ensures long { (opening_key self.now).overhead < result }
        ensures fits { (opening_key self.now).header + result ≤ (opening_key self.now).size };

    /// The bytes of a nonce.
    fn nonce_size(&self) -> usize
        ensures is { result ≡ nonce_of self.now }
        ensures long { 12 ≤ result };

    /// How segments under a header are opened, where keys are derived from it.
    fn derive(&self, header: &[u8]) -> Option<D>
        requires { length header.now ≡ (opening_key self.now).header }
        ensures some { IfSome result (λ d. (opening_key self.now).seg header.now
            ≡ Some (numbered (D.seg d) (nonce_of self.now) (drop ((opening_key self.now).header - 7) header.now))) }
        ensures none { IsNone result → (opening_key self.now).seg header.now ≡ None }
        ensures nonce { IfSome result (λ d. D.nonce_length d ≡ nonce_of self.now) }
        ensures overhead { IfSome result (λ d. D.overhead_of d ≡ (opening_key self.now).overhead) };
}

/// How a stream is opened that begins under a key, and the bytes of its front.
#[derive(Drop)]
pub struct Begun<D: SegmentDecrypter> {
    /// How the segments are opened.
    pub opener: Opener<D>,
    /// The bytes of the output prefix and the header.
    pub front: usize,
}

/// Whether a stream begins under a key.
#[derive(Drop)]
pub enum KeyTrial<D: SegmentDecrypter> {
    /// It does. Its segments are opened so.
    Begins(Begun<D>),
    /// It does not. The memory of the nonce prefix is handed back for the next key.
    Differs(Vec<u8>),
}

// How the key's stream under a header is opened, or the memory of its prefix again.
fn opener_under<D: SegmentDecrypter + Drop, T: OpensStreams<D>>(
    key: &T,
    header: &[u8],
    mut prefix: Vec<u8>,
) -> Result<Opener<D>, Vec<u8>>
    requires header { length header.now ≡ (T.opening_key key.now).header }
    requires long { 8 ≤ length header.now }
    requires prefix { 7 ≤ vec_capacity prefix }
    ensures map { IfOk result (λ o. (T.opening_key key.now).seg header.now ≡ Some (segment_map o)) }
    ensures sizes { IfOk result (λ o. HasSizesOf (T.opening_key key.now) o.first o.size o.overhead) }
    ensures nonce { IfOk result (λ o. o.nonce_size ≡ T.nonce_of key.now) }
    ensures prefix_room { IfOk result (λ o. vec_capacity o.prefix ≡ vec_capacity prefix) }
    ensures none { IfErr result (λ _. (T.opening_key key.now).seg header.now ≡ None) }
    ensures room { IfErr result (λ p. vec_capacity p ≡ vec_capacity prefix) }
{
    let Some(decrypter) = key.derive(header) else {
        return Err(prefix);
    };
    refill(&mut prefix, &header[header.len() - 7..]);
    let overhead = decrypter.overhead();
    Ok(Opener {
        decrypter,
        prefix,
        nonce_size: key.nonce_size(),
        overhead,
        first: key.first_segment_size() as usize,
        size: key.segment_size() as usize,
    })
}

// Whether these bytes are those of the key's front: its output prefix, and the byte that tells a header's length.
fn begins_front<D: SegmentDecrypter, T: OpensStreams<D>>(key: &T, held: &[u8]) -> bool
    requires { front_length (T.opening_key key.now) ≤ length held.now }
    ensures { result ≡ begins_front (T.opening_key key.now) held.now }
{
    let out = key.output_prefix();
    let length = key.header_length();
    held.starts_with(out) && usize::from(held[out.len()]) == length
}

/// How a stream that begins with `held` is decrypted by a key, whose output prefix and header have `front` bytes
/// together.
///
/// # Errors
/// The memory of the prefix again. It comes if the stream does not begin with a front of the key, or no keys are
/// derived from the front's header.
pub fn front_opener<D: SegmentDecrypter + Drop, T: OpensStreams<D>>(
    key: &T,
    held: &[u8],
    front: usize,
    prefix: Vec<u8>,
) -> Result<Opener<D>, Vec<u8>>
    requires front { front ≡ front_length (T.opening_key key.now) }
    requires prefix { 7 ≤ vec_capacity prefix }
    ensures front { IfOk result (λ o. HasFront (T.opening_key key.now) held.now) }
    ensures map { IfOk result (λ o. (T.opening_key key.now).seg (header_of (T.opening_key key.now) held.now)
        ≡ Some (segment_map o)) }
    ensures sizes { IfOk result (λ o. HasSizesOf (T.opening_key key.now) o.first o.size o.overhead) }
    ensures nonce { IfOk result (λ o. o.nonce_size ≡ T.nonce_of key.now) }
    ensures prefix_room { IfOk result (λ o. vec_capacity o.prefix ≡ vec_capacity prefix) }
    ensures none { IfErr result (λ _. HasFront (T.opening_key key.now) held.now
        → (T.opening_key key.now).seg (header_of (T.opening_key key.now) held.now) ≡ None) }
    ensures room { IfErr result (λ p. vec_capacity p ≡ vec_capacity prefix) }
{
    let out = key.output_prefix().len();
    let end = out + key.header_length();
    if held.len() < front {
        return Err(prefix);
    }
    if !begins_front(key, held) {
        return Err(prefix);
    }
    opener_under(key, &held[out..end], prefix)
}

// What the trial of a key found whose first segment opens, or does not.
fn trial_by<D: SegmentDecrypter + Drop>(
    begins: bool,
    opener: Opener<D>,
    front: usize,
) -> KeyTrial<D>
    ensures { IsTrialBy begins (record { opener = opener; front = front }) result }
{
    if begins {
        KeyTrial::Begins(Begun { opener, front })
    } else {
        KeyTrial::Differs(opener.prefix)
    }
}

/// Whether the stream of a source begins under a key: with its output prefix, its header, and a first segment
/// that opens. It reads at most to a byte behind the header. If keys are derived from the header of a stream
/// with the key's output prefix, it reads at most to a byte behind the first segment. Afterwards `opened`
/// holds no text.
///
/// # Errors
/// Failed where the source failed. What was read is kept.
pub fn try_key<S: Source, D: SegmentDecrypter + Drop, T: OpensStreams<D>>(
    key: &T,
    kept: &mut Kept,
    source: &mut S,
    prefix: Vec<u8>,
    nonce: &mut Vec<u8>,
    opened: &mut Vec<u8>,
) -> Result<KeyTrial<D>, Failed>
    requires room { HasRoomToTry (T.opening_key key.now) (T.nonce_of key.now) (vec_len kept.old.buffer)
        (vec_capacity opened.old) (vec_len nonce.old) (vec_capacity prefix) }
    ensures answer { IfOk result (TrialMeans (T.opening_key key.now) (T.nonce_of key.now)
        (kept_rest S.left kept.old source.old) (kept_rest S.left kept.new source.new) kept.new.filled) }
    ensures failed { OnErr result (TrialFailed (kept_rest S.left kept.old source.old)
        (kept_rest S.left kept.new source.new) (S.faults source.old) (S.faults source.new)) }
    ensures most { kept.new.filled ≤ max kept.old.filled
        (front_length (T.opening_key key.now) + (T.opening_key key.now).first + 1) }
    ensures further { IfSome (kept_rest S.left kept.old source.old) (λ X.
        max kept.old.filled (front_length (T.opening_key key.now) + 1) < kept.new.filled
        → MayBegin (T.opening_key key.now) X) }
    // whatever the answer, no text is left there, not even one that stood there before
    ensures opened { opened.new.items ≡ [] }
    ensures room { KeepsRoom kept.old kept.new nonce.old nonce.new opened.old opened.new
        × IfOk result (HasPrefixRoom (vec_capacity prefix)) }
    ensures stays { (S.faults source.old ≤ S.faults source.new) × S.same source.old source.new }
{
    opened.clear();
    let h = key.header_length();
    let _ = key.first_segment_size();
    let front = key.output_prefix().len() + h;
    kept.keep(source, front)?;
    let opener = match front_opener(key, &kept.buffer[..kept.filled], front, prefix) {
        Ok(opener) => opener,
        Err(memory) => return Ok(KeyTrial::Differs(memory)),
    };
    kept.keep(source, front + opener.first)?;
    let begins = open_front(&opener, 0, &kept.buffer[front..kept.filled], nonce, opened);
    opened.clear();
    Ok(trial_by(begins, opener, front))
}
