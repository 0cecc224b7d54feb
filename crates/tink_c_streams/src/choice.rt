//! The keys that may have made a stream, and the bytes that came of it.

ghost use Rattle.std.specs.Prelude.{◌≡◌, ◌<◌, ◌+◌, ◌-◌, ◌++◌, nat_eq, length, map, min, take, vec_len, vec_capacity, All, IfOk, IfErr};
ghost use Rattle.stream_model.specs.Key.{header_length, overhead};
ghost use Rattle.tink_io.specs.declared.error.Kind.TheVariants.{OutOfMemory};
ghost use Rattle.tink_streaming_segment.specs.Keeping.{kept_bytes};
ghost use Rattle.tink_streaming_keys.specs.Rooms.{HasRoomForEach};
ghost use Rattle.tink_streaming_keys.specs.StreamKinds.{key_in_set};
ghost use Rattle.tink_streaming_aead.specs.Wrapped.{keys_in};

use std::alloc::Global;
use tink_io::TinkError;
use tink_primitives::CloneIn;
use tink_sets::TypedEntry;
use tink_streaming_aead::{AES_CTR_HMAC_NONCE_SIZE_IN_BYTES, StreamKind, Trial, room_of};

/// The keys that may have made a stream, its associated data, and the bytes that came of it.
#[derive(Drop)]
pub struct Choice {
    /// The keys, in the order in which they are tried.
    pub keys: Vec<TypedEntry<StreamKind>>,
    /// The associated data.
    pub data: Vec<u8>,
    /// The bytes that came, and the memory in which a key is chosen.
    pub trial: Trial,
    ghost room: { HasRoomForEach key_in_set keys.items (vec_len trial.kept.buffer) (vec_capacity trial.opened)
        (vec_len trial.nonce) (vec_capacity trial.prefix) },
    ghost first: { All (λ k. header_length k + k.offset + overhead k < k.segment) (keys_in keys.items) },
}

// Copies of some entries.
fn copied_keys(
    alloc: Global,
    entries: &[&TypedEntry<StreamKind>],
) -> Result<Vec<TypedEntry<StreamKind>>, TinkError>
    ensures value { IfOk result (λ keys. keys.items ≡ map (λ e. e.now) entries.now) }
    ensures cause { IfErr result (λ e. e.kind ≡ OutOfMemory) }
{
    let mut keys = Vec::new(alloc);
    for entry in entries {
        keys.push((*entry).try_clone(alloc)?)?;
    }
    Ok(keys)
}

/// Copies of the entries' keys and of the associated data, and memory for a byte more than a front and a segment of each
/// key. No byte came.
///
/// # Errors
/// `OutOfMemory` alone.
pub fn choice_of(
    alloc: Global,
    entries: &[&TypedEntry<StreamKind>],
    associated_data: &[u8],
) -> Result<Choice, TinkError>
    ensures keys { IfOk result (λ c. c.keys.items ≡ map (λ e. e.now) entries.now) }
    ensures data { IfOk result (λ c. c.data.items ≡ associated_data.now) }
    ensures empty { IfOk result (λ c. c.trial.kept.filled ≡ 0) }
    ensures cause { IfErr result (λ e. e.kind ≡ OutOfMemory) }
{
    let keys = copied_keys(alloc, entries)?;
    let data = associated_data.to_vec(alloc)?;
    let trial = Trial::reserve(alloc, room_of(&keys), AES_CTR_HMAC_NONCE_SIZE_IN_BYTES)?;
    Ok(Choice { keys, data, trial })
}

impl Choice {
    /// Holds bytes of a piece for which there is room, and answers how many.
    pub fn hold(&mut self, piece: &[u8]) -> usize
        ensures count { result ≡ min (vec_len self.old.trial.kept.buffer - self.old.trial.kept.filled)
            (length piece.now) }
        ensures held { kept_bytes self.new.trial.kept ≡ kept_bytes self.old.trial.kept ++ take result piece.now }
        ensures filled { self.new.trial.kept.filled ≡ self.old.trial.kept.filled + result }
        ensures room { vec_len self.new.trial.kept.buffer ≡ vec_len self.old.trial.kept.buffer }
        ensures keys { self.new.keys ≡ self.old.keys }
        ensures data { self.new.data ≡ self.old.data }
    {
        let at = self.trial.kept.filled;
        let n = (self.trial.kept.buffer.len() - at).min(piece.len());
        self.trial.kept.buffer[at..at + n].copy_from_slice(&piece[..n]);
        self.trial.kept.filled = at + n;
        n
    }

    /// Whether there is no room for a further byte. Then more came than a front and a first segment of each key.
    pub fn is_full(&self) -> bool
        ensures { result ≡ nat_eq (vec_len self.now.trial.kept.buffer) self.now.trial.kept.filled }
    {
        self.trial.kept.buffer.len() == self.trial.kept.filled
    }
}
