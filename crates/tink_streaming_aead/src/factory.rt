//! The streaming AEADs of a keyset as one.

ghost use Rattle.std.specs.Prelude.{◌≡◌, ◌≤◌, ◌<◌, ◌+◌, ◌++◌, None, Some, true, is_some, length, map, max, vec_len, All, IfOk, IfErr, OnOk};
ghost use Rattle.tink_io.specs.declared.error.Kind.TheVariants.{OutOfMemory};
ghost use Rattle.stream_model.specs.Key.{IsUsable};
ghost use Rattle.tink_primitives.specs.Sorts.{as_streaming_aead};
ghost use Rattle.tink_sets.specs.Entries.{entry_of};
ghost use Rattle.tink_keysets.specs.Built.{built_entries, GivesSet};
ghost use Rattle.tink_keysets.specs.Typing.{typed_entries};
ghost use Rattle.tink_streaming_aead.specs.DecryptReaders.{KeysReaderMeans, largest, largest_segment, room_of};
ghost use Rattle.tink_streaming_keys.specs.StreamKinds.{key_in_set};
ghost use Rattle.tink_streaming_aead.specs.Wrapped.{AreKeysOf, ArePure, HasOutputPrefix, KeepsOrder, KeepsPrefixes, PrimaryStarts, all_entries, keys_in};

mod candidates;

use crate::decrypt_reader::{Choice, DecryptReader};
use candidates::own_groups;
use std::alloc::Global;
use std::marker::Model;
use tink_io::{Draws, Sink, Source, TinkError};
use tink_keysets::factory::typed_primitives;
use tink_keysets::keyset::Handle;
use tink_primitives::{CloneIn, Kinds, Refused, StreamingAead};
use tink_registry::{KeyManager, Registry};
use tink_sets::sorts::StreamingAeads;
use tink_sets::{TypedEntry, TypedPrimitiveSet};
use tink_streaming_ciphers::{AES_CTR_HMAC_NONCE_SIZE_IN_BYTES, StreamSegment};
use tink_streaming_io::Writer;
use tink_streaming_keys::{DerivesStreams, StreamKind, Trial, new_encrypting_writer};

/// The streaming AEADs of a keyset as one. The primary key encrypts streams, and the first of the keys under which
/// they begin decrypts them. A contract sees the primary key, which there is, and all keys, those of one prefix in
/// their order. Each has its output prefix before the header of its streams.
#[derive(Drop)]
pub struct WrappedStreamingAead {
    ps: TypedPrimitiveSet<StreamKind>,
    ghost has_primary: { is_some ps.primary ≡ true },
    ghost most: { largest (keys_in (all_entries ps.entries)) ≤ largest_segment (keys_in (all_entries ps.entries)) + 5 },
    ghost pure: { ArePure ps.entries },
}

impl Model for WrappedStreamingAead {
    ghost use Rattle.tink_streaming_aead.specs.Wrapped.{Wrapped, set_keys};

    ghost Value = { Wrapped };

    ghost view = { λ w. set_keys w.ps.primary w.ps.entries };
}

/// The streaming AEADs of a handle's enabled keys as one.
///
/// # Errors
/// As `Handle::primitives`; then `NoPrimary` exactly where no entry has the primary id; then `WrongPrimitive` exactly
/// where an entry is no streaming AEAD. `OutOfMemory` may come in place of each.
pub fn new<M: KeyManager>(
    alloc: Global,
    h: &Handle,
    registry: &Registry<M>,
) -> Result<WrappedStreamingAead, TinkError>
where
    M::Family: Kinds<StreamingAead = StreamKind>,
    ensures set { GivesSet (AreKeysOf h.now.primary_key_id) result (
        typed_entries as_streaming_aead h.now.primary_key_id (built_entries M.url M.supports M.builds entry_of
        registry.now.managers None h.now)) }
    ensures prefixes { IfOk result (λ w. All HasOutputPrefix w.keys) }
{
    match typed_primitives::<M, StreamingAeads>(alloc, h, registry) {
        Ok(ps) => {
            keeps_order(&ps);
            own_groups(&ps);
            Ok(WrappedStreamingAead { ps })
        }
        Err(e) => Err(e),
    }
}

// The lists of a set are of one prefix each, so that all entries are in order prefix by prefix, and are what the set has.
fn keeps_order(ps: &TypedPrimitiveSet<StreamKind>)
    ensures order { KeepsOrder ps.now.entries }
    ensures prefixes { KeepsPrefixes ps.now.entries }
{
    let _ = (&ps.entries).into_iter();
}

/// The entries of a set, those of one prefix in their order.
///
/// # Errors
/// `OutOfMemory`.
pub fn entries_of(
    alloc: Global,
    ps: &TypedPrimitiveSet<StreamKind>,
) -> Result<Vec<&TypedEntry<StreamKind>>, TinkError>
    ensures value { IfOk result (λ es. map (λ e. e.now) es.items ≡ all_entries ps.now.entries) }
    ensures order { KeepsOrder ps.now.entries }
    ensures cause { IfErr result (λ e. e ≡ record { kind = OutOfMemory }) }
{
    keeps_order(ps);
    let mut entries = Vec::new(alloc);
    for group in ps.entries.values() {
        add_group(&mut entries, group.as_slice())?;
    }
    Ok(entries)
}

// Adds the entries of one prefix.
fn add_group<'a>(
    entries: &mut Vec<&'a TypedEntry<StreamKind>>,
    group: &'a [TypedEntry<StreamKind>],
) -> Result<(), TinkError>
    ensures value { OnOk result (map (λ e. e.now) entries.new.items
        ≡ map (λ e. e.now) entries.old.items ++ group.now) }
    ensures cause { IfErr result (λ e. e ≡ record { kind = OutOfMemory }) }
{
    for entry in group {
        entries.push(entry)?;
    }
    Ok(())
}

// Copies of some entries.
fn copy_entries(
    alloc: Global,
    entries: &[&TypedEntry<StreamKind>],
) -> Result<Vec<TypedEntry<StreamKind>>, TinkError>
    ensures value { IfOk result (λ keys. keys.items ≡ map (λ e. e.now) entries.now) }
    ensures cause { IfErr result (λ e. e.kind ≡ OutOfMemory) }
{
    let mut keys = Vec::new(alloc);
    for entry in entries {
        keys.push((*entry).try_clone(alloc)?)?;
    }
    Ok(keys)
}

fn greater(a: usize, b: usize) -> usize
    ensures { result ≡ max a b }
{
    if a < b { b } else { a }
}

/// A byte more than the most that one of some keys has of its output prefix and a segment.
pub fn room_of<T: DerivesStreams>(keys: &[T]) -> usize
    ensures most { All (λ k. length (T.key_of k).out + (T.key_of k).segment < result) keys.now }
    ensures value { result ≡ largest (map T.key_of keys.now) + 1 }
    ensures usable { All IsUsable (map T.key_of keys.now) }
{
    let mut room = 1;
    for key in keys {
        let own = key.output_prefix().len() + key.segment_size() as usize + 1;
        room = greater(room, own);
    }
    room
}

/// Copies of the entries' keys and of the associated data, and the memory for choosing a key.
///
/// # Errors
/// `OutOfMemory` alone.
pub fn choice_of(
    alloc: Global,
    entries: &[&TypedEntry<StreamKind>],
    aad: &[u8],
) -> Result<Choice, TinkError>
    ensures keys { IfOk result (λ c. c.keys.items ≡ map (λ e. e.now) entries.now) }
    ensures data { IfOk result (λ c. c.data.items ≡ aad.now) }
    ensures usable { IfOk result (λ c. All IsUsable (keys_in c.keys.items)) }
    ensures room { IfOk result (λ c. vec_len c.trial.kept.buffer ≡ largest (keys_in c.keys.items) + 1) }
    ensures cause { IfErr result (λ e. e.kind ≡ OutOfMemory) }
{
    let keys = copy_entries(alloc, entries)?;
    let data = aad.to_vec(alloc)?;
    let trial = Trial::reserve(alloc, room_of(&keys), AES_CTR_HMAC_NONCE_SIZE_IN_BYTES)?;
    Ok(Choice { keys, data, trial })
}

// What is needed to choose one of the keys of a set.
fn choice_in(
    alloc: Global,
    ps: &TypedPrimitiveSet<StreamKind>,
    aad: &[u8],
) -> Result<Choice, TinkError>
    ensures keys { IfOk result (λ c. c.keys.items ≡ all_entries ps.now.entries) }
    ensures data { IfOk result (λ c. c.data.items ≡ aad.now) }
    ensures usable { IfOk result (λ c. All IsUsable (keys_in c.keys.items)) }
    ensures room { IfOk result (λ c. vec_len c.trial.kept.buffer ≡ largest (keys_in c.keys.items) + 1) }
    ensures cause { IfErr result (λ e. e.kind ≡ OutOfMemory) }
{
    let entries = entries_of(alloc, ps)?;
    choice_of(alloc, &entries, aad)
}

impl WrappedStreamingAead {
    /// The entry of the primary key, by which streams are made.
    pub fn primary(&self) -> &TypedEntry<StreamKind>
        ensures key { self.now.primary ≡ Some (key_in_set result.now) }
        ensures entry { self.now.primary_entry ≡ Some result.now }
    {
        match &self.ps.primary {
            Some(primary) => primary,
            None => unreachable!(),
        }
    }

    /// A writer of a new stream into `w` by the primary key, whose front is written: the key's output prefix and a
    /// header. The salt and the prefix of the nonces are the first draws. All memory is taken first.
    ///
    /// # Errors
    /// The refusal hands back `w`. `OutOfMemory`, with nothing drawn or written; then the first that applies:
    /// `RandomFault` exactly if fewer draws are left than a salt and seven bytes: none is taken. `UnknownHash`
    /// exactly if HKDF's hash is unknown, and `UnsupportedHash` exactly if it is SHA-224, with the draws taken and
    /// nothing written. `WriteFault` if the sink failed: it has a prefix of the front.
    pub fn new_encrypting_writer<K: Sink + Drop>(
        &self,
        alloc: Global,
        draws: &mut Draws,
        w: K,
        additional_data: &[u8],
    ) -> Result<Writer<K, StreamSegment>, Refused<K>>
        ensures answer { PrimaryStarts K.got K.faults K.same self.now additional_data.now draws.old draws.new w result }
    {
        match &self.ps.primary {
            Some(primary) => { new_encrypting_writer(alloc, primary, draws, w, additional_data) }
            None => unreachable!(),
        }
    }

    /// A reader of the stream in `r` by all keys, those of one prefix in their order. It has copies of the keys.
    /// Nothing is read, and all memory is taken. It may keep a byte more than the largest of their segments with its
    /// output prefix: at most six bytes more than the largest segment.
    ///
    /// # Errors
    /// `OutOfMemory`, which hands back `r`.
    pub fn new_decrypting_reader<S: Source + Drop>(
        &self,
        alloc: Global,
        r: S,
        additional_data: &[u8],
    ) -> Result<DecryptReader<S>, Refused<S>>
        ensures answer { KeysReaderMeans self.now.keys additional_data.now r result }
        ensures room { IfOk result (λ made. room_of made ≤ largest_segment self.now.keys + 6) }
    {
        match choice_in(alloc, &self.ps, additional_data) {
            Ok(choice) => Ok(DecryptReader::of_choice(choice, r)),
            Err(error) => Err(Refused { error, inner: r }),
        }
    }
}

impl<S: Source + Drop, K: Sink + Drop> StreamingAead<S, K> for WrappedStreamingAead {
    type Writer = Writer<K, StreamSegment>;

    type Reader = DecryptReader<S>;

    fn new_encrypting_writer(
        &self,
        alloc: Global,
        draws: &mut Draws,
        w: K,
        additional_data: &[u8],
    ) -> Result<Writer<K, StreamSegment>, Refused<K>>
        ensures answer { PrimaryStarts K.got K.faults K.same self.now additional_data.now draws.old draws.new w result }
    {
        WrappedStreamingAead::new_encrypting_writer(self, alloc, draws, w, additional_data)
    }

    fn new_decrypting_reader(
        &self,
        alloc: Global,
        r: S,
        additional_data: &[u8],
    ) -> Result<DecryptReader<S>, Refused<S>>
        ensures answer { KeysReaderMeans self.now.keys additional_data.now r result }
        ensures room { IfOk result (λ made. room_of made ≤ largest_segment self.now.keys + 6) }
        ensures same { IfErr result (λ refused. S.same r refused.inner) }
    {
        WrappedStreamingAead::new_decrypting_reader(self, alloc, r, additional_data)
    }
}
