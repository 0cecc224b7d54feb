//! The entries of sets.

ghost use Rattle.std.specs.Prelude.{◌≡◌, ◌⊎◌, Ok, Err, IfOk, IfErr, MatchResult, OnOk};
ghost use Rattle.tink_io.specs.declared.error.Kind.TheVariants.{OutOfMemory};
ghost use Rattle.tink_io.specs.Answering.{Answers};
ghost use Rattle.tink_sets.specs.Entries.{may_stand, own_prefix, standing_prefix, entry_of};

use crate::cryptofmt::{known_type, output_prefix};
use std::alloc::Global;
use tink_io::{Kind, TinkError};
use tink_primitives::{CloneIn, KeyId, Kinds, Primitive};
use tink_proto::{Bytes, Key, KeyStatusType, OutputPrefixType};

/// A primitive of a set, with what its key says of it.
#[derive(Drop)]
pub struct Entry<K: Kinds> {
    /// The id of the key.
    pub key_id: KeyId,
    /// The primitive of the key.
    pub primitive: Primitive<K>,
    /// The output prefix of the key.
    pub prefix: Bytes,
    /// The output prefix type of the key.
    pub prefix_type: OutputPrefixType,
    /// The status of the key.
    pub status: KeyStatusType,
}

impl<K: Kinds> Entry<K> {
    /// The entry of a key and its primitive.
    ///
    /// # Errors
    /// `NotEnabled` if the key is not enabled, then `UnknownPrefix` if its prefix type is none that is known.
    /// `OutOfMemory`.
    pub fn new(alloc: Global, p: Primitive<K>, key: &Key) -> Result<Self, TinkError>
        ensures value { IfOk result (λ e. e ≡ entry_of p key.now) }
        ensures stands { OnOk result (may_stand key.now ≡ Ok tt) }
        ensures cause { IfErr result (λ e. (e.kind ≡ OutOfMemory) ⊎ (may_stand key.now ≡ Err e.kind)) }
    {
        match beside(p, standing_prefix(alloc, key)) {
            Ok((primitive, prefix)) => Ok(new_entry(primitive, key, prefix)),
            Err(e) => Err(e),
        }
    }
}

/// A primitive of a set of one sort, with what its key says of it.
#[derive(Drop)]
pub struct TypedEntry<P> {
    /// The id of the key.
    pub key_id: KeyId,
    /// The primitive of the key.
    pub primitive: P,
    /// The output prefix of the key.
    pub prefix: Bytes,
    /// The output prefix type of the key.
    pub prefix_type: OutputPrefixType,
    /// The status of the key.
    pub status: KeyStatusType,
}

impl<K: Kinds> CloneIn for Entry<K> {
    fn try_clone(&self, alloc: Global) -> Result<Self, TinkError> {
        match clone_parts(alloc, &self.primitive, &self.prefix) {
            Ok((primitive, prefix)) => Ok(Entry {
                key_id: self.key_id,
                primitive,
                prefix,
                prefix_type: self.prefix_type,
                status: self.status,
            }),
            Err(e) => Err(e),
        }
    }

    fn try_prepared(&self, alloc: Global) -> Result<Self, TinkError> {
        match prepared_parts(alloc, &self.primitive, &self.prefix) {
            Ok((primitive, prefix)) => Ok(Entry {
                key_id: self.key_id,
                primitive,
                prefix,
                prefix_type: self.prefix_type,
                status: self.status,
            }),
            Err(e) => Err(e),
        }
    }
}

impl<P: CloneIn> CloneIn for TypedEntry<P> {
    fn try_clone(&self, alloc: Global) -> Result<Self, TinkError> {
        match clone_parts(alloc, &self.primitive, &self.prefix) {
            Ok((primitive, prefix)) => Ok(TypedEntry {
                key_id: self.key_id,
                primitive,
                prefix,
                prefix_type: self.prefix_type,
                status: self.status,
            }),
            Err(e) => Err(e),
        }
    }

    fn try_prepared(&self, alloc: Global) -> Result<Self, TinkError> {
        match prepared_parts(alloc, &self.primitive, &self.prefix) {
            Ok((primitive, prefix)) => Ok(TypedEntry {
                key_id: self.key_id,
                primitive,
                prefix,
                prefix_type: self.prefix_type,
                status: self.status,
            }),
            Err(e) => Err(e),
        }
    }
}

// A value beside another that was made, or the refusal of the other.
pub(crate) fn beside<A: Drop, B>(value: A, made: Result<B, TinkError>) -> Result<(A, B), TinkError>
    ensures { MatchResult made (λ other. result ≡ Ok (value, other)) (λ e. result ≡ Err e) }
{
    match made {
        Ok(other) => Ok((value, other)),
        Err(e) => Err(e),
    }
}

// The prefix of a key that may stand in a set.
pub(crate) fn standing_prefix(alloc: Global, key: &Key) -> Result<Bytes, TinkError>
    ensures answer { Answers result (standing_prefix key.now) }
    ensures value { IfOk result (λ prefix. prefix ≡ own_prefix key.now) }
{
    if key.status != KeyStatusType::Enabled as i32 {
        return Err(TinkError::new(Kind::NotEnabled));
    }
    output_prefix(alloc, key)
}

// A primitive and a prefix that are equal to these, the primitive last, so that no refusal lets one go.
pub(crate) fn clone_parts<P: CloneIn>(
    alloc: Global,
    primitive: &P,
    prefix: &Bytes,
) -> Result<(P, Bytes), TinkError>
    ensures primitive { IfOk result (λ parts. parts.0 ≡ primitive.now) }
    ensures prefix { IfOk result (λ parts. parts.1 ≡ prefix.now) }
    ensures cause { IfErr result (λ e. e.kind ≡ OutOfMemory) }
{
    let copied = prefix.try_clone(alloc)?;
    Ok((primitive.try_clone(alloc)?, copied))
}

// The same of a primitive that is to serve many calls.
pub(crate) fn prepared_parts<P: CloneIn>(
    alloc: Global,
    primitive: &P,
    prefix: &Bytes,
) -> Result<(P, Bytes), TinkError>
    ensures primitive { IfOk result (λ parts. parts.0 ≡ primitive.now) }
    ensures prefix { IfOk result (λ parts. parts.1 ≡ prefix.now) }
    ensures cause { IfErr result (λ e. e.kind ≡ OutOfMemory) }
{
    let copied = prefix.try_clone(alloc)?;
    Ok((primitive.try_prepared(alloc)?, copied))
}

// The entry of a key and its primitive.
fn new_entry<K: Kinds>(p: Primitive<K>, key: &Key, prefix: Bytes) -> Entry<K>
    requires own { prefix ≡ own_prefix key.now }
    ensures value { result ≡ entry_of p key.now }
{
    Entry {
        key_id: key.key_id,
        primitive: p,
        prefix,
        prefix_type: known_type(key.output_prefix_type).unwrap_or(OutputPrefixType::UnknownPrefix),
        status: KeyStatusType::Enabled,
    }
}
