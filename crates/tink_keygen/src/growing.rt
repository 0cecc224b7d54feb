//! Keys that are added for later, new keys with another output prefix, and rotations to keys of the same primitive.

ghost use Rattle.std.specs.List.{list_any};
ghost use Rattle.std.specs.Prelude.{◌≡◌, ◌⊎◌, ◌≤◌, IfErr, IfOk, Ok, length};
ghost use Rattle.keyset_model.specs.Keys.{is_enabled, is_enabled_with};
ghost use Rattle.keyset_model.specs.Validity.{IsValid, has_a_primary};
ghost use Rattle.tink_io.specs.Answering.{Answers};
ghost use Rattle.tink_io.specs.declared.error.Kind.TheVariants.{OutOfMemory};
ghost use Rattle.tink_keygen.specs.Growing.{IsNotAdded, IsNotAlike, IsNotPrefixed, are_one, grown_beside, grown_beside_by};
ghost use Rattle.tink_keygen.specs.Growing.{is_alike, is_unlike, left_alike, left_alike_by, left_beside, left_beside_by};
ghost use Rattle.tink_keygen.specs.Growing.{left_prefixed_by, prefixed, prefixed_by, rotated_alike, rotated_alike_by, sort_of};
ghost use Rattle.tink.specs.Registered.{with_everything};
ghost use Rattle.tink_keysets.specs.Through.{LeavesDraws};
ghost use Rattle.tink_keysets.specs.Valid.{valid_keyset};

use crate::{template_by_name, with_new_key};
use std::alloc::Global;
use tink::{Managers, registry};
use tink_io::{Draws, Kind, TinkError};
use tink_keysets::keyset::{Handle, Manager, insecure};
use tink_proto::{Key, KeyStatusType, KeyTemplate, Keyset, Message, OutputPrefixType};
use tink_registry::Registry;

/// The keyset that bytes spell in the wire format, with a new key by the template of a name at its end. The key is enabled,
/// and not the primary one: it decrypts, and encrypts once it is promoted. The random bytes are taken as `rotate` takes them.
///
/// # Errors
/// Those of `rotate`; after `InvalidKeyset` `NoPrimary` exactly if no enabled key is the primary one. A valid keyset
/// without one has public keys alone, and with a new key it would not be valid. 576 random bytes are enough.
pub fn add(
    alloc: Global,
    keyset: &[u8],
    template: &str,
    draws: &mut Draws,
) -> Result<Keyset, TinkError>
    ensures answer { Answers result (grown_beside_by template.now (valid_keyset keyset.now) draws.old) }
    ensures rest { LeavesDraws result (left_beside_by template.now (valid_keyset keyset.now) draws.old) draws.old draws.new }
    ensures valid { IfOk result IsValid }
    ensures cause { 576 ≤ length draws.old
        → IfErr result (λ e. (e.kind ≡ OutOfMemory) ⊎ IsNotAdded template.now (valid_keyset keyset.now) e.kind) }
{
    grow_beside(alloc, keyset, template, draws)
}

// The same, whose cause follows from its answer.
fn grow_beside(
    alloc: Global,
    keyset: &[u8],
    template: &str,
    draws: &mut Draws,
) -> Result<Keyset, TinkError>
    ensures answer { Answers result (grown_beside_by template.now (valid_keyset keyset.now) draws.old) }
    ensures rest { LeavesDraws result (left_beside_by template.now (valid_keyset keyset.now) draws.old) draws.old draws.new }
    ensures valid { IfOk result IsValid }
{
    let registry = registry(alloc)?;
    let kt = template_by_name(&registry, template)?;
    let handle = insecure::valid_handle(alloc, keyset)?;
    with_further_key(alloc, handle, kt, &registry, draws)
}

// A keyset with a new key beside its primary one.
fn with_further_key(
    alloc: Global,
    handle: Handle,
    kt: &KeyTemplate,
    registry: &Registry<Managers>,
    draws: &mut Draws,
) -> Result<Keyset, TinkError>
    requires { registry.now ≡ with_everything }
    ensures answer { Answers result (grown_beside kt.now draws.old handle) }
    ensures rest { LeavesDraws result (left_beside kt.now draws.old handle) draws.old draws.new }
    ensures valid { IsValid handle → IfOk result IsValid }
{
    let keyset = insecure::keyset_material(alloc, &handle)?;
    if !has_a_primary(&keyset) {
        return Err(TinkError::new(Kind::NoPrimary));
    }
    with_new_key(
        alloc,
        Manager::new_from_handle(handle),
        kt,
        registry,
        draws,
        false,
    )
}

// Whether an enabled key is the primary one.
fn has_a_primary(keyset: &Keyset) -> bool
    ensures { result ≡ has_a_primary keyset.now }
{
    some_is_primary(keyset.primary_key_id, keyset.key.as_slice())
}

fn some_is_primary(id: u32, keys: &[Key]) -> bool
    ensures { result ≡ list_any (is_enabled_with id) keys.now }
{
    keys.iter().any(|key| is_enabled_with(id, key))
}

fn is_enabled_with(id: u32, key: &Key) -> bool
    ensures { result ≡ is_enabled_with id key.now }
{
    is_enabled(key) && key.key_id == id
}

/// `rotate`, if no enabled key of the keyset is of another primitive than the template's keys.
///
/// # Errors
/// Those of `rotate`; after `InvalidKeyset` `WrongPrimitive` exactly if an enabled key is of another primitive: a
/// keyset of two primitives loads as neither. 576 random bytes are enough.
pub fn rotate_alike(
    alloc: Global,
    keyset: &[u8],
    template: &str,
    draws: &mut Draws,
) -> Result<Keyset, TinkError>
    ensures answer { Answers result (rotated_alike_by template.now (valid_keyset keyset.now) draws.old) }
    ensures rest { LeavesDraws result (left_alike_by template.now (valid_keyset keyset.now) draws.old) draws.old draws.new }
    ensures valid { IfOk result IsValid }
    ensures cause { 576 ≤ length draws.old
        → IfErr result (λ e. (e.kind ≡ OutOfMemory) ⊎ IsNotAlike template.now (valid_keyset keyset.now) e.kind) }
{
    grow_alike(alloc, keyset, template, draws)
}

// The same, whose cause follows from its answer.
fn grow_alike(
    alloc: Global,
    keyset: &[u8],
    template: &str,
    draws: &mut Draws,
) -> Result<Keyset, TinkError>
    ensures answer { Answers result (rotated_alike_by template.now (valid_keyset keyset.now) draws.old) }
    ensures rest { LeavesDraws result (left_alike_by template.now (valid_keyset keyset.now) draws.old) draws.old draws.new }
    ensures valid { IfOk result IsValid }
{
    let registry = registry(alloc)?;
    let kt = template_by_name(&registry, template)?;
    let handle = insecure::valid_handle(alloc, keyset)?;
    with_like_key(alloc, handle, kt, &registry, draws)
}

// A keyset with a new key as its primary one, unless it is of another primitive.
fn with_like_key(
    alloc: Global,
    handle: Handle,
    kt: &KeyTemplate,
    registry: &Registry<Managers>,
    draws: &mut Draws,
) -> Result<Keyset, TinkError>
    requires { registry.now ≡ with_everything }
    ensures answer { Answers result (rotated_alike kt.now draws.old handle) }
    ensures rest { LeavesDraws result (left_alike kt.now draws.old handle) draws.old draws.new }
    ensures valid { IsValid handle → IfOk result IsValid }
{
    let keyset = insecure::keyset_material(alloc, &handle)?;
    if !is_alike(&keyset, kt) {
        return Err(TinkError::new(Kind::WrongPrimitive));
    }
    with_new_key(
        alloc,
        Manager::new_from_handle(handle),
        kt,
        registry,
        draws,
        true,
    )
}

/// A keyset of one new key by the template of a name. If an output prefix type is given, it replaces the template's.
/// The key is enabled and the primary one. The random bytes are taken as `keygen` takes them.
///
/// # Errors
/// Those of `keygen`; `UnknownPrefix` exactly if the template is there and the given type is `UnknownPrefix`. 576 random
/// bytes are enough.
pub fn keygen_with_prefix(
    alloc: Global,
    template: &str,
    prefix: Option<OutputPrefixType>,
    draws: &mut Draws,
) -> Result<Keyset, TinkError>
    ensures answer { Answers result (prefixed_by prefix template.now draws.old) }
    ensures rest { LeavesDraws result (left_prefixed_by prefix template.now draws.old) draws.old draws.new }
    ensures valid { IfOk result IsValid }
    ensures cause { 576 ≤ length draws.old
        → IfErr result (λ e. (e.kind ≡ OutOfMemory) ⊎ IsNotPrefixed prefix template.now e.kind) }
{
    make_prefixed(alloc, template, prefix, draws)
}

// The same, whose cause follows from its answer.
fn make_prefixed(
    alloc: Global,
    template: &str,
    prefix: Option<OutputPrefixType>,
    draws: &mut Draws,
) -> Result<Keyset, TinkError>
    ensures answer { Answers result (prefixed_by prefix template.now draws.old) }
    ensures rest { LeavesDraws result (left_prefixed_by prefix template.now draws.old) draws.old draws.new }
    ensures valid { IfOk result IsValid }
{
    let registry = registry(alloc)?;
    let kt = template_by_name(&registry, template)?;
    let kt = with_prefix(alloc, kt, prefix)?;
    with_new_key(alloc, Manager::new(alloc), &kt, &registry, draws, true)
}

// A template with this output prefix type.
fn with_prefix(
    alloc: Global,
    kt: &KeyTemplate,
    prefix: Option<OutputPrefixType>,
) -> Result<KeyTemplate, TinkError>
    ensures { Answers result (Ok (prefixed prefix kt.now)) }
{
    match kt.try_clone(alloc) {
        Ok(mut kt) => {
            if let Some(prefix) = prefix {
                kt.output_prefix_type = prefix as i32;
            }
            Ok(kt)
        }
        Err(_) => Err(TinkError::new(Kind::OutOfMemory)),
    }
}

// The primitive that the keys of a type are.
#[derive(Clone, Copy)]
enum Sort {
    Prf,
    Mac,
    Aead,
    DeterministicAead,
    StreamingAead,
}

// Whether no enabled key of a keyset is of another primitive than a template's keys.
fn is_alike(keyset: &Keyset, kt: &KeyTemplate) -> bool
    ensures { result ≡ is_alike keyset.now kt.now }
{
    !some_is_unlike(keyset.key.as_slice(), kt.type_url.as_str())
}

// Whether some key is enabled, and of another primitive than the keys of a type.
fn some_is_unlike(keys: &[Key], url: &str) -> bool
    ensures { result ≡ list_any (is_unlike url.now) keys.now }
{
    keys.iter().any(|key| is_unlike(key, url))
}

// Whether a key is enabled, and of another primitive than the keys of a type.
fn is_unlike(key: &Key, url: &str) -> bool
    ensures { result ≡ is_unlike url.now key.now }
{
    match &key.key_data {
        Some(data) => { is_enabled(key) && !are_one(sort_of(data.type_url.as_str()), sort_of(url)) }
        None => false,
    }
}

// Whether a key's status is ENABLED.
fn is_enabled(key: &Key) -> bool
    ensures { result ≡ is_enabled key.now }
{
    key.status == KeyStatusType::Enabled as i32
}

// Whether two types of keys are known, and of one primitive.
fn are_one(sort: Option<Sort>, other: Option<Sort>) -> bool
    ensures { result ≡ are_one sort other }
{
    match (sort, other) {
        (Some(Sort::Prf), Some(Sort::Prf)) => true,
        (Some(Sort::Mac), Some(Sort::Mac)) => true,
        (Some(Sort::Aead), Some(Sort::Aead)) => true,
        (Some(Sort::DeterministicAead), Some(Sort::DeterministicAead)) => true,
        (Some(Sort::StreamingAead), Some(Sort::StreamingAead)) => true,
        _ => false,
    }
}

// The primitive of the keys of a type, if it is known here.
fn sort_of(url: &str) -> Option<Sort>
    ensures { result ≡ sort_of url.now }
{
    match url {
        "type.googleapis.com/google.crypto.tink.HkdfPrfKey" => Some(Sort::Prf),
        "type.googleapis.com/google.crypto.tink.HmacPrfKey" => Some(Sort::Prf),
        "type.googleapis.com/google.crypto.tink.AesCmacPrfKey" => Some(Sort::Prf),
        "type.googleapis.com/google.crypto.tink.HmacKey" => Some(Sort::Mac),
        "type.googleapis.com/google.crypto.tink.AesCmacKey" => Some(Sort::Mac),
        "type.googleapis.com/google.crypto.tink.AesGcmKey" => Some(Sort::Aead),
        "type.googleapis.com/google.crypto.tink.AesGcmSivKey" => Some(Sort::Aead),
        "type.googleapis.com/google.crypto.tink.AesCtrHmacAeadKey" => Some(Sort::Aead),
        "type.googleapis.com/google.crypto.tink.AesSivKey" => Some(Sort::DeterministicAead),
        "type.googleapis.com/google.crypto.tink.AesCtrHmacStreamingKey" => Some(
            Sort::StreamingAead,
        ),
        "type.googleapis.com/google.crypto.tink.AesGcmHkdfStreamingKey" => Some(
            Sort::StreamingAead,
        ),
        _ => None,
    }
}
