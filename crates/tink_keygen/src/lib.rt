//! New and rotated keysets, by the name of a template.
#![tactic(auto)]

ghost use Rattle.std.specs.Prelude.{◌≡◌, ◌⊎◌, ◌≤◌, None, Some, Ok, IfOk, IfErr, IsTrue, MatchResult, false, length, true};
ghost use Rattle.tink_io.specs.declared.error.Kind.TheVariants.{OutOfMemory, UnknownTemplate};
ghost use Rattle.tink_io.specs.Answering.{Answers};
ghost use Rattle.keyset_model.specs.Validity.{IsValid, are_well_formed, has_a_primary};
ghost use Rattle.tink_keysets.specs.Managed.{no_keys};
ghost use Rattle.tink_keygen.specs.NamedTemplates.{template_named};
ghost use Rattle.tink.specs.Registered.{with_everything};
ghost use Rattle.tink_keygen.specs.Rotating.{IsNotRotated, grown, key_line, left_by, left_grown, rotated_by};
ghost use Rattle.tink_keysets.specs.Through.{LeavesDraws};
ghost use Rattle.tink_keysets.specs.Valid.{valid_keyset};

mod growing;
mod listing;

pub use growing::{add, keygen_with_prefix, rotate_alike};
pub use listing::template_lines;
use std::alloc::Global;
use tink::{Managers, registry};
use tink_io::{Draws, Kind, TinkError};
use tink_keysets::keyset::{Manager, insecure};
use tink_proto::{KeyTemplate, Keyset, Message};
use tink_registry::Registry;

/// A keyset of one new key by the template of a name. The key is enabled and the primary one. Its bytes are drawn
/// first, at most 64 of them, then ids of four draws, at most 128, until one isn't 0.
///
/// # Errors
/// `UnknownTemplate` exactly if `tink::registry` has no template of the name. `NoFreshId` exactly if all 128 ids were
/// 0. `RandomFault` if draws are too few: 576 are enough. `OutOfMemory` may come in place of each.
pub fn keygen(alloc: Global, template: &str, draws: &mut Draws) -> Result<Keyset, TinkError>
    ensures answer { Answers result (rotated_by template.now (Ok no_keys) draws.old) }
    ensures rest { LeavesDraws result (left_by template.now (Ok no_keys) draws.old) draws.old draws.new }
    ensures valid { IfOk result IsValid }
    ensures cause { 576 ≤ length draws.old
        → IfErr result (λ e. (e.kind ≡ OutOfMemory) ⊎ IsNotRotated template.now (Ok no_keys) e.kind) }
{
    new_keyset(alloc, template, draws)
}

/// The keyset that bytes spell in the wire format, with a new key by the template of a name at its end. The key is
/// enabled and the primary one, and the other keys stay as they are. Draws are taken as `keygen` takes them, until an
/// id isn't 0 and no key has it.
///
/// # Errors
/// The first that applies: `UnknownTemplate` exactly if `tink::registry` has no template of the name. `BadKeyset`
/// exactly if the bytes spell no keyset, and `InvalidKeyset` exactly if it is not valid. `NoFreshId` exactly if all
/// 128 ids were 0 or in use. `RandomFault` if draws are too few: 576 are enough. `OutOfMemory` may come in place of
/// each.
pub fn rotate(
    alloc: Global,
    keyset: &[u8],
    template: &str,
    draws: &mut Draws,
) -> Result<Keyset, TinkError>
    ensures answer { Answers result (rotated_by template.now (valid_keyset keyset.now) draws.old) }
    ensures rest { LeavesDraws result (left_by template.now (valid_keyset keyset.now) draws.old) draws.old draws.new }
    ensures valid { IfOk result IsValid }
    ensures cause { 576 ≤ length draws.old
        → IfErr result (λ e. (e.kind ≡ OutOfMemory) ⊎ IsNotRotated template.now (valid_keyset keyset.now) e.kind) }
{
    rotated_keyset(alloc, keyset, template, draws)
}

/// A keyset's bytes in the wire format in lower-case hexadecimal digits, and a newline.
///
/// # Errors
/// `OutOfMemory` alone.
pub fn key_line(alloc: Global, keyset: &Keyset) -> Result<Vec<u8>, TinkError>
    ensures line { IfOk result (λ v. v.items ≡ key_line keyset.now) }
    ensures err { IfErr result (λ e. e ≡ record { kind = OutOfMemory }) }
{
    let Ok(bytes) = keyset.encode(alloc) else {
        return Err(TinkError::new(Kind::OutOfMemory));
    };
    let mut line = hex::encode(alloc, bytes.as_slice())?.into_bytes();
    line.push(b'\n')?;
    Ok(line)
}

// What `keygen` answers. Its causes follow from this.
fn new_keyset(alloc: Global, template: &str, draws: &mut Draws) -> Result<Keyset, TinkError>
    ensures answer { Answers result (rotated_by template.now (Ok no_keys) draws.old) }
    ensures rest { LeavesDraws result (left_by template.now (Ok no_keys) draws.old) draws.old draws.new }
    ensures valid { IfOk result IsValid }
{
    let registry = registry(alloc)?;
    let kt = template_by_name(&registry, template)?;
    with_new_key(alloc, Manager::new(alloc), kt, &registry, draws, true)
}

// What `rotate` answers. Its causes follow from this.
fn rotated_keyset(
    alloc: Global,
    keyset: &[u8],
    template: &str,
    draws: &mut Draws,
) -> Result<Keyset, TinkError>
    ensures answer { Answers result (rotated_by template.now (valid_keyset keyset.now) draws.old) }
    ensures rest { LeavesDraws result (left_by template.now (valid_keyset keyset.now) draws.old) draws.old draws.new }
    ensures valid { IfOk result IsValid }
{
    let registry = registry(alloc)?;
    let kt = template_by_name(&registry, template)?;
    let handle = insecure::valid_handle(alloc, keyset)?;
    with_new_key(
        alloc,
        Manager::new_from_handle(handle),
        kt,
        &registry,
        draws,
        true,
    )
}

// The registered template of a name.
fn template_by_name<'r>(
    registry: &'r Registry<Managers>,
    name: &str,
) -> Result<&'r KeyTemplate, TinkError>
    requires { registry.now ≡ with_everything }
    ensures { MatchResult result (λ kt. template_named name.now ≡ Some kt.now)
        (λ e. (e.kind ≡ UnknownTemplate) × (template_named name.now ≡ None)) }
{
    match registry.get_template_generator(name) {
        Some(kt) => Ok(kt),
        None => Err(TinkError::new(Kind::UnknownTemplate)),
    }
}

// A manager's keyset with a new key by a template, as its primary one or not.
fn with_new_key(
    alloc: Global,
    manager: Manager,
    kt: &KeyTemplate,
    registry: &Registry<Managers>,
    draws: &mut Draws,
    as_primary: bool,
) -> Result<Keyset, TinkError>
    requires { registry.now ≡ with_everything }
    ensures answer { Answers result (grown as_primary kt.now draws.old manager) }
    ensures rest { LeavesDraws result (left_grown as_primary kt.now draws.old manager) draws.old draws.new }
    ensures valid { as_primary ≡ true → IsTrue (are_well_formed manager) → IfOk result IsValid }
    ensures beside { as_primary ≡ false → IsValid manager → IsTrue (has_a_primary manager) → IfOk result IsValid }
{
    let mut manager = manager;
    manager.add(alloc, kt, registry, draws, as_primary)?;
    let handle = manager.handle(alloc)?;
    insecure::keyset_material(alloc, &handle)
}
