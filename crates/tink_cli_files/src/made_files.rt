//! Files of keys are made, grown by a new key, and converted, as bytes.

ghost use Rattle.std.specs.Prelude.{◌≡◌, Ok, Err, MatchResult};
ghost use Rattle.tink_io.specs.Answering.{Answers};
ghost use Rattle.tink_keysets.specs.Through.{LeavesDraws};
ghost use Rattle.tink_cli_files.specs.Masters.{valid_in_file};
ghost use Rattle.tink_cli_files.specs.Saved.{added_file, converted_file, grown_as, grown_file, grown_keyset, grown_named, growth_of, left_as, left_of_growth, left_of_name, left_of_new, name_of, new_file, rotated_file};
ghost use Rattle.tink_cli_files.specs.declared.made_files.Growth.TheVariants.{Add};

use crate::under_master::valid_in_file;
use std::alloc::Global;
use tink_io::{Draws, Kind, TinkError};
use tink_keygen::{add, keygen_with_prefix, rotate, rotate_alike};
use tink_keyset_io::key_files::{Format, as_file, wire_bytes};
use tink_keysets::keyset::insecure;
use tink_proto::{Bytes, Keyset, OutputPrefixType};

// How a file of keys gets a new key.
#[derive(Clone, Copy)]
enum Growth {
    // The primary key stays.
    Add,
    // The new key is the primary one, and no enabled key is of another primitive.
    Rotate,
    // The new key is the primary one, whatever the others are.
    RotateToAny,
}

/// The file of one new key by the template of a name, in this format. If an output prefix type is given, the key has it in
/// place of the template's. The key is enabled and the primary one.
///
/// # Errors
/// `UnknownTemplate` also if the name is no UTF-8; else those of `keygen` of `tink_keygen`; then those of `as_file`.
pub fn new_file(
    alloc: Global,
    template: &[u8],
    prefix: Option<OutputPrefixType>,
    format: Format,
    draws: &mut Draws,
) -> Result<Bytes, TinkError>
    ensures answer { Answers result (new_file template.now prefix format draws.old) }
    ensures rest { LeavesDraws result (left_of_new template.now prefix draws.old) draws.old draws.new }
{
    let name = name_of(template)?;
    let keyset = keygen_with_prefix(alloc, name, prefix, draws)?;
    as_file(alloc, format, &keyset)
}

/// A file with a new primary key by the template of a name, in its own format. The other keys stay. Only if `to_any`, an
/// enabled key may be of another primitive.
///
/// # Errors
/// The first that applies: those of `wire_bytes`; `UnknownTemplate` also if the name is no UTF-8; those of `rotate` of
/// `tink_keygen` if `to_any`, and else those of `rotate_alike`; those of `as_file`.
pub fn rotated_file(
    alloc: Global,
    file: Vec<u8>,
    template: &[u8],
    to_any: bool,
    draws: &mut Draws,
) -> Result<Bytes, TinkError>
    ensures answer { Answers result (rotated_file file.items template.now to_any draws.old) }
    ensures rest { LeavesDraws result (left_of_growth (growth_of to_any) file.items template.now draws.old) draws.old draws.new }
{
    grown_file(alloc, file, template, growth_of(to_any), draws)
}

/// A file with a new key by the template of a name at its end, in its own format. The primary key and the other keys stay.
///
/// # Errors
/// Those of `rotated_file` with `to_any`, but those of `add` in place of `rotate`: after `InvalidKeyset` `NoPrimary` exactly if
/// the keyset has no primary key.
pub fn added_file(
    alloc: Global,
    file: Vec<u8>,
    template: &[u8],
    draws: &mut Draws,
) -> Result<Bytes, TinkError>
    ensures answer { Answers result (added_file file.items template.now draws.old) }
    ensures rest { LeavesDraws result (left_of_growth Add file.items template.now draws.old) draws.old draws.new }
{
    grown_file(alloc, file, template, Growth::Add, draws)
}

/// The keyset of a file as a file of this format.
///
/// # Errors
/// The first that applies: those of `wire_bytes`. `BadKeyset` exactly if the file is not JSON by its first byte, and spells no
/// keyset. `InvalidKeyset` exactly if the keyset is not valid; those of `as_file`. `OutOfMemory` may come in place of each.
pub fn converted_file(alloc: Global, file: Vec<u8>, format: Format) -> Result<Bytes, TinkError>
    ensures { Answers result (converted_file file.items format) }
{
    let keyset = valid_keyset_of(alloc, file)?;
    as_file(alloc, format, &keyset)
}

// The valid keyset of a file.
fn valid_keyset_of(alloc: Global, file: Vec<u8>) -> Result<Keyset, TinkError>
    ensures { Answers result (valid_in_file file.items) }
{
    let handle = valid_in_file(alloc, file)?;
    insecure::keyset_material(alloc, &handle)
}

// How a key that becomes the primary one comes in.
fn growth_of(to_any: bool) -> Growth
    ensures { result ≡ growth_of to_any }
{
    if to_any {
        Growth::RotateToAny
    } else {
        Growth::Rotate
    }
}

// The text of a template's name.
fn name_of(template: &[u8]) -> Result<&str, TinkError>
    ensures { MatchResult result (λ name. name_of template.now ≡ Ok name.now)
        (λ e. name_of template.now ≡ Err e.kind) }
{
    match str::from_utf8(template) {
        Ok(name) => Ok(name),
        Err(_) => Err(TinkError::new(Kind::UnknownTemplate)),
    }
}

// The file with a new key.
fn grown_file(
    alloc: Global,
    file: Vec<u8>,
    template: &[u8],
    growth: Growth,
    draws: &mut Draws,
) -> Result<Bytes, TinkError>
    ensures answer { Answers result (grown_file growth file.items template.now draws.old) }
    ensures rest { LeavesDraws result (left_of_growth growth file.items template.now draws.old) draws.old draws.new }
{
    let format = Format::of_file(&file);
    let keyset = grown_keyset(alloc, file, template, growth, draws)?;
    as_file(alloc, format, &keyset)
}

// The keyset of a file with a new key.
fn grown_keyset(
    alloc: Global,
    file: Vec<u8>,
    template: &[u8],
    growth: Growth,
    draws: &mut Draws,
) -> Result<Keyset, TinkError>
    ensures answer { Answers result (grown_keyset growth file.items template.now draws.old) }
    ensures rest { LeavesDraws result (left_of_growth growth file.items template.now draws.old) draws.old draws.new }
{
    let keyset = wire_bytes(alloc, file)?;
    grown_named(alloc, keyset.as_slice(), template, growth, draws)
}

// The keyset that bytes spell, with a new key by the template whose name other bytes are.
fn grown_named(
    alloc: Global,
    keyset: &[u8],
    template: &[u8],
    growth: Growth,
    draws: &mut Draws,
) -> Result<Keyset, TinkError>
    ensures answer { Answers result (grown_named growth keyset.now template.now draws.old) }
    ensures rest { LeavesDraws result (left_of_name growth keyset.now template.now draws.old) draws.old draws.new }
{
    let name = name_of(template)?;
    grow_keyset(alloc, keyset, name, growth, draws)
}

// The keyset that bytes spell, with a new key by the template of a name.
fn grow_keyset(
    alloc: Global,
    keyset: &[u8],
    name: &str,
    growth: Growth,
    draws: &mut Draws,
) -> Result<Keyset, TinkError>
    ensures answer { Answers result (grown_as growth keyset.now draws.old name.now) }
    ensures rest { LeavesDraws result (left_as growth keyset.now draws.old name.now) draws.old draws.new }
{
    match growth {
        Growth::Add => add(alloc, keyset, name, draws),
        Growth::Rotate => rotate_alike(alloc, keyset, name, draws),
        Growth::RotateToAny => rotate(alloc, keyset, name, draws),
    }
}
