//! Keysets: made, grown by a new key, converted, and encrypted under a master.

ghost use Rattle.std.specs.Prelude.{None};
ghost use Rattle.tink_cli_files.specs.Saved.{added_file, converted_file, new_file, rotated_file};
ghost use Rattle.tink_c_bytes.specs.Delivered.{Delivers, handed};
ghost use Rattle.tink_c_keysets.specs.Formats.{format_by, unwrapped_under, wrapped_under};

use std::alloc::Global;
use tink_c_bytes::deliver;

/// A new keyset with one key by the template of a name, in JSON or in the wire format.
#[unsafe(no_mangle)]
pub extern "C" fn tink_keyset_create(
    alloc: Global,
    template: &[u8],
    json: bool,
    random: &[u8],
    out: &mut [u8],
    written: &mut usize,
) -> u8
    ensures { Delivers (new_file template.now None (format_by json) random.now)
        (handed out.old out.new written.new result) }
{
    deliver(
        tink_c_keysets::create(alloc, template, json, random),
        out,
        written,
    )
}

/// The keyset with a new primary key by the template of a name, in the format that it has. The other keys stay. Only if
/// `to_any`, an enabled key may be of another primitive.
#[unsafe(no_mangle)]
pub extern "C" fn tink_keyset_rotate(
    alloc: Global,
    keyset: &[u8],
    template: &[u8],
    to_any: bool,
    random: &[u8],
    out: &mut [u8],
    written: &mut usize,
) -> u8
    ensures { Delivers (rotated_file keyset.now template.now to_any random.now)
        (handed out.old out.new written.new result) }
{
    deliver(
        tink_c_keysets::rotate(alloc, keyset, template, to_any, random),
        out,
        written,
    )
}

/// The keyset with a new key by the template of a name, in the format that it has. The primary key stays.
#[unsafe(no_mangle)]
pub extern "C" fn tink_keyset_add(
    alloc: Global,
    keyset: &[u8],
    template: &[u8],
    random: &[u8],
    out: &mut [u8],
    written: &mut usize,
) -> u8
    ensures { Delivers (added_file keyset.now template.now random.now)
        (handed out.old out.new written.new result) }
{
    deliver(
        tink_c_keysets::add(alloc, keyset, template, random),
        out,
        written,
    )
}

/// The valid keyset in JSON or in the wire format.
#[unsafe(no_mangle)]
pub extern "C" fn tink_keyset_convert(
    alloc: Global,
    keyset: &[u8],
    json: bool,
    out: &mut [u8],
    written: &mut usize,
) -> u8
    ensures { Delivers (converted_file keyset.now (format_by json))
        (handed out.old out.new written.new result) }
{
    deliver(tink_c_keysets::convert(alloc, keyset, json), out, written)
}

/// The keyset, encrypted by the primary key of a master keyset of AEADs, in JSON or in the wire format.
#[unsafe(no_mangle)]
pub extern "C" fn tink_keyset_wrap(
    alloc: Global,
    master: &[u8],
    keyset: &[u8],
    associated_data: &[u8],
    json: bool,
    random: &[u8],
    out: &mut [u8],
    written: &mut usize,
) -> u8
    ensures { Delivers (wrapped_under master.now keyset.now associated_data.now json random.now)
        (handed out.old out.new written.new result) }
{
    deliver(
        tink_c_keysets::wrap(alloc, master, keyset, associated_data, json, random),
        out,
        written,
    )
}

/// The keyset that a key of a master keyset decrypts, in JSON or in the wire format.
#[unsafe(no_mangle)]
pub extern "C" fn tink_keyset_unwrap(
    alloc: Global,
    master: &[u8],
    wrapped: &[u8],
    associated_data: &[u8],
    json: bool,
    out: &mut [u8],
    written: &mut usize,
) -> u8
    ensures { Delivers (unwrapped_under master.now wrapped.now associated_data.now json)
        (handed out.old out.new written.new result) }
{
    deliver(
        tink_c_keysets::unwrap(alloc, master, wrapped, associated_data, json),
        out,
        written,
    )
}
