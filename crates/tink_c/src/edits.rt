//! One key of a keyset is changed, and the keys are listed.

ghost use Rattle.tink_keyset_io.specs.Edited.{edited_file};
ghost use Rattle.tink_keyset_io.specs.declared.key_files.editing.Edit.TheVariants.{Promote, Enable, Disable, Destroy, Delete};
ghost use Rattle.tink_c_bytes.specs.Delivered.{Delivers, handed};
ghost use Rattle.tink_c_edits.specs.FileListed.{listed_file, listed_file_json};

use std::alloc::Global;
use tink_c_bytes::deliver;
use tink_c_edits::edit;
use tink_keyset_io::key_files::Edit;

/// The keyset with the first key of an id as its primary key.
#[unsafe(no_mangle)]
pub extern "C" fn tink_keyset_promote(
    alloc: Global,
    keyset: &[u8],
    id: u32,
    out: &mut [u8],
    written: &mut usize,
) -> u8
    ensures { Delivers (edited_file keyset.now Promote id)
        (handed out.old out.new written.new result) }
{
    deliver(edit(alloc, keyset, Edit::Promote, id), out, written)
}

/// The keyset with the first key of an id enabled.
#[unsafe(no_mangle)]
pub extern "C" fn tink_keyset_enable(
    alloc: Global,
    keyset: &[u8],
    id: u32,
    out: &mut [u8],
    written: &mut usize,
) -> u8
    ensures { Delivers (edited_file keyset.now Enable id)
        (handed out.old out.new written.new result) }
{
    deliver(edit(alloc, keyset, Edit::Enable, id), out, written)
}

/// The keyset with the first key of an id disabled.
#[unsafe(no_mangle)]
pub extern "C" fn tink_keyset_disable(
    alloc: Global,
    keyset: &[u8],
    id: u32,
    out: &mut [u8],
    written: &mut usize,
) -> u8
    ensures { Delivers (edited_file keyset.now Disable id)
        (handed out.old out.new written.new result) }
{
    deliver(edit(alloc, keyset, Edit::Disable, id), out, written)
}

/// The keyset with the material of the first key of an id erased.
#[unsafe(no_mangle)]
pub extern "C" fn tink_keyset_destroy(
    alloc: Global,
    keyset: &[u8],
    id: u32,
    out: &mut [u8],
    written: &mut usize,
) -> u8
    ensures { Delivers (edited_file keyset.now Destroy id)
        (handed out.old out.new written.new result) }
{
    deliver(edit(alloc, keyset, Edit::Destroy, id), out, written)
}

/// The keyset without the first key of an id.
#[unsafe(no_mangle)]
pub extern "C" fn tink_keyset_delete(
    alloc: Global,
    keyset: &[u8],
    id: u32,
    out: &mut [u8],
    written: &mut usize,
) -> u8
    ensures { Delivers (edited_file keyset.now Delete id)
        (handed out.old out.new written.new result) }
{
    deliver(edit(alloc, keyset, Edit::Delete, id), out, written)
}

/// One line a key: id, status, prefix type, type, and which is the primary key. No key material.
#[unsafe(no_mangle)]
pub extern "C" fn tink_keyset_list(
    alloc: Global,
    keyset: &[u8],
    out: &mut [u8],
    written: &mut usize,
) -> u8
    ensures { Delivers (listed_file keyset.now)
        (handed out.old out.new written.new result) }
{
    deliver(tink_c_edits::list(alloc, keyset), out, written)
}

/// The same as an array in JSON.
#[unsafe(no_mangle)]
pub extern "C" fn tink_keyset_list_json(
    alloc: Global,
    keyset: &[u8],
    out: &mut [u8],
    written: &mut usize,
) -> u8
    ensures { Delivers (listed_file_json keyset.now)
        (handed out.old out.new written.new result) }
{
    deliver(tink_c_edits::list_json(alloc, keyset), out, written)
}
