//! Objects: the primitives of a keyset, which are loaded once and asked often. No call but `_new` and `_free` changes what an
//! object holds.

ghost use Rattle.std.specs.Prelude.{◌≡◌, None};
ghost use Rattle.tink_sets.specs.Groups.{group_of};
ghost use Rattle.tink_keysets.specs.Decrypting.{any_decrypts};
ghost use Rattle.tink_prf.specs.PrfKinds.{kind_output};
ghost use Rattle.tink_prf.specs.Sets.{primary_output};
ghost use Rattle.tink_mac.specs.MacKinds.{kind_computes, kind_verifies};
ghost use Rattle.tink_mac.specs.Wrapped.{any_verifies, primary_mac};
ghost use Rattle.tink_daead.specs.AesSiv.{aes_siv_decrypts, aes_siv_encrypts};
ghost use Rattle.tink_daead.specs.Wrapped as daeads;
ghost use Rattle.tink_aead.specs.AeadKinds.{kind_decrypts, kind_encrypts};
ghost use Rattle.tink_aead.specs.Wrapped as aeads;
ghost use Rattle.tink_tokens.specs.TokenSteps.{AreLoadedMacs};
ghost use Rattle.tink_c_bytes.specs.Delivered.{Delivers, Hands, Reports, handed};
ghost use Rattle.tink_c_primitives.specs.Primitives.{ArePrfs, IsAead, IsDaead, aeads_of, daeads_of, macs_of_file, prfs_of_file};
ghost use Rattle.tink_c_objects.specs.declared.object.Object.TheVariants.{Aead, Daead, Mac, Prfs};
ghost use Rattle.tink_c_objects.specs.Objects.{Fills, Signs, SignsNot, Verifies, VerifiesNot, by_aead, by_daead, by_mac, by_prfs, held_by};

use std::alloc::Global;
use tink_c_bytes::{deliver, report};
use tink_c_objects::Owner;

/// Fills an object with the AEADs of a keyset. What it held before is freed.
#[unsafe(no_mangle)]
pub extern "C" fn tink_aead_new(alloc: Global, keyset: &[u8], object: &mut Owner) -> u8
    ensures { Fills IsAead Aead (aeads_of keyset.now) (held_by object.old) (held_by object.new) result }
{
    tink_c_objects::fill_aead(alloc, object, keyset)
}

/// The ciphertext by the primary key.
#[unsafe(no_mangle)]
pub extern "C" fn tink_aead_encrypt(
    alloc: Global,
    object: &mut Owner,
    plaintext: &[u8],
    associated_data: &[u8],
    random: &[u8],
    out: &mut [u8],
    written: &mut usize,
) -> u8
    ensures answer { Delivers (by_aead (λ w. (aeads.primary_encrypts kind_encrypts w.ps.primary plaintext.now associated_data.now random.now).0) (held_by object.old))
        (handed out.old out.new written.new result) }
    ensures kept { held_by object.new ≡ held_by object.old }
{
    deliver(
        tink_c_objects::aead_encrypt(alloc, object, plaintext, associated_data, random),
        out,
        written,
    )
}

/// The plaintext by any key.
#[unsafe(no_mangle)]
pub extern "C" fn tink_aead_decrypt(
    alloc: Global,
    object: &mut Owner,
    ciphertext: &[u8],
    associated_data: &[u8],
    out: &mut [u8],
    written: &mut usize,
) -> u8
    ensures answer { Delivers (by_aead (λ w. any_decrypts kind_decrypts (group_of w.ps.entries) ciphertext.now associated_data.now) (held_by object.old))
        (handed out.old out.new written.new result) }
    ensures kept { held_by object.new ≡ held_by object.old }
{
    deliver(
        tink_c_objects::aead_decrypt(alloc, object, ciphertext, associated_data),
        out,
        written,
    )
}

/// Frees what an object of AEADs holds.
#[unsafe(no_mangle)]
pub extern "C" fn tink_aead_free(alloc: Global, object: &mut Owner)
    ensures { held_by object.new ≡ None }
{
    object.free(alloc);
}

/// Fills an object with the deterministic AEADs of a keyset. What it held before is freed.
#[unsafe(no_mangle)]
pub extern "C" fn tink_daead_new(alloc: Global, keyset: &[u8], object: &mut Owner) -> u8
    ensures { Fills IsDaead Daead (daeads_of keyset.now) (held_by object.old) (held_by object.new) result }
{
    tink_c_objects::fill_daead(alloc, object, keyset)
}

/// The ciphertext by the primary key.
#[unsafe(no_mangle)]
pub extern "C" fn tink_daead_encrypt(
    alloc: Global,
    object: &mut Owner,
    plaintext: &[u8],
    associated_data: &[u8],
    out: &mut [u8],
    written: &mut usize,
) -> u8
    ensures answer { Delivers (by_daead (λ w. daeads.primary_encrypts aes_siv_encrypts w.ps.primary plaintext.now associated_data.now) (held_by object.old))
        (handed out.old out.new written.new result) }
    ensures kept { held_by object.new ≡ held_by object.old }
{
    deliver(
        tink_c_objects::daead_encrypt(alloc, object, plaintext, associated_data),
        out,
        written,
    )
}

/// The plaintext by any key.
#[unsafe(no_mangle)]
pub extern "C" fn tink_daead_decrypt(
    alloc: Global,
    object: &mut Owner,
    ciphertext: &[u8],
    associated_data: &[u8],
    out: &mut [u8],
    written: &mut usize,
) -> u8
    ensures answer { Delivers (by_daead (λ w. any_decrypts aes_siv_decrypts (group_of w.ps.entries) ciphertext.now associated_data.now) (held_by object.old))
        (handed out.old out.new written.new result) }
    ensures kept { held_by object.new ≡ held_by object.old }
{
    deliver(
        tink_c_objects::daead_decrypt(alloc, object, ciphertext, associated_data),
        out,
        written,
    )
}

/// Frees what an object of deterministic AEADs holds.
#[unsafe(no_mangle)]
pub extern "C" fn tink_daead_free(alloc: Global, object: &mut Owner)
    ensures { held_by object.new ≡ None }
{
    object.free(alloc);
}

/// Fills an object with the MACs of a keyset. What it held before is freed.
#[unsafe(no_mangle)]
pub extern "C" fn tink_mac_new(alloc: Global, keyset: &[u8], object: &mut Owner) -> u8
    ensures { Fills AreLoadedMacs Mac (macs_of_file keyset.now) (held_by object.old) (held_by object.new) result }
{
    tink_c_objects::fill_mac(alloc, object, keyset)
}

/// The MAC of a message by the primary key.
#[unsafe(no_mangle)]
pub extern "C" fn tink_mac_compute(
    alloc: Global,
    object: &mut Owner,
    message: &[u8],
    out: &mut [u8],
    written: &mut usize,
) -> u8
    ensures answer { Delivers (by_mac (λ w. primary_mac kind_computes w.ps.primary message.now) (held_by object.old))
        (handed out.old out.new written.new result) }
    ensures kept { held_by object.new ≡ held_by object.old }
{
    deliver(
        tink_c_objects::mac_compute(alloc, object, message),
        out,
        written,
    )
}

/// 0 if a key accepts the MAC for the message.
#[unsafe(no_mangle)]
pub extern "C" fn tink_mac_verify(
    alloc: Global,
    object: &mut Owner,
    mac: &[u8],
    message: &[u8],
) -> u8
    ensures answer { Reports (by_mac (λ w. any_verifies kind_verifies (group_of w.ps.entries) mac.now message.now)
        (held_by object.old)) result }
    ensures kept { held_by object.new ≡ held_by object.old }
{
    report(tink_c_objects::mac_verify(alloc, object, mac, message))
}

/// Frees what an object of MACs holds.
#[unsafe(no_mangle)]
pub extern "C" fn tink_mac_free(alloc: Global, object: &mut Owner)
    ensures { held_by object.new ≡ None }
{
    object.free(alloc);
}

/// Fills an object with the pseudorandom functions of a keyset. What it held before is freed.
#[unsafe(no_mangle)]
pub extern "C" fn tink_prf_new(alloc: Global, keyset: &[u8], object: &mut Owner) -> u8
    ensures { Fills ArePrfs Prfs (prfs_of_file keyset.now) (held_by object.old) (held_by object.new) result }
{
    tink_c_objects::fill_prfs(alloc, object, keyset)
}

/// The first bytes of the primary function for an input.
#[unsafe(no_mangle)]
pub extern "C" fn tink_prf_compute(
    alloc: Global,
    object: &mut Owner,
    input: &[u8],
    output_length: usize,
    out: &mut [u8],
    written: &mut usize,
) -> u8
    ensures answer { Delivers (by_prfs (λ w. primary_output kind_output w input.now output_length) (held_by object.old))
        (handed out.old out.new written.new result) }
    ensures kept { held_by object.new ≡ held_by object.old }
{
    deliver(
        tink_c_objects::prf_compute(alloc, object, input, output_length),
        out,
        written,
    )
}

/// Frees what an object of pseudorandom functions holds.
#[unsafe(no_mangle)]
pub extern "C" fn tink_prf_free(alloc: Global, object: &mut Owner)
    ensures { held_by object.new ≡ None }
{
    object.free(alloc);
}

/// Fills an object with the MACs of a keyset. What it held before is freed.
#[unsafe(no_mangle)]
pub extern "C" fn tink_signer_new(alloc: Global, keyset: &[u8], object: &mut Owner) -> u8
    ensures { Fills AreLoadedMacs Mac (macs_of_file keyset.now) (held_by object.old) (held_by object.new) result }
{
    tink_c_objects::fill_mac(alloc, object, keyset)
}

/// The token of a payload by the primary key.
#[unsafe(no_mangle)]
pub extern "C" fn tink_signer_sign(
    alloc: Global,
    object: &mut Owner,
    payload: &[u8],
    out: &mut [u8],
    written: &mut usize,
) -> u8
    ensures answer { Hands (Signs (held_by object.old) payload.now) (SignsNot (held_by object.old) payload.now)
        (handed out.old out.new written.new result) }
    ensures kept { held_by object.new ≡ held_by object.old }
{
    deliver(
        tink_c_objects::token_sign(alloc, object, payload),
        out,
        written,
    )
}

/// The payload of a token whose MAC a key accepts.
#[unsafe(no_mangle)]
pub extern "C" fn tink_signer_verify(
    alloc: Global,
    object: &mut Owner,
    token: &[u8],
    out: &mut [u8],
    written: &mut usize,
) -> u8
    ensures answer { Hands (Verifies (held_by object.old) token.now) (VerifiesNot (held_by object.old) token.now)
        (handed out.old out.new written.new result) }
    ensures kept { held_by object.new ≡ held_by object.old }
{
    deliver(
        tink_c_objects::token_verify(alloc, object, token),
        out,
        written,
    )
}

/// Frees what an object of MACs that sign tokens holds.
#[unsafe(no_mangle)]
pub extern "C" fn tink_signer_free(alloc: Global, object: &mut Owner)
    ensures { held_by object.new ≡ None }
{
    object.free(alloc);
}
