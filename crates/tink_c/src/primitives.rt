//! What the primitives of a keyset answer.

ghost use Rattle.tink_c_bytes.specs.Delivered.{Delivers, Hands, Reports, handed};
ghost use Rattle.tink_c_primitives.specs.Primitives.{PrfGives, PrfRefuses, aead_decrypted, aead_encrypted, daead_decrypted, daead_encrypted, mac_computed, mac_verified};
ghost use Rattle.tink_c_primitives.specs.Tokens.{PayloadGives, PayloadRefuses, TokenGives, TokenRefuses};

use std::alloc::Global;
use tink_c_bytes::{deliver, report};

/// The ciphertext by the primary key of a keyset of AEADs.
#[unsafe(no_mangle)]
pub extern "C" fn tink_encrypt(
    alloc: Global,
    keyset: &[u8],
    plaintext: &[u8],
    associated_data: &[u8],
    random: &[u8],
    out: &mut [u8],
    written: &mut usize,
) -> u8
    ensures { Delivers (aead_encrypted keyset.now plaintext.now associated_data.now random.now)
        (handed out.old out.new written.new result) }
{
    deliver(
        tink_c_primitives::aead_encrypt(alloc, keyset, plaintext, associated_data, random),
        out,
        written,
    )
}

/// The plaintext by a key of a keyset of AEADs.
#[unsafe(no_mangle)]
pub extern "C" fn tink_decrypt(
    alloc: Global,
    keyset: &[u8],
    ciphertext: &[u8],
    associated_data: &[u8],
    out: &mut [u8],
    written: &mut usize,
) -> u8
    ensures { Delivers (aead_decrypted keyset.now ciphertext.now associated_data.now)
        (handed out.old out.new written.new result) }
{
    deliver(
        tink_c_primitives::aead_decrypt(alloc, keyset, ciphertext, associated_data),
        out,
        written,
    )
}

/// The ciphertext by the primary key of a keyset of deterministic AEADs: equal bytes for equal plaintexts and data.
#[unsafe(no_mangle)]
pub extern "C" fn tink_encrypt_deterministically(
    alloc: Global,
    keyset: &[u8],
    plaintext: &[u8],
    associated_data: &[u8],
    out: &mut [u8],
    written: &mut usize,
) -> u8
    ensures { Delivers (daead_encrypted keyset.now plaintext.now associated_data.now)
        (handed out.old out.new written.new result) }
{
    deliver(
        tink_c_primitives::daead_encrypt(alloc, keyset, plaintext, associated_data),
        out,
        written,
    )
}

/// The plaintext by a key of a keyset of deterministic AEADs.
#[unsafe(no_mangle)]
pub extern "C" fn tink_decrypt_deterministically(
    alloc: Global,
    keyset: &[u8],
    ciphertext: &[u8],
    associated_data: &[u8],
    out: &mut [u8],
    written: &mut usize,
) -> u8
    ensures { Delivers (daead_decrypted keyset.now ciphertext.now associated_data.now)
        (handed out.old out.new written.new result) }
{
    deliver(
        tink_c_primitives::daead_decrypt(alloc, keyset, ciphertext, associated_data),
        out,
        written,
    )
}

/// The MAC of a message by the primary key of a keyset of MACs.
#[unsafe(no_mangle)]
pub extern "C" fn tink_compute_mac(
    alloc: Global,
    keyset: &[u8],
    message: &[u8],
    out: &mut [u8],
    written: &mut usize,
) -> u8
    ensures { Delivers (mac_computed keyset.now message.now)
        (handed out.old out.new written.new result) }
{
    deliver(
        tink_c_primitives::mac_compute(alloc, keyset, message),
        out,
        written,
    )
}

/// 0 if a key of a keyset of MACs accepts the MAC for the message.
#[unsafe(no_mangle)]
pub extern "C" fn tink_verify_mac(alloc: Global, keyset: &[u8], mac: &[u8], message: &[u8]) -> u8
    ensures { Reports (mac_verified keyset.now mac.now message.now) result }
{
    report(tink_c_primitives::mac_verify(alloc, keyset, mac, message))
}

/// The first bytes of the primary pseudorandom function of a keyset for an input.
#[unsafe(no_mangle)]
pub extern "C" fn tink_compute_prf(
    alloc: Global,
    keyset: &[u8],
    input: &[u8],
    output_length: usize,
    out: &mut [u8],
    written: &mut usize,
) -> u8
    ensures { Hands (PrfGives keyset.now input.now output_length) (PrfRefuses keyset.now input.now output_length)
        (handed out.old out.new written.new result) }
{
    deliver(
        tink_c_primitives::prf_compute(alloc, keyset, input, output_length),
        out,
        written,
    )
}

/// The token of a payload by the primary key of a keyset of MACs.
#[unsafe(no_mangle)]
pub extern "C" fn tink_sign_token(
    alloc: Global,
    keyset: &[u8],
    payload: &[u8],
    out: &mut [u8],
    written: &mut usize,
) -> u8
    ensures { Hands (TokenGives keyset.now payload.now) (TokenRefuses keyset.now payload.now)
        (handed out.old out.new written.new result) }
{
    deliver(
        tink_c_primitives::token_sign(alloc, keyset, payload),
        out,
        written,
    )
}

/// The payload of a token whose MAC a key of a keyset of MACs accepts.
#[unsafe(no_mangle)]
pub extern "C" fn tink_verify_token(
    alloc: Global,
    keyset: &[u8],
    token: &[u8],
    out: &mut [u8],
    written: &mut usize,
) -> u8
    ensures { Hands (PayloadGives keyset.now token.now) (PayloadRefuses keyset.now token.now)
        (handed out.old out.new written.new result) }
{
    deliver(
        tink_c_primitives::token_verify(alloc, keyset, token),
        out,
        written,
    )
}
