//! Templates of keys for pseudorandom functions.

ghost use Rattle.std.specs.Prelude.{◌≡◌, Ok};
ghost use Rattle.tink_io.specs.Answering.{Answers};
ghost use Rattle.tink_proto.specs.declared.enums.HashType.TheVariants as types;
ghost use Rattle.tink_prf.specs.Templates.{aes_cmac_prf_template, hkdf_prf_template, hmac_prf_template};

use crate::{
    AES_CMAC_PRF_KEY_VERSION, AES_CMAC_PRF_TYPE_URL, HKDF_PRF_KEY_VERSION, HKDF_PRF_TYPE_URL,
    HMAC_PRF_KEY_VERSION, HMAC_PRF_TYPE_URL,
};
use std::alloc::Global;
use tink_io::TinkError;
use tink_key_manager::new_template;
use tink_proto::{Bytes, HashType, KeyTemplate, OutputPrefixType};
use tink_proto_keys::{
    AesCmacPrfKeyFormat, HkdfPrfKeyFormat, HkdfPrfParams, HmacPrfKeyFormat, HmacPrfParams,
};

/// HMAC keys of 32 bytes with SHA-256, without a prefix.
///
/// # Errors
/// `OutOfMemory` alone.
pub fn hmac_sha256_prf_key_template(alloc: Global) -> Result<KeyTemplate, TinkError>
    ensures { Answers result (Ok (hmac_prf_template 32 types.Sha256)) }
{
    create_hmac_prf_key_template(alloc, 32, HashType::Sha256)
}

/// HMAC keys of 64 bytes with SHA-512, without a prefix.
///
/// # Errors
/// `OutOfMemory` alone.
pub fn hmac_sha512_prf_key_template(alloc: Global) -> Result<KeyTemplate, TinkError>
    ensures { Answers result (Ok (hmac_prf_template 64 types.Sha512)) }
{
    create_hmac_prf_key_template(alloc, 64, HashType::Sha512)
}

/// HKDF keys of 32 bytes with SHA-256 and no salt, without a prefix.
///
/// # Errors
/// `OutOfMemory` alone.
pub fn hkdf_sha256_prf_key_template(alloc: Global) -> Result<KeyTemplate, TinkError>
    ensures { Answers result (Ok (hkdf_prf_template 32 types.Sha256)) }
{
    let format = HkdfPrfKeyFormat {
        params: Some(HkdfPrfParams {
            hash: HashType::Sha256 as i32,
            salt: Bytes::new(alloc),
        }),
        key_size: 32,
        version: HKDF_PRF_KEY_VERSION,
    };
    new_template(alloc, HKDF_PRF_TYPE_URL, &format, OutputPrefixType::Raw)
}

/// AES-CMAC keys of 32 bytes, without a prefix.
///
/// # Errors
/// `OutOfMemory` alone.
pub fn aes_cmac_prf_key_template(alloc: Global) -> Result<KeyTemplate, TinkError>
    ensures { Answers result (Ok (aes_cmac_prf_template 32)) }
{
    let format = AesCmacPrfKeyFormat {
        key_size: 32,
        version: AES_CMAC_PRF_KEY_VERSION,
    };
    new_template(alloc, AES_CMAC_PRF_TYPE_URL, &format, OutputPrefixType::Raw)
}

fn create_hmac_prf_key_template(
    alloc: Global,
    key_size: u32,
    hash: HashType,
) -> Result<KeyTemplate, TinkError>
    ensures { Answers result (Ok (hmac_prf_template key_size hash)) }
{
    let format = HmacPrfKeyFormat {
        params: Some(HmacPrfParams { hash: hash as i32 }),
        key_size,
        version: HMAC_PRF_KEY_VERSION,
    };
    new_template(alloc, HMAC_PRF_TYPE_URL, &format, OutputPrefixType::Raw)
}
