//! Templates of MAC keys. Each asks for keys with a prefix, of the type TINK.

ghost use Rattle.std.specs.Prelude.{Ok};
ghost use Rattle.tink_io.specs.Answering.{Answers};
ghost use Rattle.tink_proto.specs.declared.enums.HashType.TheVariants.{Sha256, Sha512};
ghost use Rattle.tink_mac.specs.KeyTypes.{cmac_template, hmac_template};

use crate::{CMAC_TYPE_URL, HMAC_KEY_VERSION, HMAC_TYPE_URL};
use std::alloc::Global;
use tink_io::TinkError;
use tink_key_manager::new_template;
use tink_proto::{HashType, KeyTemplate, OutputPrefixType};
use tink_proto_keys::{AesCmacKeyFormat, AesCmacParams, HmacKeyFormat, HmacParams};

/// HMAC-SHA256 with keys of 32 bytes and tags of 16.
///
/// # Errors
/// `OutOfMemory` alone.
pub fn hmac_sha256_tag128_key_template(alloc: Global) -> Result<KeyTemplate, TinkError>
    ensures { Answers result (Ok (hmac_template 32 Sha256 16)) }
{
    hmac_key_template(alloc, 32, HashType::Sha256, 16)
}

/// HMAC-SHA256 with keys of 32 bytes and tags of 32.
///
/// # Errors
/// `OutOfMemory` alone.
pub fn hmac_sha256_tag256_key_template(alloc: Global) -> Result<KeyTemplate, TinkError>
    ensures { Answers result (Ok (hmac_template 32 Sha256 32)) }
{
    hmac_key_template(alloc, 32, HashType::Sha256, 32)
}

/// HMAC-SHA512 with keys of 64 bytes and tags of 32.
///
/// # Errors
/// `OutOfMemory` alone.
pub fn hmac_sha512_tag256_key_template(alloc: Global) -> Result<KeyTemplate, TinkError>
    ensures { Answers result (Ok (hmac_template 64 Sha512 32)) }
{
    hmac_key_template(alloc, 64, HashType::Sha512, 32)
}

/// HMAC-SHA512 with keys of 64 bytes and tags of 64.
///
/// # Errors
/// `OutOfMemory` alone.
pub fn hmac_sha512_tag512_key_template(alloc: Global) -> Result<KeyTemplate, TinkError>
    ensures { Answers result (Ok (hmac_template 64 Sha512 64)) }
{
    hmac_key_template(alloc, 64, HashType::Sha512, 64)
}

/// AES-CMAC with keys of 32 bytes and tags of 16.
///
/// # Errors
/// `OutOfMemory` alone.
pub fn aes_cmac_tag128_key_template(alloc: Global) -> Result<KeyTemplate, TinkError>
    ensures { Answers result (Ok (cmac_template 32 16)) }
{
    let format = AesCmacKeyFormat {
        key_size: 32,
        params: Some(AesCmacParams { tag_size: 16 }),
    };
    new_template(alloc, CMAC_TYPE_URL, &format, OutputPrefixType::Tink)
}

fn hmac_key_template(
    alloc: Global,
    key_size: u32,
    hash: HashType,
    tag_size: u32,
) -> Result<KeyTemplate, TinkError>
    ensures { Answers result (Ok (hmac_template key_size hash tag_size)) }
{
    let format = HmacKeyFormat {
        params: Some(HmacParams {
            hash: hash as i32,
            tag_size,
        }),
        key_size,
        version: HMAC_KEY_VERSION,
    };
    new_template(alloc, HMAC_TYPE_URL, &format, OutputPrefixType::Tink)
}
