//! Templates of keys of streams. Each asks for keys without a prefix, of the type RAW.

ghost use Rattle.std.specs.Prelude.{Ok};
ghost use Rattle.tink_io.specs.Answering.{Answers};
ghost use Rattle.tink_streaming_managers.specs.KeyTypes.{ctr_hmac_template, gcm_hkdf_template};

use crate::{
    AES_CTR_HMAC_KEY_VERSION, AES_CTR_HMAC_TYPE_URL, AES_GCM_HKDF_KEY_VERSION,
    AES_GCM_HKDF_TYPE_URL,
};
use std::alloc::Global;
use tink_io::TinkError;
use tink_key_manager::new_template;
use tink_proto::{HashType, KeyTemplate, OutputPrefixType};
use tink_proto_keys::{
    AesCtrHmacStreamingKeyFormat, AesCtrHmacStreamingParams, AesGcmHkdfStreamingKeyFormat,
    AesGcmHkdfStreamingParams, HmacParams,
};

/// The 4,096 bytes of a segment.
pub const SEGMENT_4KB: u32 = 4096;

/// The 1,048,576 bytes of a segment.
pub const SEGMENT_1MB: u32 = 1_048_576;

/// AES in counter mode and HMAC-SHA256 with tags of 32 bytes, in segments of 4,096 bytes. Keys have
/// 16 bytes, from which HKDF derives AES keys of 16 by SHA-256.
///
/// # Errors
/// `OutOfMemory` alone.
pub fn aes128_ctr_hmac_sha256_segment_4kb_key_template(
    alloc: Global,
) -> Result<KeyTemplate, TinkError>
    ensures { Answers result (Ok (ctr_hmac_template 16 4096)) }
{
    ctr_hmac_key_template(alloc, 16, SEGMENT_4KB)
}

/// AES in counter mode and HMAC-SHA256 with tags of 32 bytes, in segments of 1,048,576 bytes. Keys have
/// 16 bytes, from which HKDF derives AES keys of 16 by SHA-256.
///
/// # Errors
/// `OutOfMemory` alone.
pub fn aes128_ctr_hmac_sha256_segment_1mb_key_template(
    alloc: Global,
) -> Result<KeyTemplate, TinkError>
    ensures { Answers result (Ok (ctr_hmac_template 16 1048576)) }
{
    ctr_hmac_key_template(alloc, 16, SEGMENT_1MB)
}

/// AES in counter mode and HMAC-SHA256 with tags of 32 bytes, in segments of 4,096 bytes. Keys have
/// 32 bytes, from which HKDF derives AES keys of 32 by SHA-256.
///
/// # Errors
/// `OutOfMemory` alone.
pub fn aes256_ctr_hmac_sha256_segment_4kb_key_template(
    alloc: Global,
) -> Result<KeyTemplate, TinkError>
    ensures { Answers result (Ok (ctr_hmac_template 32 4096)) }
{
    ctr_hmac_key_template(alloc, 32, SEGMENT_4KB)
}

/// AES in counter mode and HMAC-SHA256 with tags of 32 bytes, in segments of 1,048,576 bytes. Keys have
/// 32 bytes, from which HKDF derives AES keys of 32 by SHA-256.
///
/// # Errors
/// `OutOfMemory` alone.
pub fn aes256_ctr_hmac_sha256_segment_1mb_key_template(
    alloc: Global,
) -> Result<KeyTemplate, TinkError>
    ensures { Answers result (Ok (ctr_hmac_template 32 1048576)) }
{
    ctr_hmac_key_template(alloc, 32, SEGMENT_1MB)
}

/// AES-GCM in segments of 4,096 bytes. Keys have 16 bytes, from which HKDF derives AES keys of 16 by
/// SHA-256.
///
/// # Errors
/// `OutOfMemory` alone.
pub fn aes128_gcm_hkdf_4kb_key_template(alloc: Global) -> Result<KeyTemplate, TinkError>
    ensures { Answers result (Ok (gcm_hkdf_template 16 4096)) }
{
    gcm_hkdf_key_template(alloc, 16, SEGMENT_4KB)
}

/// AES-GCM in segments of 1,048,576 bytes. Keys have 16 bytes, from which HKDF derives AES keys of 16 by
/// SHA-256.
///
/// # Errors
/// `OutOfMemory` alone.
pub fn aes128_gcm_hkdf_1mb_key_template(alloc: Global) -> Result<KeyTemplate, TinkError>
    ensures { Answers result (Ok (gcm_hkdf_template 16 1048576)) }
{
    gcm_hkdf_key_template(alloc, 16, SEGMENT_1MB)
}

/// AES-GCM in segments of 4,096 bytes. Keys have 32 bytes, from which HKDF derives AES keys of 32 by
/// SHA-256.
///
/// # Errors
/// `OutOfMemory` alone.
pub fn aes256_gcm_hkdf_4kb_key_template(alloc: Global) -> Result<KeyTemplate, TinkError>
    ensures { Answers result (Ok (gcm_hkdf_template 32 4096)) }
{
    gcm_hkdf_key_template(alloc, 32, SEGMENT_4KB)
}

/// AES-GCM in segments of 1,048,576 bytes. Keys have 32 bytes, from which HKDF derives AES keys of 32 by
/// SHA-256.
///
/// # Errors
/// `OutOfMemory` alone.
pub fn aes256_gcm_hkdf_1mb_key_template(alloc: Global) -> Result<KeyTemplate, TinkError>
    ensures { Answers result (Ok (gcm_hkdf_template 32 1048576)) }
{
    gcm_hkdf_key_template(alloc, 32, SEGMENT_1MB)
}

/// AES in counter mode and HMAC-SHA256 with tags of 32 bytes, in segments of `segment` bytes. Keys have `key_size`
/// bytes, and so do the AES keys that HKDF derives from them by SHA-256.
///
/// # Errors
/// `OutOfMemory` alone.
pub fn ctr_hmac_key_template(
    alloc: Global,
    key_size: u32,
    segment: u32,
) -> Result<KeyTemplate, TinkError>
    ensures { Answers result (Ok (ctr_hmac_template key_size segment)) }
{
    let format = AesCtrHmacStreamingKeyFormat {
        params: Some(AesCtrHmacStreamingParams {
            ciphertext_segment_size: segment,
            derived_key_size: key_size,
            hkdf_hash_type: HashType::Sha256 as i32,
            hmac_params: Some(HmacParams {
                hash: HashType::Sha256 as i32,
                tag_size: 32,
            }),
        }),
        key_size,
        version: AES_CTR_HMAC_KEY_VERSION,
    };
    new_template(alloc, AES_CTR_HMAC_TYPE_URL, &format, OutputPrefixType::Raw)
}

/// AES-GCM in segments of `segment` bytes. Keys have `key_size` bytes, and so do the AES keys that HKDF derives from
/// them by SHA-256.
///
/// # Errors
/// `OutOfMemory` alone.
pub fn gcm_hkdf_key_template(
    alloc: Global,
    key_size: u32,
    segment: u32,
) -> Result<KeyTemplate, TinkError>
    ensures { Answers result (Ok (gcm_hkdf_template key_size segment)) }
{
    let format = AesGcmHkdfStreamingKeyFormat {
        params: Some(AesGcmHkdfStreamingParams {
            ciphertext_segment_size: segment,
            derived_key_size: key_size,
            hkdf_hash_type: HashType::Sha256 as i32,
        }),
        key_size,
        version: AES_GCM_HKDF_KEY_VERSION,
    };
    new_template(alloc, AES_GCM_HKDF_TYPE_URL, &format, OutputPrefixType::Raw)
}
