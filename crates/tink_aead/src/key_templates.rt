//! Templates of AEAD keys.

ghost use Rattle.std.specs.Prelude.{Ok};
ghost use Rattle.tink_io.specs.Answering.{Answers};
ghost use Rattle.tink_proto.specs.declared.enums.HashType.TheVariants.{Sha256, Sha512};
ghost use Rattle.tink_proto.specs.declared.enums.OutputPrefixType.TheVariants.{Raw, Tink};
ghost use Rattle.tink_aead.specs.ComposedKeys.{composed_template};
ghost use Rattle.tink_aead.specs.Envelope.{envelope_template};
ghost use Rattle.tink_aead.specs.KeyTypes.{gcm_siv_template, gcm_template};

use crate::aes_ctr_hmac_aead_key_manager::AES_CTR_HMAC_AEAD_TYPE_URL;
use crate::aes_gcm_key_manager::{AES_GCM_KEY_VERSION, AES_GCM_TYPE_URL};
use crate::aes_gcm_siv_key_manager::{AES_GCM_SIV_KEY_VERSION, AES_GCM_SIV_TYPE_URL};
use crate::kms_envelope_aead::{KMS_ENVELOPE_AEAD_TYPE_URL, same_template};
use std::alloc::Global;
use tink_io::TinkError;
use tink_key_manager::new_template;
use tink_proto::{HashType, KeyTemplate, OutputPrefixType, Text};
use tink_proto_keys::{
    AesCtrHmacAeadKeyFormat, AesCtrKeyFormat, AesCtrParams, AesGcmKeyFormat, AesGcmSivKeyFormat,
    HmacKeyFormat, HmacParams, KmsEnvelopeAeadKeyFormat,
};

/// AES-GCM with keys of 16 bytes, which have a prefix.
///
/// # Errors
/// `OutOfMemory` alone.
pub fn aes128_gcm_key_template(alloc: Global) -> Result<KeyTemplate, TinkError>
    ensures { Answers result (Ok (gcm_template 16 Tink)) }
{
    gcm_key_template(alloc, 16, OutputPrefixType::Tink)
}

/// AES-GCM with keys of 32 bytes, which have a prefix.
///
/// # Errors
/// `OutOfMemory` alone.
pub fn aes256_gcm_key_template(alloc: Global) -> Result<KeyTemplate, TinkError>
    ensures { Answers result (Ok (gcm_template 32 Tink)) }
{
    gcm_key_template(alloc, 32, OutputPrefixType::Tink)
}

/// AES-GCM with keys of 32 bytes, which have no prefix.
///
/// # Errors
/// `OutOfMemory` alone.
pub fn aes256_gcm_no_prefix_key_template(alloc: Global) -> Result<KeyTemplate, TinkError>
    ensures { Answers result (Ok (gcm_template 32 Raw)) }
{
    gcm_key_template(alloc, 32, OutputPrefixType::Raw)
}

/// AES-GCM-SIV with keys of 16 bytes, which have a prefix.
///
/// # Errors
/// `OutOfMemory` alone.
pub fn aes128_gcm_siv_key_template(alloc: Global) -> Result<KeyTemplate, TinkError>
    ensures { Answers result (Ok (gcm_siv_template 16 Tink)) }
{
    gcm_siv_key_template(alloc, 16, OutputPrefixType::Tink)
}

/// AES-GCM-SIV with keys of 32 bytes, which have a prefix.
///
/// # Errors
/// `OutOfMemory` alone.
pub fn aes256_gcm_siv_key_template(alloc: Global) -> Result<KeyTemplate, TinkError>
    ensures { Answers result (Ok (gcm_siv_template 32 Tink)) }
{
    gcm_siv_key_template(alloc, 32, OutputPrefixType::Tink)
}

/// AES-GCM-SIV with keys of 32 bytes, which have no prefix.
///
/// # Errors
/// `OutOfMemory` alone.
pub fn aes256_gcm_siv_no_prefix_key_template(alloc: Global) -> Result<KeyTemplate, TinkError>
    ensures { Answers result (Ok (gcm_siv_template 32 Raw)) }
{
    gcm_siv_key_template(alloc, 32, OutputPrefixType::Raw)
}

/// AES in counter mode with keys of 16 bytes and vectors of 16, and HMAC-SHA256 with keys of 32
/// bytes and tags of 16. Keys have a prefix.
///
/// # Errors
/// `OutOfMemory` alone.
pub fn aes128_ctr_hmac_sha256_key_template(alloc: Global) -> Result<KeyTemplate, TinkError>
    ensures { Answers result (Ok (composed_template 16 16 32 16 Sha256)) }
{
    aes_ctr_hmac_aead_key_template(alloc, 16, 16, 32, 16, HashType::Sha256)
}

/// AES in counter mode with keys of 32 bytes and vectors of 16, and HMAC-SHA256 with keys of 32
/// bytes and tags of 32. Keys have a prefix.
///
/// # Errors
/// `OutOfMemory` alone.
pub fn aes256_ctr_hmac_sha256_key_template(alloc: Global) -> Result<KeyTemplate, TinkError>
    ensures { Answers result (Ok (composed_template 32 16 32 32 Sha256)) }
{
    aes_ctr_hmac_aead_key_template(alloc, 32, 16, 32, 32, HashType::Sha256)
}

/// AES in counter mode with keys of 32 bytes and vectors of 16, and HMAC-SHA512 with keys of 64
/// bytes and tags of 64. Keys have a prefix. `init` does not register this template.
///
/// # Errors
/// `OutOfMemory` alone.
pub fn aes256_ctr_hmac_sha512_key_template(alloc: Global) -> Result<KeyTemplate, TinkError>
    ensures { Answers result (Ok (composed_template 32 16 64 64 Sha512)) }
{
    aes_ctr_hmac_aead_key_template(alloc, 32, 16, 64, 64, HashType::Sha512)
}

/// Envelopes over the remote key of a URI, with data keys by the template `dek`. Keys have no prefix. `init` does not
/// register this template.
///
/// # Errors
/// `OutOfMemory` alone.
pub fn kms_envelope_aead_key_template(
    alloc: Global,
    uri: &str,
    dek: &KeyTemplate,
) -> Result<KeyTemplate, TinkError>
    ensures { Answers result (Ok (envelope_template uri.now dek.now)) }
{
    let kek_uri = Text::from_str(alloc, uri)?;
    let dek = same_template(alloc, dek)?;
    let format = KmsEnvelopeAeadKeyFormat {
        kek_uri,
        dek_template: Some(dek),
    };
    new_template(
        alloc,
        KMS_ENVELOPE_AEAD_TYPE_URL,
        &format,
        OutputPrefixType::Raw,
    )
}

fn gcm_key_template(
    alloc: Global,
    key_size: u32,
    prefix: OutputPrefixType,
) -> Result<KeyTemplate, TinkError>
    ensures { Answers result (Ok (gcm_template key_size prefix)) }
{
    let format = AesGcmKeyFormat {
        key_size,
        version: AES_GCM_KEY_VERSION,
    };
    new_template(alloc, AES_GCM_TYPE_URL, &format, prefix)
}

fn gcm_siv_key_template(
    alloc: Global,
    key_size: u32,
    prefix: OutputPrefixType,
) -> Result<KeyTemplate, TinkError>
    ensures { Answers result (Ok (gcm_siv_template key_size prefix)) }
{
    let format = AesGcmSivKeyFormat {
        version: AES_GCM_SIV_KEY_VERSION,
        key_size,
    };
    new_template(alloc, AES_GCM_SIV_TYPE_URL, &format, prefix)
}

fn aes_ctr_hmac_aead_key_template(
    alloc: Global,
    aes_key_size: u32,
    iv_size: u32,
    hmac_key_size: u32,
    tag_size: u32,
    hash: HashType,
) -> Result<KeyTemplate, TinkError>
    ensures { Answers result (Ok (composed_template aes_key_size iv_size hmac_key_size tag_size hash)) }
{
    let hash = hash as i32;
    let format = AesCtrHmacAeadKeyFormat {
        aes_ctr_key_format: Some(AesCtrKeyFormat {
            params: Some(AesCtrParams { iv_size }),
            key_size: aes_key_size,
        }),
        hmac_key_format: Some(HmacKeyFormat {
            params: Some(HmacParams { hash, tag_size }),
            key_size: hmac_key_size,
            version: 0,
        }),
    };
    new_template(
        alloc,
        AES_CTR_HMAC_AEAD_TYPE_URL,
        &format,
        OutputPrefixType::Tink,
    )
}
