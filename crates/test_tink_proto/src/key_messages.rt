//! Each message with its fields told apart, spelled by hand from the table of fields, and two keysets from outside.

ghost use Rattle.wire_format.specs.Message.{decoded};
ghost use Rattle.tink_proto.specs.Outcome.{Reads};
ghost use Rattle.tink_proto.specs.declared.error.ProtoError.TheVariants.{BadMessage};
ghost use Rattle.tink_proto_keys.specs.Aead.{aes_gcm_key};

use crate::spelled::{Answer, expect, spells};
use std::alloc::Global;
use tink_proto::{Bytes, Key, KeyTemplate, Keyset, Message, ProtoError, Text};
use tink_proto_keys::{
    AesCmacKey, AesCmacKeyFormat, AesCmacParams, AesCmacPrfKey, AesCmacPrfKeyFormat,
    AesCtrHmacAeadKey, AesCtrHmacAeadKeyFormat, AesCtrHmacStreamingKey,
    AesCtrHmacStreamingKeyFormat, AesCtrHmacStreamingParams, AesCtrKey, AesCtrKeyFormat,
    AesCtrParams, AesGcmHkdfStreamingKey, AesGcmHkdfStreamingKeyFormat, AesGcmHkdfStreamingParams,
    AesGcmKey, AesGcmKeyFormat, AesGcmSivKey, AesGcmSivKeyFormat, AesSivKey, AesSivKeyFormat,
    HkdfPrfKey, HkdfPrfKeyFormat, HkdfPrfParams, HmacKey, HmacKeyFormat, HmacParams, HmacPrfKey,
    HmacPrfKeyFormat, HmacPrfParams, KmsEnvelopeAeadKeyFormat,
};

/// A key of AES-CTR and HMAC with id 01020304.
pub const CTR_HMAC_KEYSET: &[u8] =
    b"\x08\x84\x86\x88\x08\x12\x6f\x0a\x64\x0a\x3dtype.googleapis.com/google.crypto.tink.AesCtrHmacStreamingKey\x12\x21\x12\x0d\x08\x80\x20\x10\x10\x18\x03\x22\x04\x08\x03\x10\x20\x1a\x10\x00\x01\x02\x03\x04\x05\x06\x07\x08\x09\x0a\x0b\x0c\x0d\x0e\x0f\x18\x01\x10\x01\x18\x84\x86\x88\x08\x20\x03";

/// A key of AES-GCM with id 01020305.
pub const GCM_KEYSET: &[u8] =
    b"\x08\x85\x86\x88\x08\x12\x69\x0a\x5e\x0a\x3dtype.googleapis.com/google.crypto.tink.AesGcmHkdfStreamingKey\x12\x1b\x12\x07\x08\x80\x20\x10\x10\x18\x03\x1a\x10\x10\x11\x12\x13\x14\x15\x16\x17\x18\x19\x1a\x1b\x1c\x1d\x1e\x1f\x18\x01\x10\x01\x18\x85\x86\x88\x08\x20\x03";

/// A key from its bytes, as a caller's contract says it.
fn read_key(alloc: Global, bytes: &[u8]) -> Result<AesGcmKey, ProtoError>
    ensures { Reads BadMessage result (decoded aes_gcm_key.read bytes.now) }
{
    AesGcmKey::decode(alloc, bytes)
}

const CTR_HMAC_URL: &str = "type.googleapis.com/google.crypto.tink.AesCtrHmacStreamingKey";

const GCM_URL: &str = "type.googleapis.com/google.crypto.tink.AesGcmHkdfStreamingKey";

/// The key data's value, where the key is enabled, raw and of that id and URL, and the primary.
fn only_value<'a>(keyset: &'a Keyset, id: u32, url: &str) -> Result<&'a [u8], ProtoError> {
    match keyset.key.as_slice() {
        [
            Key {
                key_data: Some(data),
                status: 1,
                key_id,
                output_prefix_type: 3,
            },
        ] if *key_id == id
            && keyset.primary_key_id == id
            && data.key_material_type == 1
            && data.type_url.as_str() == url => { Ok(data.value.as_slice()) }
        _ => Err(ProtoError::BadMessage),
    }
}

/// Segments of 4,096 bytes, keys of 16, SHA-256, and tags of 32 bytes of HMAC with SHA-256.
fn is_ctr_hmac_key(key: &AesCtrHmacStreamingKey) -> bool {
    let AesCtrHmacStreamingKey {
        version: 0,
        params: Some(
            AesCtrHmacStreamingParams {
                ciphertext_segment_size: 4096,
                derived_key_size: 16,
                hkdf_hash_type: 3,
                hmac_params: Some(
                    HmacParams {
                        hash: 3,
                        tag_size: 32,
                    },
                ),
            },
        ),
        key_value,
    } = key
    else {
        return false;
    };
    let value = [0, 1, 2, 3, 4, 5, 6, 7, 8, 9, 10, 11, 12, 13, 14, 15];
    key_value.as_slice() == value.as_slice()
}

/// Segments of 4,096 bytes, keys of 16 and SHA-256.
fn is_gcm_key(key: &AesGcmHkdfStreamingKey) -> bool {
    let AesGcmHkdfStreamingKey {
        version: 0,
        params: Some(
            AesGcmHkdfStreamingParams {
                ciphertext_segment_size: 4096,
                derived_key_size: 16,
                hkdf_hash_type: 3,
            },
        ),
        key_value,
    } = key
    else {
        return false;
    };
    let value = [
        16, 17, 18, 19, 20, 21, 22, 23, 24, 25, 26, 27, 28, 29, 30, 31,
    ];
    key_value.as_slice() == value.as_slice()
}

/// The two keysets from outside.
enum Outside {
    CtrHmac,
    Gcm,
}

fn holds(alloc: Global, keyset: &Keyset, of: &Outside) -> Answer {
    match of {
        Outside::CtrHmac => holds_ctr_hmac(alloc, only_value(keyset, 0x01020304, CTR_HMAC_URL)),
        Outside::Gcm => holds_gcm(alloc, only_value(keyset, 0x01020305, GCM_URL)),
    }
}

fn holds_ctr_hmac(alloc: Global, value: Result<&[u8], ProtoError>) -> Answer {
    match AesCtrHmacStreamingKey::decode(alloc, value?) {
        Ok(key) => Ok(is_ctr_hmac_key(&key)),
        Err(e) => Err(e),
    }
}

fn holds_gcm(alloc: Global, value: Result<&[u8], ProtoError>) -> Answer {
    match AesGcmHkdfStreamingKey::decode(alloc, value?) {
        Ok(key) => Ok(is_gcm_key(&key)),
        Err(e) => Err(e),
    }
}

/// Whether the keyset of the bytes holds its key.
fn holds_key(alloc: Global, of: &Outside, bytes: &[u8]) -> Answer {
    match Keyset::decode(alloc, bytes) {
        Ok(keyset) => holds(alloc, &keyset, of),
        Err(e) => Err(e),
    }
}

/// The parameters, which hold no bytes.
enum Params {
    AesCtrHmacStreamingParams,
    AesGcmHkdfStreamingParams,
    HmacParams,
    AesCtrParams,
    AesCmacParams,
    HmacPrfParams,
}

fn spells_params(alloc: Global, of: &Params, bytes: &[u8]) -> Answer {
    match of {
        Params::AesCtrHmacStreamingParams => {
            let message = AesCtrHmacStreamingParams {
                ciphertext_segment_size: 300,
                derived_key_size: 16,
                hkdf_hash_type: 3,
                hmac_params: Some(HmacParams::new(alloc)),
            };
            spells(alloc, message, bytes)
        }
        Params::AesGcmHkdfStreamingParams => {
            let message = AesGcmHkdfStreamingParams {
                ciphertext_segment_size: 300,
                derived_key_size: 16,
                hkdf_hash_type: 3,
            };
            spells(alloc, message, bytes)
        }
        Params::HmacParams => {
            let message = HmacParams {
                hash: 3,
                tag_size: 32,
            };
            spells(alloc, message, bytes)
        }
        Params::AesCtrParams => spells(alloc, AesCtrParams { iv_size: 12 }, bytes),
        Params::AesCmacParams => spells(alloc, AesCmacParams { tag_size: 16 }, bytes),
        Params::HmacPrfParams => spells(alloc, HmacPrfParams { hash: 3 }, bytes),
    }
}

/// Formats with parameters and a version.
enum Format {
    AesCtrHmacStreamingKeyFormat,
    AesGcmHkdfStreamingKeyFormat,
    HkdfPrfKeyFormat,
    HmacPrfKeyFormat,
}

fn spells_format(alloc: Global, of: &Format, bytes: &[u8]) -> Answer {
    match of {
        Format::AesCtrHmacStreamingKeyFormat => {
            let message = AesCtrHmacStreamingKeyFormat {
                params: Some(AesCtrHmacStreamingParams::new(alloc)),
                key_size: 16,
                version: 1,
            };
            spells(alloc, message, bytes)
        }
        Format::AesGcmHkdfStreamingKeyFormat => {
            let message = AesGcmHkdfStreamingKeyFormat {
                params: Some(AesGcmHkdfStreamingParams::new(alloc)),
                key_size: 16,
                version: 1,
            };
            spells(alloc, message, bytes)
        }
        Format::HkdfPrfKeyFormat => {
            let message = HkdfPrfKeyFormat {
                params: Some(HkdfPrfParams::new(alloc)),
                key_size: 32,
                version: 1,
            };
            spells(alloc, message, bytes)
        }
        Format::HmacPrfKeyFormat => {
            let message = HmacPrfKeyFormat {
                params: Some(HmacPrfParams::new(alloc)),
                key_size: 32,
                version: 1,
            };
            spells(alloc, message, bytes)
        }
    }
}

/// Formats of keys of ciphers and of AES-CMAC.
enum SizeFormat {
    AesGcmKeyFormat,
    AesGcmSivKeyFormat,
    AesSivKeyFormat,
    AesCtrKeyFormat,
    AesCmacPrfKeyFormat,
}

fn spells_size_format(alloc: Global, of: &SizeFormat, bytes: &[u8]) -> Answer {
    match of {
        SizeFormat::AesGcmKeyFormat => {
            let message = AesGcmKeyFormat {
                key_size: 16,
                version: 1,
            };
            spells(alloc, message, bytes)
        }
        SizeFormat::AesGcmSivKeyFormat => {
            let message = AesGcmSivKeyFormat {
                version: 1,
                key_size: 16,
            };
            spells(alloc, message, bytes)
        }
        SizeFormat::AesSivKeyFormat => {
            let message = AesSivKeyFormat {
                key_size: 64,
                version: 1,
            };
            spells(alloc, message, bytes)
        }
        SizeFormat::AesCtrKeyFormat => {
            let message = AesCtrKeyFormat {
                params: Some(AesCtrParams::new(alloc)),
                key_size: 16,
            };
            spells(alloc, message, bytes)
        }
        SizeFormat::AesCmacPrfKeyFormat => {
            let message = AesCmacPrfKeyFormat {
                key_size: 32,
                version: 1,
            };
            spells(alloc, message, bytes)
        }
    }
}

/// Formats with a MAC, and the key that holds no bytes.
enum MacFormat {
    HmacKeyFormat,
    AesCmacKeyFormat,
    AesCtrHmacAeadKeyFormat,
    AesCtrHmacAeadKey,
}

fn spells_mac_format(alloc: Global, of: &MacFormat, bytes: &[u8]) -> Answer {
    match of {
        MacFormat::HmacKeyFormat => {
            let message = HmacKeyFormat {
                params: Some(HmacParams::new(alloc)),
                key_size: 16,
                version: 1,
            };
            spells(alloc, message, bytes)
        }
        MacFormat::AesCmacKeyFormat => {
            let message = AesCmacKeyFormat {
                key_size: 32,
                params: Some(AesCmacParams::new(alloc)),
            };
            spells(alloc, message, bytes)
        }
        MacFormat::AesCtrHmacAeadKeyFormat => {
            let message = AesCtrHmacAeadKeyFormat {
                aes_ctr_key_format: Some(AesCtrKeyFormat::new(alloc)),
                hmac_key_format: Some(HmacKeyFormat::new(alloc)),
            };
            spells(alloc, message, bytes)
        }
        MacFormat::AesCtrHmacAeadKey => {
            let message = AesCtrHmacAeadKey {
                version: 1,
                aes_ctr_key: Some(AesCtrKey::new(alloc)),
                hmac_key: Some(HmacKey::new(alloc)),
            };
            spells(alloc, message, bytes)
        }
    }
}

/// Keys of ciphers.
enum CipherKey {
    AesGcmKey,
    AesGcmSivKey,
    AesSivKey,
    AesCtrKey,
}

fn spells_cipher_key(alloc: Global, of: &CipherKey, value: Bytes, bytes: &[u8]) -> Answer {
    match of {
        CipherKey::AesGcmKey => {
            let message = AesGcmKey {
                version: 1,
                key_value: value,
            };
            spells(alloc, message, bytes)
        }
        CipherKey::AesGcmSivKey => {
            let message = AesGcmSivKey {
                version: 1,
                key_value: value,
            };
            spells(alloc, message, bytes)
        }
        CipherKey::AesSivKey => {
            let message = AesSivKey {
                version: 1,
                key_value: value,
            };
            spells(alloc, message, bytes)
        }
        CipherKey::AesCtrKey => {
            let message = AesCtrKey {
                version: 1,
                params: Some(AesCtrParams::new(alloc)),
                key_value: value,
            };
            spells(alloc, message, bytes)
        }
    }
}

/// Keys with parameters before the bytes.
enum ParamsKey {
    AesCtrHmacStreamingKey,
    AesGcmHkdfStreamingKey,
    HkdfPrfKey,
    HmacPrfKey,
}

fn spells_params_key(alloc: Global, of: &ParamsKey, value: Bytes, bytes: &[u8]) -> Answer {
    match of {
        ParamsKey::AesCtrHmacStreamingKey => {
            let message = AesCtrHmacStreamingKey {
                version: 1,
                params: Some(AesCtrHmacStreamingParams::new(alloc)),
                key_value: value,
            };
            spells(alloc, message, bytes)
        }
        ParamsKey::AesGcmHkdfStreamingKey => {
            let message = AesGcmHkdfStreamingKey {
                version: 1,
                params: Some(AesGcmHkdfStreamingParams::new(alloc)),
                key_value: value,
            };
            spells(alloc, message, bytes)
        }
        ParamsKey::HkdfPrfKey => {
            let message = HkdfPrfKey {
                version: 1,
                params: Some(HkdfPrfParams::new(alloc)),
                key_value: value,
            };
            spells(alloc, message, bytes)
        }
        ParamsKey::HmacPrfKey => {
            let message = HmacPrfKey {
                version: 1,
                params: Some(HmacPrfParams::new(alloc)),
                key_value: value,
            };
            spells(alloc, message, bytes)
        }
    }
}

/// Keys of MACs and of functions, and what holds a salt.
enum MacKey {
    HmacKey,
    AesCmacKey,
    AesCmacPrfKey,
    HkdfPrfParams,
}

fn spells_mac_key(alloc: Global, of: &MacKey, value: Bytes, bytes: &[u8]) -> Answer {
    match of {
        MacKey::HmacKey => {
            let message = HmacKey {
                version: 1,
                params: Some(HmacParams::new(alloc)),
                key_value: value,
            };
            spells(alloc, message, bytes)
        }
        MacKey::AesCmacKey => {
            let message = AesCmacKey {
                version: 1,
                key_value: value,
                params: Some(AesCmacParams::new(alloc)),
            };
            spells(alloc, message, bytes)
        }
        MacKey::AesCmacPrfKey => {
            let message = AesCmacPrfKey {
                version: 1,
                key_value: value,
            };
            spells(alloc, message, bytes)
        }
        MacKey::HkdfPrfParams => {
            let message = HkdfPrfParams {
                hash: 3,
                salt: value,
            };
            spells(alloc, message, bytes)
        }
    }
}

/// What holds the byte 07.
enum Valued {
    CipherKey(CipherKey),
    ParamsKey(ParamsKey),
    MacKey(MacKey),
}

fn spells_valued(alloc: Global, of: &Valued, value: Bytes, bytes: &[u8]) -> Answer {
    match of {
        Valued::CipherKey(of) => spells_cipher_key(alloc, of, value, bytes),
        Valued::ParamsKey(of) => spells_params_key(alloc, of, value, bytes),
        Valued::MacKey(of) => spells_mac_key(alloc, of, value, bytes),
    }
}

fn with_seven(alloc: Global, of: &Valued, bytes: &[u8]) -> Answer {
    match Bytes::from_slice(alloc, b"\x07") {
        Ok(value) => spells_valued(alloc, of, value, bytes),
        Err(_) => Err(ProtoError::OutOfMemory),
    }
}

fn envelope_format(alloc: Global, bytes: &[u8]) -> Answer {
    let kek_uri = Text::from_str(alloc, "x")?;
    let message = KmsEnvelopeAeadKeyFormat {
        kek_uri,
        dek_template: Some(KeyTemplate::new(alloc)),
    };
    spells(alloc, message, bytes)
}

fn is_of_version_2(alloc: Global, bytes: &[u8]) -> Answer {
    match read_key(alloc, bytes) {
        Ok(key) => Ok(key.version == 2),
        Err(e) => Err(e),
    }
}

enum Of {
    Outside(Outside),
    Version,
    Envelope,
    Params(Params),
    Format(Format),
    SizeFormat(SizeFormat),
    MacFormat(MacFormat),
    Valued(Valued),
}

fn answer_row(alloc: Global, of: &Of, bytes: &[u8]) -> Answer {
    match of {
        Of::Outside(of) => holds_key(alloc, of, bytes),
        Of::Version => is_of_version_2(alloc, bytes),
        Of::Envelope => envelope_format(alloc, bytes),
        Of::Params(of) => spells_params(alloc, of, bytes),
        Of::Format(of) => spells_format(alloc, of, bytes),
        Of::SizeFormat(of) => spells_size_format(alloc, of, bytes),
        Of::MacFormat(of) => spells_mac_format(alloc, of, bytes),
        Of::Valued(of) => with_seven(alloc, of, bytes),
    }
}

const ROWS: &[(&str, Of, &[u8])] = &[
    (
        "AES-CTR and HMAC",
        Of::Outside(Outside::CtrHmac),
        CTR_HMAC_KEYSET,
    ),
    ("AES-GCM", Of::Outside(Outside::Gcm), GCM_KEYSET),
    ("the version", Of::Version, b"\x08\x02"),
    (
        "AesCtrHmacStreamingParams",
        Of::Params(Params::AesCtrHmacStreamingParams),
        b"\x08\xac\x02\x10\x10\x18\x03\x22\x00",
    ),
    (
        "AesCtrHmacStreamingKey",
        Of::Valued(Valued::ParamsKey(ParamsKey::AesCtrHmacStreamingKey)),
        b"\x08\x01\x12\x00\x1a\x01\x07",
    ),
    (
        "AesCtrHmacStreamingKeyFormat",
        Of::Format(Format::AesCtrHmacStreamingKeyFormat),
        b"\x0a\x00\x10\x10\x18\x01",
    ),
    (
        "AesGcmHkdfStreamingParams",
        Of::Params(Params::AesGcmHkdfStreamingParams),
        b"\x08\xac\x02\x10\x10\x18\x03",
    ),
    (
        "AesGcmHkdfStreamingKey",
        Of::Valued(Valued::ParamsKey(ParamsKey::AesGcmHkdfStreamingKey)),
        b"\x08\x01\x12\x00\x1a\x01\x07",
    ),
    (
        "AesGcmHkdfStreamingKeyFormat",
        Of::Format(Format::AesGcmHkdfStreamingKeyFormat),
        b"\x0a\x00\x10\x10\x18\x01",
    ),
    (
        "AesGcmKey",
        Of::Valued(Valued::CipherKey(CipherKey::AesGcmKey)),
        b"\x08\x01\x1a\x01\x07",
    ),
    (
        "AesGcmKeyFormat",
        Of::SizeFormat(SizeFormat::AesGcmKeyFormat),
        b"\x10\x10\x18\x01",
    ),
    (
        "AesGcmSivKey",
        Of::Valued(Valued::CipherKey(CipherKey::AesGcmSivKey)),
        b"\x08\x01\x1a\x01\x07",
    ),
    (
        "AesGcmSivKeyFormat",
        Of::SizeFormat(SizeFormat::AesGcmSivKeyFormat),
        b"\x08\x01\x10\x10",
    ),
    (
        "AesSivKey",
        Of::Valued(Valued::CipherKey(CipherKey::AesSivKey)),
        b"\x08\x01\x12\x01\x07",
    ),
    (
        "AesSivKeyFormat",
        Of::SizeFormat(SizeFormat::AesSivKeyFormat),
        b"\x08\x40\x10\x01",
    ),
    (
        "KmsEnvelopeAeadKeyFormat",
        Of::Envelope,
        b"\x0a\x01\x78\x12\x00",
    ),
    (
        "AesCtrParams",
        Of::Params(Params::AesCtrParams),
        b"\x08\x0c",
    ),
    (
        "AesCtrKey",
        Of::Valued(Valued::CipherKey(CipherKey::AesCtrKey)),
        b"\x08\x01\x12\x00\x1a\x01\x07",
    ),
    (
        "AesCtrKeyFormat",
        Of::SizeFormat(SizeFormat::AesCtrKeyFormat),
        b"\x0a\x00\x10\x10",
    ),
    (
        "AesCtrHmacAeadKey",
        Of::MacFormat(MacFormat::AesCtrHmacAeadKey),
        b"\x08\x01\x12\x00\x1a\x00",
    ),
    (
        "AesCtrHmacAeadKeyFormat",
        Of::MacFormat(MacFormat::AesCtrHmacAeadKeyFormat),
        b"\x0a\x00\x12\x00",
    ),
    (
        "HmacParams",
        Of::Params(Params::HmacParams),
        b"\x08\x03\x10\x20",
    ),
    (
        "HmacKey",
        Of::Valued(Valued::MacKey(MacKey::HmacKey)),
        b"\x08\x01\x12\x00\x1a\x01\x07",
    ),
    (
        "HmacKeyFormat",
        Of::MacFormat(MacFormat::HmacKeyFormat),
        b"\x0a\x00\x10\x10\x18\x01",
    ),
    (
        "AesCmacParams",
        Of::Params(Params::AesCmacParams),
        b"\x08\x10",
    ),
    (
        "AesCmacKey",
        Of::Valued(Valued::MacKey(MacKey::AesCmacKey)),
        b"\x08\x01\x12\x01\x07\x1a\x00",
    ),
    (
        "AesCmacKeyFormat",
        Of::MacFormat(MacFormat::AesCmacKeyFormat),
        b"\x08\x20\x12\x00",
    ),
    (
        "HkdfPrfParams",
        Of::Valued(Valued::MacKey(MacKey::HkdfPrfParams)),
        b"\x08\x03\x12\x01\x07",
    ),
    (
        "HkdfPrfKey",
        Of::Valued(Valued::ParamsKey(ParamsKey::HkdfPrfKey)),
        b"\x08\x01\x12\x00\x1a\x01\x07",
    ),
    (
        "HkdfPrfKeyFormat",
        Of::Format(Format::HkdfPrfKeyFormat),
        b"\x0a\x00\x10\x20\x18\x01",
    ),
    (
        "HmacPrfParams",
        Of::Params(Params::HmacPrfParams),
        b"\x08\x03",
    ),
    (
        "HmacPrfKey",
        Of::Valued(Valued::ParamsKey(ParamsKey::HmacPrfKey)),
        b"\x08\x01\x12\x00\x1a\x01\x07",
    ),
    (
        "HmacPrfKeyFormat",
        Of::Format(Format::HmacPrfKeyFormat),
        b"\x0a\x00\x10\x20\x18\x01",
    ),
    (
        "AesCmacPrfKey",
        Of::Valued(Valued::MacKey(MacKey::AesCmacPrfKey)),
        b"\x08\x01\x12\x01\x07",
    ),
    (
        "AesCmacPrfKeyFormat",
        Of::SizeFormat(SizeFormat::AesCmacPrfKeyFormat),
        b"\x08\x20\x10\x01",
    ),
];

#[test]
fn messages_of_keys(rt: HostRuntime) {
    for (row, of, bytes) in ROWS {
        expect(&rt, answer_row(rt.alloc(), of, bytes), Ok(true), row);
    }
}
