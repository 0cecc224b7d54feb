//! The messages of keys and of their formats, by `tink_proto`'s trait `Message`: `AesGcmKey::decode(alloc, bytes)`,
//! `encode` and `try_clone`. Each reads and writes what its table in `specs/` says.
#![tactic(auto)]

mod aead;
mod aes_ctr_hmac;
mod daead;
mod envelope;
mod fields;
mod mac;
mod prf;
mod streaming;
mod with_params;

pub use aead::{AesGcmKey, AesGcmKeyFormat, AesGcmSivKey, AesGcmSivKeyFormat};
pub use aes_ctr_hmac::{
    AesCtrHmacAeadKey, AesCtrHmacAeadKeyFormat, AesCtrKey, AesCtrKeyFormat, AesCtrParams,
};
pub use daead::{AesSivKey, AesSivKeyFormat};
pub use envelope::KmsEnvelopeAeadKeyFormat;
pub use mac::{AesCmacKey, AesCmacKeyFormat, AesCmacParams, HmacKey, HmacKeyFormat, HmacParams};
pub use prf::{
    AesCmacPrfKey, AesCmacPrfKeyFormat, HkdfPrfKey, HkdfPrfKeyFormat, HkdfPrfParams, HmacPrfKey,
    HmacPrfKeyFormat, HmacPrfParams,
};
pub use streaming::{
    AesCtrHmacStreamingKey, AesCtrHmacStreamingKeyFormat, AesCtrHmacStreamingParams,
    AesGcmHkdfStreamingKey, AesGcmHkdfStreamingKeyFormat, AesGcmHkdfStreamingParams,
};
pub use with_params::{FormatWith, KeyWith};
