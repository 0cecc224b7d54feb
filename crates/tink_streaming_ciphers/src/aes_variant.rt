//! The sizes of AES keys.

ghost use Rattle.std.specs.Prelude.{◌≡◌, ◌⊎◌, ◌↔◌, IfOk, IfErr, IsOk};
ghost use Rattle.tink_io.specs.declared.error.Kind.TheVariants.{BadKeySize};
ghost use Rattle.tink_streaming_ciphers.specs.AesVariants.{key_size};

use tink_io::{Kind, TinkError};

/// AES by the size of its key.
#[derive(Clone, Copy, Debug, PartialEq, Eq)]
pub enum AesVariant {
    /// Keys of 16 bytes.
    Aes128,
    /// Keys of 32 bytes.
    Aes256,
}

impl AesVariant {
    /// The size of a key in bytes.
    pub fn key_size(&self) -> usize
        ensures { result ≡ key_size self.now }
    {
        match self {
            AesVariant::Aes128 => 16,
            AesVariant::Aes256 => 32,
        }
    }
}

/// The variant of AES whose keys have this size in bytes.
///
/// # Errors
/// `BadKeySize` exactly if the size is neither 16 nor 32.
pub fn validate_aes_key_size(size_in_bytes: usize) -> Result<AesVariant, TinkError>
    ensures ok { IsOk result ↔ ((size_in_bytes ≡ 16) ⊎ (size_in_bytes ≡ 32)) }
    ensures value { IfOk result (λ variant. key_size variant ≡ size_in_bytes) }
    ensures err { IfErr result (λ e. e ≡ record { kind = BadKeySize }) }
{
    match size_in_bytes {
        16 => Ok(AesVariant::Aes128),
        32 => Ok(AesVariant::Aes256),
        _ => Err(TinkError::new(Kind::BadKeySize)),
    }
}
