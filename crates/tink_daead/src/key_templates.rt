//! The template of AES-SIV keys.

ghost use Rattle.std.specs.Prelude.{Ok};
ghost use Rattle.tink_io.specs.Answering.{Answers};
ghost use Rattle.tink_daead.specs.KeyTypes.{aes_siv_template};

use crate::aes_siv_key_manager::{AES_SIV_KEY_VERSION, AES_SIV_TYPE_URL};
use std::alloc::Global;
use tink_io::TinkError;
use tink_key_manager::new_template;
use tink_proto::{KeyTemplate, OutputPrefixType};
use tink_proto_keys::AesSivKeyFormat;

/// AES-SIV with keys of 64 bytes, which have a prefix.
///
/// # Errors
/// `OutOfMemory` alone.
pub fn aes_siv_key_template(alloc: Global) -> Result<KeyTemplate, TinkError>
    ensures { Answers result (Ok aes_siv_template) }
{
    let format = AesSivKeyFormat {
        key_size: 64,
        version: AES_SIV_KEY_VERSION,
    };
    new_template(alloc, AES_SIV_TYPE_URL, &format, OutputPrefixType::Tink)
}
