//! Words as texts.

ghost use Rattle.std.specs.Prelude.{◌≡◌, IfErr, IfOk};
ghost use Rattle.tink_cli.specs.Claims.{AreTexts};
ghost use Rattle.tink_io.specs.declared.error.Kind.TheVariants.{OutOfMemory};
ghost use Rattle.tink_cli_words.specs.Words.{byte_words};

use std::alloc::Global;
use std::str;
use tink_io::TinkError;

/// The words as texts, and none if one is no UTF-8.
///
/// # Errors
/// `OutOfMemory`.
pub fn texts_of(alloc: Global, words: &[Vec<u8>]) -> Result<Option<Vec<String>>, TinkError>
    ensures texts { IfOk result (AreTexts (byte_words words.now)) }
    ensures refused { IfErr result (λ e. e ≡ record { kind = OutOfMemory }) }
{
    let mut texts = Vec::new(alloc);
    'words: for word in words {
        match str::from_utf8(word.as_slice()) {
            Ok(text) => {
                let text = String::from_str(alloc, text)?;
                texts.push(text)?;
            }
            Err(_) => return Ok(None),
        }
    }
    Ok(Some(texts))
}
