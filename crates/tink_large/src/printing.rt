//! The facts of a large text, in lines.

ghost use Rattle.std.specs.Prelude.{◌≡◌, IfOk, IfErr};
ghost use Rattle.tink_io.specs.declared.error.Kind.TheVariants.{OutOfMemory};
ghost use Rattle.tink_large.specs.Large.{large_lines};

use crate::measuring::Measured;
use std::alloc::Global;
use tink_io::TinkError;

/// Four lines: `text` and the bytes of the text, `stream` and those of the stream, `segments` and their
/// number. `sha256` and the digest of the stream in lower-case hexadecimal digits.
///
/// # Errors
/// `OutOfMemory` alone.
pub fn lines(alloc: Global, m: &Measured) -> Result<Vec<u8>, TinkError>
    ensures lines { IfOk result (λ bytes. bytes.items ≡ large_lines m.now) }
    ensures refused { IfErr result (λ e. e ≡ record { kind = OutOfMemory }) }
{
    let digest = hex::encode(alloc, &m.sha256)?;
    let text = format!(in alloc;
        "text {}\nstream {}\nsegments {}\nsha256 {}\n",
        m.text, m.stream, m.segments, digest
    )?;
    Ok(text.into_bytes())
}
