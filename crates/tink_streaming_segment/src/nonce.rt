ghost use Rattle.std.specs.Prelude.{◌≡◌, ◌≤◌, ◌<◌, ◌+◌, ◌^◌, ◌↔◌, ℕ, List, length, OnOk, OnErr, IfErr, IsErr};
ghost use Rattle.stream_model.specs.Cut.{nonce};
ghost use Rattle.tink_io.specs.declared.error.Kind.TheVariants.{TooManySegments};

use tink_io::{Kind, TinkError};

/// Writes the nonce of a segment: the nonce prefix, the number in four big-endian bytes, the mark of the last segment,
/// zeros.
///
/// # Errors
/// `TooManySegments` exactly if the number is 2^32 or more. Nothing is written then.
pub fn generate_segment_nonce(
    out: &mut [u8],
    prefix: &[u8],
    number: u64,
    last: bool,
) -> Result<(), TinkError>
    requires { length prefix.now + 5 ≤ length out.old }
    ensures ok { OnOk result (out.new ≡ nonce (length out.old) prefix.now number last) }
    ensures refused { IfErr result (λ e. e ≡ record { kind = TooManySegments }) }
    ensures exactly { IsErr result ↔ (2 ^ 32 ≤ number) }
    ensures kept { OnErr result (out.new ≡ out.old) }
{
    let Ok(number) = u32::try_from(number) else {
        return Err(TinkError::new(Kind::TooManySegments));
    };
    let n = prefix.len();
    out[..n].copy_from_slice(prefix);
    out[n..n + 4].copy_from_slice(&number.to_be_bytes());
    out[n + 4..n + 5].copy_from_slice(&[u8::from(last)]);
    out[n + 5..].fill(0);
    Ok(())
}
