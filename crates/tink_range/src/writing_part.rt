ghost use Rattle.std.specs.Prelude.{◌≡◌, ◌≤◌, ◌<◌, ◌+◌, length, IfOk, IfErr, OnOk, OnErr};
ghost use Rattle.std.specs.Io.KnownBytes.{Appends};
ghost use Rattle.tink_io.specs.declared.error.Kind.TheVariants.{WriteFault};
ghost use Rattle.tink_io.specs.Faults.{Rose};
ghost use Rattle.tink_io.specs.Written.{AppendsPrefix};
ghost use Rattle.tink_range.specs.Ranges.{within};

use tink_io::{Sink, TinkError, write_all};

/// Writes the part of a text that the range from `lo` to below `hi` has. The text begins at byte `at`. The answer is
/// how many bytes it wrote.
///
/// # Errors
/// `WriteFault` if the sink failed, with a prefix of the part written.
pub fn write_part<K: Sink>(
    sink: &mut K,
    text: &[u8],
    at: u64,
    lo: u64,
    hi: u64,
) -> Result<u64, TinkError>
    requires range { lo ≤ hi }
    requires before { at ≤ hi }
    requires touched { lo ≤ at + length text.now }
    ensures written { OnOk result (Appends (K.got sink.old) (K.got sink.new) (within lo hi at text.now)) }
    ensures count { IfOk result (λ n. n ≡ length (within lo hi at text.now)) }
    ensures prefix { OnErr result (AppendsPrefix (K.got sink.old) (K.got sink.new) (within lo hi at text.now)) }
    ensures refused { IfErr result (λ e. e ≡ record { kind = WriteFault }) }
    ensures cause { OnErr result (Rose (K.faults sink.old) (K.faults sink.new)) }
    ensures later { K.faults sink.old ≤ K.faults sink.new }
    ensures same { K.same sink.old sink.new }
{
    let from = lo.saturating_sub(at) as usize;
    let to = (hi - at).min(text.len() as u64) as usize;
    match write_all(sink, &text[from..to]) {
        Ok(()) => Ok((to - from) as u64),
        Err(e) => Err(e),
    }
}
