//! Writing to sinks: bytes whole, and the line of a refusal.

ghost use Rattle.std.specs.Prelude.{◌≡◌, ◌≤◌, ◌+◌, ◌<◌, [], ◌∷◌, ℕ, List, length, take, IfErr, OnOk, OnErr, decimal};
ghost use Rattle.std.specs.Fmt.{signed_decimal};
ghost use Rattle.std.specs.Io.KnownBytes.{Appends};
ghost use Rattle.tink_io.specs.Faults.{Rose};
ghost use Rattle.tink_io.specs.Texts.{kind_line, kind_rest, kind_text, cause_number, cause_text};
ghost use Rattle.tink_io.specs.Written.{AppendsPrefix, WritesOrFaults, WritesTo};
ghost use Rattle.tink_io.specs.declared.error.Kind.TheVariants.{WriteFault};

use crate::{Cause, Kind, Sink, TinkError};

/// Writes all of the bytes, in as many calls as the sink wants.
///
/// # Errors
/// `WriteFault` if the sink failed. A prefix of the bytes is written then.
pub fn write_all<K: Sink>(sink: &mut K, bytes: &[u8]) -> Result<(), TinkError>
    ensures written { OnOk result (Appends (K.got sink.old) (K.got sink.new) bytes.now) }
    ensures prefix { OnErr result (AppendsPrefix (K.got sink.old) (K.got sink.new) bytes.now) }
    ensures refused { IfErr result (λ e. e ≡ record { kind = WriteFault }) }
    ensures cause { OnErr result (Rose (K.faults sink.old) (K.faults sink.new)) }
    ensures later { K.faults sink.old ≤ K.faults sink.new }
    ensures same { K.same sink.old sink.new }
{
    let mut done = 0;
    while done < bytes.len() {
        match sink.write(&bytes[done..]) {
            Ok(count) => done += count,
            Err(_) => return Err(TinkError::new(Kind::WriteFault)),
        }
    }
    Ok(())
}

/// Writes the text of a kind and a newline. If the sink fails, a prefix of the line is written. It takes no
/// memory.
pub fn write_line<K: Sink>(sink: &mut K, kind: Kind)
    ensures line { WritesOrFaults (K.got sink.old) (K.got sink.new)
        (K.faults sink.old) (K.faults sink.new) (kind_line kind) }
    ensures later { K.faults sink.old ≤ K.faults sink.new }
    ensures same { K.same sink.old sink.new }
{
    let _ = try_line(sink, kind);
}

// The same, with its answer.
fn try_line<K: Sink>(sink: &mut K, kind: Kind) -> Result<(), TinkError>
    ensures writes { WritesTo K.got K.faults sink.old sink.new result (kind_line kind) }
    ensures same { K.same sink.old sink.new }
{
    put_kind(sink, kind)?;
    put(sink, b"\n")
}

// Writes the text of a kind.
fn put_kind<K: Sink>(sink: &mut K, kind: Kind) -> Result<(), TinkError>
    ensures writes { WritesTo K.got K.faults sink.old sink.new result (kind_text kind) }
    ensures same { K.same sink.old sink.new }
{
    put(sink, kind.words().as_bytes())?;
    put_rest(sink, kind)
}

// Writes a kind's number or the text of its cause.
fn put_rest<K: Sink>(sink: &mut K, kind: Kind) -> Result<(), TinkError>
    ensures writes { WritesTo K.got K.faults sink.old sink.new result (kind_rest kind) }
    ensures same { K.same sink.old sink.new }
{
    match kind {
        Kind::WrongStatus(status) => put_signed(sink, status),
        Kind::FailedBefore(cause) => put_cause(sink, cause),
        Kind::BadSegment(number) | Kind::Truncated(number) => put_decimal(sink, number),
        _ => Ok(()),
    }
}

// Writes the text of a cause.
fn put_cause<K: Sink>(sink: &mut K, cause: Cause) -> Result<(), TinkError>
    ensures writes { WritesTo K.got K.faults sink.old sink.new result (cause_text cause) }
    ensures same { K.same sink.old sink.new }
{
    put(sink, cause.words().as_bytes())?;
    put_number(sink, cause)
}

// Writes a cause's number.
fn put_number<K: Sink>(sink: &mut K, cause: Cause) -> Result<(), TinkError>
    ensures writes { WritesTo K.got K.faults sink.old sink.new result (cause_number cause) }
    ensures same { K.same sink.old sink.new }
{
    match cause {
        Cause::BadSegment(number) | Cause::Truncated(number) => put_decimal(sink, number),
        _ => Ok(()),
    }
}

// Writes a number in decimal digits, with a sign where it is below 0.
fn put_signed<K: Sink>(sink: &mut K, number: i32) -> Result<(), TinkError>
    ensures writes { WritesTo K.got K.faults sink.old sink.new result (signed_decimal number) }
    ensures same { K.same sink.old sink.new }
{
    if number >= 0 {
        return put_decimal(sink, number.unsigned_abs());
    }
    put(sink, b"-")?;
    put_decimal(sink, number.unsigned_abs())
}

// Writes a number in decimal digits.
fn put_decimal<K: Sink>(sink: &mut K, number: u32) -> Result<(), TinkError>
    ensures writes { WritesTo K.got K.faults sink.old sink.new result (decimal number) }
    ensures same { K.same sink.old sink.new }
{
    if number < 10 {
        return put_digit(sink, number);
    }
    put_decimal(sink, number / 10)?;
    put_digit(sink, number % 10)
}

// Writes one decimal digit.
fn put_digit<K: Sink>(sink: &mut K, digit: u32) -> Result<(), TinkError>
    requires { digit < 10 }
    ensures writes { WritesTo K.got K.faults sink.old sink.new result ((48 + digit) ∷ []) }
    ensures same { K.same sink.old sink.new }
{
    put(sink, &[b'0' + digit as u8])
}

// Writes all of the bytes, said by one word.
fn put<K: Sink>(sink: &mut K, bytes: &[u8]) -> Result<(), TinkError>
    ensures writes { WritesTo K.got K.faults sink.old sink.new result bytes.now }
    ensures same { K.same sink.old sink.new }
{
    write_all(sink, bytes)
}
