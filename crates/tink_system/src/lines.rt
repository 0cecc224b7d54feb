//! Lines for a terminal.

ghost use Rattle.std.specs.Prelude.{◌≡◌, ◌≤◌, ◌<◌, None, length};
ghost use Rattle.tink_io.specs.Gathering.{OnlyGrows};

use tink_io::{Failed, Kind, Sink, write_all, write_line};

/// Writes bytes as they are. If the sink fails a part of them is written.
pub fn put<E: Sink>(sink: &mut E, bytes: &[u8])
    ensures grows { OnlyGrows (E.got sink.old) (E.got sink.new) }
    ensures same { E.same sink.old sink.new }
{
    let _written = write_all(sink, bytes);
}

/// Writes the name of a file. A control character, and each byte that is no part of UTF-8, is written as `\xNN`: a name
/// cannot steer a terminal. A name of no bytes is written as two quotes.
pub fn put_escaped<E: Sink>(sink: &mut E, name: &[u8])
    ensures grows { OnlyGrows (E.got sink.old) (E.got sink.new) }
    ensures same { E.same sink.old sink.new }
{
    if name.is_empty() {
        put(sink, b"''");
        return;
    }
    let mut at = 0;
    while at < name.len() {
        at += put_next(sink, &name[at..]);
    }
}

// Writes the text at the front, or the one byte there that is written as `\xNN`, and answers how many bytes that were.
fn put_next<E: Sink>(sink: &mut E, name: &[u8]) -> usize
    requires { 0 < length name.now }
    ensures some { 0 < result }
    ensures bound { result ≤ length name.now }
    ensures grows { OnlyGrows (E.got sink.old) (E.got sink.new) }
    ensures same { E.same sink.old sink.new }
{
    let len = plain_len(name);
    if len > 0 {
        put(sink, &name[..len]);
        return len;
    }
    put_hex(sink, name[0]);
    1
}

// How many bytes at the front are text without control characters.
fn plain_len(bytes: &[u8]) -> usize
    ensures { result ≤ length bytes.now }
{
    let text = match str::from_utf8(bytes) {
        Ok(text) => text,
        Err(e) => match str::from_utf8(&bytes[..e.valid_up_to()]) {
            Ok(text) => text,
            Err(_) => "",
        },
    };
    match text.find(char::is_control) {
        Some(at) => at,
        None => text.len(),
    }
}

// Writes one byte as `\xNN`.
fn put_hex<E: Sink>(sink: &mut E, byte: u8)
    ensures grows { OnlyGrows (E.got sink.old) (E.got sink.new) }
    ensures same { E.same sink.old sink.new }
{
    put(sink, &[b'\\', b'x', digit(byte >> 4), digit(byte & 15)]);
}

fn digit(value: u8) -> u8
    requires { value < 16 }
{
    if value < 10 {
        b'0' + value
    } else {
        b'a' + (value - 10)
    }
}

/// Writes the text of a kind.
pub fn put_kind<E: Sink>(sink: &mut E, kind: Kind)
    ensures grows { OnlyGrows (E.got sink.old) (E.got sink.new) }
    ensures same { E.same sink.old sink.new }
{
    let mut unended = Unended { sink };
    write_line(&mut unended, kind);
}

// A sink behind which no newline comes.
#[derive(Drop)]
struct Unended<'a, E> {
    sink: &'a mut E,
}

impl<'a, E: Sink> Sink for Unended<'a, E> {
    ghost got = { λ _. None };

    ghost faults = { λ s. E.faults s.sink.now };

    ghost same = { λ s t. (t.sink.ghost_name ≡ s.sink.ghost_name) × E.same s.sink.now t.sink.now
        × OnlyGrows (E.got s.sink.now) (E.got t.sink.now) };

    fn write(&mut self, buf: &[u8]) -> Result<usize, Failed> {
        let plain = newline_at(buf);
        if plain == 0 && !buf.is_empty() {
            return Ok(1);
        }
        self.sink.write(&buf[..plain])
    }

    ghost use Rattle.std.proofs.Common.{refl, ◌∙◌};
    ghost use Rattle.std.specs.Prelude.{[], ◌++◌};
    ghost use Rattle.std.proofs.KnownBytes.{Appends-nil, Appends-trans};

    ghost same_refl = { λ s. (refl, E.same_refl s.sink.now, ([], Appends-nil (E.got s.sink.now))) };

    ghost same_trans = { λ s t u p q. (
      q.0 ∙ p.0,
      E.same_trans s.sink.now t.sink.now u.sink.now p.1 q.1,
      (p.2.0 ++ q.2.0, Appends-trans _ _ _ _ _ p.2.1 q.2.1),
    ) };
}

// Where the first newline is, or the length.
fn newline_at(buf: &[u8]) -> usize
    ensures { result ≤ length buf.now }
{
    for i in 0..buf.len() {
        if buf[i] == b'\n' {
            return i;
        }
    }
    buf.len()
}
