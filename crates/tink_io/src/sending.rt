//! Bytes that wait for a sink.

ghost use Rattle.std.specs.Prelude.{◌≡◌, ◌≤◌, ◌+◌, ◌-◌, ◌++◌, [], length, take, drop, vec_len, vec_capacity, Ok, OnOk};
ghost use Rattle.std.specs.Io.KnownBytes.{Appends, Keeps, append_known};
ghost use Rattle.tink_io.specs.Faults.{CountsFault};
ghost use Rattle.tink_io.specs.Gathering.{HandsOn, OnlyGrows};

use crate::{Failed, Sink};

// Writes bytes until all are written or the sink fails, and answers how many the sink has taken.
fn send<K: Sink>(sink: &mut K, bytes: &[u8]) -> (usize, Result<(), Failed>)
    ensures bound { result.0 ≤ length bytes.now }
    ensures all { OnOk result.1 (result.0 ≡ length bytes.now) }
    ensures written { Appends (K.got sink.old) (K.got sink.new) (take result.0 bytes.now) }
    ensures cause { CountsFault (K.faults sink.old) (K.faults sink.new) result.1 }
    ensures same { K.same sink.old sink.new }
{
    let mut sent = 0;
    while sent < bytes.len() {
        match sink.write(&bytes[sent..]) {
            Ok(count) => sent += count,
            Err(failed) => return (sent, Err(failed)),
        }
    }
    (sent, Ok(()))
}

// Takes the first n bytes away.
fn drop_first(bytes: &mut Vec<u8>, n: usize)
    requires { n ≤ vec_len bytes.old }
    ensures items { bytes.new.items ≡ drop n bytes.old.items }
    ensures capacity { vec_capacity bytes.new ≡ vec_capacity bytes.old }
{
    let len = bytes.len();
    bytes.as_mut_slice().copy_within(n..len, 0);
    bytes.truncate(len - n);
}

/// Writes all that waits. If nothing waits, the sink is not called.
///
/// # Errors
/// `Failed` if the sink failed. What was not written waits still.
pub fn drain<K: Sink>(sink: &mut K, waiting: &mut Vec<u8>) -> Result<(), Failed>
    ensures empty { OnOk result (waiting.new.items ≡ []) }
    ensures handed { HandsOn (K.got sink.old) (K.got sink.new) waiting.old.items waiting.new.items }
    ensures kept { Keeps (append_known (K.got sink.old) waiting.old.items)
        (append_known (K.got sink.new) waiting.new.items) }
    ensures cause { CountsFault (K.faults sink.old) (K.faults sink.new) result }
    ensures grows { OnlyGrows (K.got sink.old) (K.got sink.new) }
    ensures still { waiting.old.items ≡ [] → (result ≡ Ok tt) × (sink.new ≡ sink.old) }
    ensures same { K.same sink.old sink.new }
    ensures capacity { vec_capacity waiting.new ≡ vec_capacity waiting.old }
{
    if waiting.is_empty() {
        return Ok(());
    }
    let (sent, answer) = send(sink, waiting.as_slice());
    drop_first(waiting, sent);
    answer
}

/// Lets bytes wait that there is memory for.
pub fn keep(waiting: &mut Vec<u8>, bytes: &[u8])
    requires { vec_len waiting.old + length bytes.now ≤ vec_capacity waiting.old }
    ensures items { waiting.new.items ≡ waiting.old.items ++ bytes.now }
    ensures capacity { vec_capacity waiting.old ≤ vec_capacity waiting.new }
{
    match waiting.extend_from_slice(bytes) {
        Ok(()) => {}
        Err(_) => unreachable!(),
    }
}
