//! Lines on standard error that are no refusal.

use tink_io::StdSink;
use tink_system::lines::{put, put_escaped};

/// Writes one line: a name, and the facts about it.
pub fn note(rt: &HostRuntime, name: &str, parts: &[&str]) {
    let mut error = StdSink::new(rt.stderr());
    put(&mut error, b"tink: ");
    put_escaped(&mut error, name.as_bytes());
    put(&mut error, b": ");
    for part in parts {
        put(&mut error, part.as_bytes());
    }
    put(&mut error, b"\n");
}
