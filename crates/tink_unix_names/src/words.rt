//! The words that the process was started with.

ghost use Rattle.std.specs.Prelude.{◌≡◌, IfErr};
ghost use Rattle.tink_io.specs.declared.error.Kind.TheVariants.{OutOfMemory};

use std::alloc::AllocError;
use std::env::FillError;
use std::rt::Env;
use tink_io::{Kind, TinkError};

// Enough for most words.
const SHORT: usize = 4_096;

/// The words after the program's name, of any bytes.
///
/// # Errors
/// OutOfMemory.
pub fn words_of_process(rt: &HostRuntime) -> Result<Vec<Vec<u8>>, TinkError>
    ensures { IfErr result (λ e. e ≡ record { kind = OutOfMemory }) }
{
    let mut words = Vec::new(rt.alloc());
    for i in 1..usize::MAX {
        match word_at(rt, i) {
            Ok(Some(word)) => match words.push(word) {
                Ok(()) => {}
                Err(_) => return Err(TinkError::new(Kind::OutOfMemory)),
            },
            Ok(None) => return Ok(words),
            Err(_) => return Err(TinkError::new(Kind::OutOfMemory)),
        }
    }
    Ok(words)
}

// One word, or none behind the last.
fn word_at(rt: &HostRuntime, i: usize) -> Result<Option<Vec<u8>>, AllocError> {
    let mut size = SHORT;
    for _ in 0..64 {
        let mut room = zeros(rt, size)?;
        match rt.arg(i, room.as_mut_slice()) {
            Ok(count) => {
                room.truncate(count);
                return Ok(Some(room));
            }
            Err(FillError::NotPresent) => return Ok(None),
            Err(FillError::TooLong) => size = size.saturating_mul(2),
        }
    }
    Ok(None)
}

fn zeros(rt: &HostRuntime, size: usize) -> Result<Vec<u8>, AllocError> {
    let mut room = Vec::new(rt.alloc());
    room.resize(size, 0)?;
    Ok(room)
}
