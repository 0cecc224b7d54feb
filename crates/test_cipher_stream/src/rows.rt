//! What is asked, and the test of all rows.

use crate::expected::expect;
use crate::streams::{a_clone_goes_on, fresh};
use crate::{core_calls, positions, streams};
use cipher_stream::{OverflowError, StreamCipher, StreamCipherError};
use std::alloc::{AllocError, Global};

/// What is asked.
pub enum Asked {
    /// Of calls of cores.
    Core(core_calls::Asked),
    /// Of positions as numbers.
    Position(positions::Asked),
    /// Of the buffer over a core.
    Stream(streams::Asked),
    /// That a clone goes on.
    Clone,
    /// How the buffer and the errors are shown.
    Texts,
}

/// Its name, and what is asked.
pub type Row = (&'static str, Asked);

// Whether they are shown so. Of the wrapper some bytes of a block were used, and the others wait.
fn texts_are_told(alloc: Global) -> Result<bool, AllocError> {
    let mut begun = fresh();
    let mut bytes = [0; 3];
    begun.write_keystream(&mut bytes);
    let shown = format!(in alloc; "{:?}; {}; {}", begun, StreamCipherError, OverflowError)?;
    Ok(shown.as_str() == "StreamCipherCoreWrapper { .. }; Loop Error; Overflow Error")
}

fn holds(alloc: Global, asked: &Asked) -> Result<bool, AllocError> {
    match asked {
        Asked::Core(asked) => Ok(core_calls::holds(*asked)),
        Asked::Position(asked) => Ok(positions::holds(*asked)),
        Asked::Stream(asked) => Ok(streams::holds(asked)),
        Asked::Clone => a_clone_goes_on(),
        Asked::Texts => texts_are_told(alloc),
    }
}

const OTHERS: &[Row] = &[("a clone", Asked::Clone), ("texts", Asked::Texts)];

const ROWS: &[&[Row]] = &[core_calls::ROWS, positions::ROWS, streams::ROWS, OTHERS];

#[test]
fn all_rows_hold(rt: HostRuntime) {
    for rows in ROWS {
        for (row, asked) in *rows {
            expect(&rt, holds(rt.alloc(), asked), row);
        }
    }
}
