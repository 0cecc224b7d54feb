//! What is asked, and the test of all rows.

use crate::expected::{Holds, walk};
use crate::shifted::Shift;
use crate::tweaks::zero_tweak;
use crate::{blocks, buffers, tweaks};
use cipher::{InvalidLength, KeyInit};
use std::alloc::{AllocError, Global};

/// What is asked.
pub enum Asked {
    /// Of calls on blocks.
    Block(blocks::Asked),
    /// Of buffers.
    Buffer(buffers::Asked),
    /// Of tweaks.
    Tweak(tweaks::Asked),
    /// How a cipher, the error of its key and a cipher without a tweak are shown.
    Texts,
}

/// Its name, and what is asked.
pub struct Row(pub &'static str, pub Asked);

// Whether they are shown so.
fn texts_are_told(alloc: Global) -> Result<bool, AllocError> {
    let tweak = zero_tweak().clone()?;
    let shown = format!(in alloc; "{}; {}; {:?}", Shift::new(&[1]), InvalidLength, tweak)?;
    Ok(shown.as_str() == "Shift; Invalid Length; ZeroTweak(Tweaked)")
}

impl Holds for Row {
    fn name(&self) -> &'static str {
        self.0
    }

    fn holds(&self, alloc: Global) -> Result<bool, AllocError> {
        match &self.1 {
            Asked::Block(asked) => Ok(blocks::holds(asked)),
            Asked::Buffer(asked) => Ok(buffers::holds(*asked)),
            Asked::Tweak(asked) => Ok(tweaks::holds(asked)),
            Asked::Texts => texts_are_told(alloc),
        }
    }
}

const TEXTS: &[Row] = &[Row("texts", Asked::Texts)];

#[test]
fn all_rows_hold(rt: HostRuntime) {
    let tables = &[blocks::ROWS, buffers::ROWS, tweaks::ROWS, TEXTS];
    walk(&rt, rt.alloc(), tables);
}
