//! What is asked, and the test of all rows.

use crate::expected::{Holds, walk};
use crate::{messages, modes};
use std::alloc::{AllocError, Global};

/// What is asked.
pub enum Asked {
    /// Of paddings and messages.
    Message(messages::Asked),
    /// Of calls of modes.
    Mode(modes::Asked),
}

/// Its name, and what is asked.
pub struct Row(pub &'static str, pub Asked);

impl Holds for Row {
    fn name(&self) -> &'static str {
        self.0
    }

    fn holds(&self, alloc: Global) -> Result<bool, AllocError> {
        match &self.1 {
            Asked::Message(asked) => Ok(messages::holds(alloc, asked)),
            Asked::Mode(asked) => Ok(modes::holds(asked)),
        }
    }
}

#[test]
fn all_rows_hold(rt: HostRuntime) {
    walk(&rt, rt.alloc(), &[messages::ROWS, modes::ROWS]);
}
