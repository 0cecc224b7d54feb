//! The walk over tables, and the one place that compares.

use std::alloc::{AllocError, Global};
use std::process::Abort;

// Stops where a row does not hold, by its name.
fn check(rt: &impl Abort, holds: bool, row: &str) {
    assert!(rt; holds, "{row}");
}

/// A row of a table. The walk is generic in it, since the lifetimes of a loop over rows of many references take long.
pub trait Holds {
    /// What it is called.
    fn name(&self) -> &'static str;

    /// Whether it is so.
    fn holds(&self, alloc: Global) -> Result<bool, AllocError>;
}

/// Walks tables.
pub fn walk<R: Holds>(rt: &impl Abort, alloc: Global, tables: &[&[R]]) {
    for rows in tables {
        for row in *rows {
            match row.holds(alloc) {
                Ok(holds) => check(rt, holds, row.name()),
                Err(_) => check(rt, false, "OutOfMemory"),
            }
        }
    }
}
