//! Tests of tink_program, and of the crates below it that its commands use: tables of rows, and the calls that they
//! make over sources and sinks in memory.
#![tactic(auto)]

use crate::calls::Program;
use std::alloc::Global;
use test_rows::WrongRow;

mod callers;
mod calls;
mod tables;

/// The first row that does not hold.
pub fn rows(alloc: Global) -> Option<WrongRow> {
    test_rows::rows(alloc, &Program)
}
