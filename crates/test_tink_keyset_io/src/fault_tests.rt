//! Refusals of masters, readers and writers.

use crate::encrypted_tests::{How, PUBLIC, Step, TWO, answer_row};
use crate::ends::Failing;
use std::alloc::Global;
use test_util::{Answer, Verdict, draws_of};
use tink_io::{Draws, Kind, TinkError};

const READ: Answer = Err(Kind::ReadFault);

const WRITE: Answer = Err(Kind::WriteFault);

const MASTER: Answer = Err(Kind::MasterFailed);

// What is done with an end that fails at each call, the answer, how often the end has failed then, and how many draws
// are left.
const ROWS: &[(&str, Step, Answer, u64, usize)] = &[
    // The draw is taken where the writer fails.
    ("a first draw", Step::Write(How::Bound, TWO), WRITE, 1, 1),
    ("a second draw", Step::Write(How::Bound, TWO), WRITE, 2, 0),
    // A master that refuses writes nothing.
    (
        "a master without draws",
        Step::Write(How::Refused, TWO),
        MASTER,
        2,
        0,
    ),
    (
        "another master without draws",
        Step::Write(How::Bound, TWO),
        MASTER,
        2,
        0,
    ),
    ("encrypted", Step::Read(How::Bound, b""), READ, 3, 0),
    ("without secrets", Step::Read(How::Plain, b""), READ, 4, 0),
    ("as it is", Step::Read(How::AsItIs, b""), READ, 5, 0),
    (
        "a write without secrets",
        Step::Write(How::Plain, PUBLIC),
        WRITE,
        6,
        0,
    ),
    (
        "a write as it is",
        Step::Write(How::AsItIs, PUBLIC),
        WRITE,
        7,
        0,
    ),
];

// The answer, where the end has failed so often and so many draws are left.
fn with_faults(
    alloc: Global,
    end: &mut Failing,
    step: &Step,
    draws: &mut Draws,
    faults: u64,
    left: usize,
) -> Result<bool, TinkError> {
    let got = answer_row(alloc, end, step, draws);
    if end.faults == faults && draws.left() == left {
        got
    } else {
        Ok(false)
    }
}

pub fn faults_come_through(alloc: Global, verdict: &mut Verdict) {
    let mut end = Failing { faults: 0 };
    match draws_of(alloc, b"dr") {
        Ok(mut draws) => {
            for (row, step, want, faults, left) in ROWS {
                let got = with_faults(alloc, &mut end, step, &mut draws, *faults, *left);
                verdict.expect(got, *want, row);
            }
        }
        Err(e) => verdict.expect(Err(e), Ok(true), "draws"),
    }
}
