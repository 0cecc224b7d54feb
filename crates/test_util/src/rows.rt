//! What the rows of tests answer, and which of them fail.

ghost use Rattle.std.specs.Prelude.{◌≡◌, ◌||◌, None, not};
ghost use Rattle.std.specs.Option.{is_some};
ghost use Rattle.test_util.specs.Rows.{answer_of};

use std::alloc::Global;
use tink_io::{Kind, TinkError};
use tink_keysets::keyset::Handle;
use tink_keysets::keyset::insecure::{decode, new_handle};

/// Whether a row is as it says, or how its call is refused.
pub type Answer = Result<bool, Kind>;

/// A row that answers another thing than is wanted.
#[derive(Clone, Copy, Debug, PartialEq)]
pub struct Failure {
    pub row: &'static str,
    pub got: Answer,
    pub want: Answer,
}

/// What rows tell: the first of them that fails. The test of a crate above asserts that there is none.
#[derive(Drop)]
pub struct Verdict {
    pub failure: Option<Failure>,
}

impl Verdict {
    pub fn new() -> Self
        ensures { result.failure ≡ None }
    {
        Verdict { failure: None }
    }

    /// Takes what a row answers, and what it is to answer. There is a failure where there was one, or the two differ.
    pub fn expect(&mut self, got: Result<bool, TinkError>, want: Answer, row: &'static str)
        ensures { is_some self.new.failure
            ≡ is_some self.old.failure || not (⟦<Answer as PartialEq>⟧.eq (answer_of got) want) }
    {
        let got = answer_of(got);
        if self.failure.is_none() && got != want {
            self.failure = Some(Failure { row, got, want });
        }
    }
}

/// What a row answers, with the kind of a refusal.
pub fn answer_of(got: Result<bool, TinkError>) -> Answer
    ensures { result ≡ answer_of got }
{
    match got {
        Ok(holds) => Ok(holds),
        Err(e) => Err(e.kind),
    }
}

/// Whether something was made, and no refusal.
pub fn succeeds<T: Drop>(answer: Result<T, TinkError>) -> Result<bool, TinkError> {
    match answer {
        Ok(_) => Ok(true),
        Err(e) => Err(e),
    }
}

/// The handle of a keyset in the wire format.
pub fn handle(alloc: Global, keyset: &[u8]) -> Result<Handle, TinkError> {
    match decode(alloc, keyset) {
        Ok(ks) => new_handle(ks),
        Err(e) => Err(e),
    }
}
