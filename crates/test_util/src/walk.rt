//! Tables of rows, and what walks them.

use crate::{Answer, Verdict};
use std::alloc::Global;
use tink_io::TinkError;

/// What a row asks of a value.
pub trait Ask<C> {
    /// Whether it is as the row says, or how the call is refused.
    fn answer(&self, alloc: Global, of: &mut C) -> Result<bool, TinkError>;
}

impl Verdict {
    /// Takes what each row answers of a value, in their order, and lets the value go. A row is its name, what it asks,
    /// and what it is to answer.
    pub fn walk<C: Drop, A: Ask<C>>(
        &mut self,
        alloc: Global,
        of: C,
        rows: &[(&'static str, A, Answer)],
    ) {
        let mut of = of;
        for row in rows {
            self.expect(row.1.answer(alloc, &mut of), row.2, row.0);
        }
    }

    /// The same of a value that was made. Where it is refused, that fails under this name.
    pub fn walk_made<C: Drop, A: Ask<C>>(
        &mut self,
        alloc: Global,
        made: Result<C, TinkError>,
        name: &'static str,
        rows: &[(&'static str, A, Answer)],
    ) {
        match made {
            Ok(of) => self.walk(alloc, of, rows),
            Err(e) => self.expect(Err(e), Ok(true), name),
        }
    }
}

/// What a row answers of a value that was made, which it lets go, or the refusal to make it.
pub fn ask_made<C: Drop, A: Ask<C>>(
    alloc: Global,
    made: Result<C, TinkError>,
    ask: &A,
) -> Result<bool, TinkError> {
    match made {
        Ok(of) => {
            let mut of = of;
            ask.answer(alloc, &mut of)
        }
        Err(e) => Err(e),
    }
}
