//! Calls into a place over memory whose name a file has, and the walk over tables of them.

ghost use Rattle.std.specs.Prelude.{◌≡◌, true};

use std::alloc::Global;
use test_util::{Verdict, shows};
use tink_io::{Kind, MemPlace, TinkError};

// What stands under the name before.
const BEFORE: &[u8] = b"before";

/// A call into a place.
pub trait Call {
    fn perform(&self, alloc: Global, place: &mut MemPlace) -> Result<(), TinkError>
        requires { place.old.has_draft ≡ true };
}

/// A call, how much room the draft has, and which file is shown, or how the call is refused.
pub type Row<C> = (&'static str, C, usize, Result<&'static [u8], Kind>);

/// A place with this much room, whose name a file has.
pub fn place_of(alloc: Global, room: usize) -> Option<MemPlace> {
    let shown = Vec::from_slice(alloc, BEFORE).ok()?;
    MemPlace::new(alloc, room, Some(shown)).ok()
}

// Whether a call shows the file and leaves no draft, or is refused so and leaves what stood there.
fn is_answered<C: Call>(
    alloc: Global,
    call: &C,
    place: &mut MemPlace,
    want: Result<&[u8], Kind>,
) -> bool {
    if !place.has_draft {
        return false;
    }
    match (call.perform(alloc, place), want) {
        (Ok(()), Ok(file)) => shows(place, file),
        (Err(e), Err(kind)) => e.kind == kind && shows(place, BEFORE),
        _ => false,
    }
}

/// Takes what each call leaves.
pub fn walk<C: Call>(alloc: Global, verdict: &mut Verdict, rows: &[Row<C>]) {
    for row in rows {
        let is_answered = match place_of(alloc, row.2) {
            Some(mut place) => is_answered(alloc, &row.1, &mut place, row.3),
            None => false,
        };
        verdict.expect(Ok(is_answered), Ok(true), row.0);
    }
}
