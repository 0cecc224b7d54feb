//! A place over memory: what is shown, and what a draft leaves.

ghost use Rattle.std.specs.Prelude.{◌≡◌, true, OnErr};

use crate::expect::expect;
use std::alloc::Global;
use tink_io::saving::{finish, save};
use tink_io::{Kind, MemPlace, Place, TinkError};

// What is there before, and what is written.
const BEFORE: &[u8] = b"before";

const TEXT: &[u8] = b"a text";

// A place with so much room under whose name a file stands.
fn place_of(alloc: Global, room: usize, replaces: bool, can_show: bool) -> Option<MemPlace> {
    let shown = Vec::from_slice(alloc, BEFORE).ok()?;
    let mut place = MemPlace::new(alloc, room, Some(shown)).ok()?;
    place.replaces = replaces;
    place.can_show = can_show;
    Some(place)
}

// Whether the text is shown, or what was before; a draft is none.
fn shows(place: &MemPlace, text: &[u8]) -> bool {
    match &place.shown {
        Some(bytes) => !place.has_draft && bytes.as_slice() == text,
        None => false,
    }
}

// A text in place of what stands under the name. By a refusal that stays.
fn save_text<P: Place>(place: &mut P, text: &[u8]) -> Result<(), TinkError>
    requires { P.has_draft place.old ≡ true }
    ensures { OnErr result (P.shown place.new ≡ P.shown place.old) }
{
    save(place, text)
}

// Whether a save shows the text, and else what was before.
fn saves(alloc: Global, room: usize, replaces: bool, can_show: bool) -> Option<bool> {
    let mut place = place_of(alloc, room, replaces, can_show)?;
    if !place.has_draft {
        return None;
    }
    match save_text(&mut place, TEXT) {
        Ok(()) if shows(&place, TEXT) => Some(true),
        Err(e) if e.kind == Kind::WriteFault && shows(&place, BEFORE) => Some(false),
        _ => None,
    }
}

// The room, whether the place replaces and can show, and whether the text is shown.
const PLACES: &[(&str, usize, bool, bool, bool)] = &[
    ("a text that fits", 6, true, true, true),
    ("a text without room", 5, true, true, false),
    ("a place that replaces no file", 6, false, true, false),
    ("a place that shows no file", 6, true, false, false),
];

#[test]
fn a_text_is_shown_whole_or_not_at_all(rt: HostRuntime) {
    for (row, room, replaces, can_show, is_shown) in PLACES {
        let saves = saves(rt.alloc(), *room, *replaces, *can_show);
        expect(&rt, saves, Some(*is_shown), row);
    }
}

// Whether a refusal is given on, and leaves what was before.
fn refuses(place: &mut MemPlace) -> bool {
    if !place.has_draft {
        return false;
    }
    let refusal = TinkError::new(Kind::NoMatchingKey);
    let answer: Result<u8, TinkError> = finish(place, Err(refusal));
    answer == Err(refusal) && shows(place, BEFORE)
}

// The same of a place that is made.
fn is_refused(alloc: Global) -> Option<bool> {
    let mut place = place_of(alloc, 6, true, true)?;
    Some(refuses(&mut place))
}

#[test]
fn a_refusal_takes_the_draft_away(rt: HostRuntime) {
    expect(&rt, is_refused(rt.alloc()), Some(true), "a refusal");
}
