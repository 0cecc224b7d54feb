//! A file is shown whole, or not at all.

ghost use Rattle.std.specs.Prelude.{◌≡◌, ◌≤◌, true, false, IfErr, OnOk, OnErr};
ghost use Rattle.tink_io.specs.Faults.{Rose};
ghost use Rattle.tink_io.specs.declared.error.Kind.TheVariants.{WriteFault};
ghost use Rattle.tink_io.specs.Places.{Ends, IsSaved};

use crate::{Kind, Place, TinkError, write_all};

/// Ends a draft by the answer of the call that wrote it. If that is Ok, the draft is shown. Else it is taken away,
/// and the file under the name stays.
///
/// # Errors
/// That of the answer; `WriteFault` where the draft could not be shown.
pub fn finish<P: Place, T: Copy>(
    place: &mut P,
    answer: Result<T, TinkError>,
) -> Result<T, TinkError>
    requires { P.has_draft place.old ≡ true }
    ensures ends { Ends (P.got place.old) (P.replaces place.old) (P.shown place.old) (P.shown place.new)
        (P.faults place.old) (P.faults place.new) answer result }
    ensures gone { P.has_draft place.new ≡ false }
    ensures later { P.faults place.old ≤ P.faults place.new }
    ensures rest { P.rest place.old place.new }
{
    match answer {
        Err(e) => {
            place.discard();
            Err(e)
        }
        Ok(value) => match place.show() {
            Ok(()) => Ok(value),
            Err(_) => {
                place.discard();
                Err(TinkError::new(Kind::WriteFault))
            }
        },
    }
}

/// Writes the bytes behind what the draft has, and shows it.
///
/// # Errors
/// `WriteFault` where the draft could not be written or shown: what was shown stays.
pub fn save<P: Place>(place: &mut P, bytes: &[u8]) -> Result<(), TinkError>
    requires { P.has_draft place.old ≡ true }
    ensures ok { OnOk result
        (IsSaved (P.got place.old) bytes.now (P.replaces place.old) (P.shown place.old) (P.shown place.new)) }
    ensures err { OnErr result (P.shown place.new ≡ P.shown place.old) }
    ensures refused { IfErr result (λ e. e ≡ record { kind = WriteFault }) }
    ensures cause { OnErr result (Rose (P.faults place.old) (P.faults place.new)) }
    ensures gone { P.has_draft place.new ≡ false }
    ensures later { P.faults place.old ≤ P.faults place.new }
    ensures rest { P.rest place.old place.new }
{
    let written = write_all(place, bytes);
    finish(place, written)
}
