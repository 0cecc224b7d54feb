//! What a call made is saved.

ghost use Rattle.std.specs.Prelude.{◌≡◌, ◌⊎◌, ◌≤◌, ℕ, List, true, false, Err, IfErr, Result};
ghost use Rattle.tink_io.specs.Answering.{Answers};
ghost use Rattle.tink_io.specs.declared.error.Kind.{Kind};
ghost use Rattle.tink_io.specs.declared.error.Kind.TheVariants.{WriteFault};
ghost use Rattle.tink_cli_files.specs.Saved.{Saves};

use tink_io::saving::{finish, save};
use tink_io::{Place, TinkError};
use tink_proto::Bytes;

/// Saves the bytes that a call made, behind what the draft has. Where it made none the draft is taken away.
///
/// # Errors
/// That of the call; `WriteFault` where the draft could not be written or shown. What was shown stays.
pub fn save_answer<P: Place>(
    place: &mut P,
    answer: Result<Bytes, TinkError>,
) -> Result<(), TinkError>
    requires { P.has_draft place.old ≡ true }
    ensures saves { (told : Result (List ℕ) Kind) → Answers answer told
        → Saves told result (P.got place.old) (P.replaces place.old) (P.shown place.old) (P.shown place.new)
        (P.faults place.old) (P.faults place.new) }
    ensures refused { IfErr answer (λ e. result ≡ Err e) }
    ensures kinds { IfErr result (λ e. (answer ≡ Err e) ⊎ (e ≡ record { kind = WriteFault })) }
    ensures gone { P.has_draft place.new ≡ false }
    ensures place { P.rest place.old place.new }
    ensures later { P.faults place.old ≤ P.faults place.new }
{
    match answer {
        Ok(bytes) => save(place, bytes.as_slice()),
        Err(e) => finish(place, Err(e)),
    }
}
