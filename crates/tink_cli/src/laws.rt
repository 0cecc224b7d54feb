//! Which lines are those of the program over the standard streams.

ghost use Rattle.std.specs.Prelude.{◌≡◌, ℕ, List, true};
ghost use Rattle.tink_cli.specs.Claims.{is_of_streams};
ghost use Rattle.tink_program.specs.Words.{Asked, Spells};

/// A line that spells a command of the program over the standard streams is given to that program.
#[tactic(auto, using(crate::proofs::ClaimFacts::claimed))]
pub fn law_streams_claimed()
    ensures { (words : List (List ℕ)) (a : Asked) → Spells words a → is_of_streams words ≡ true }
{}
