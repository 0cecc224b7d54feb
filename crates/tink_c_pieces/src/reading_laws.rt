//! What follows for the text of a stream that comes in pieces.

ghost use Rattle.std.specs.Prelude.{◌≡◌, ◌++◌, ℕ, Bool, List, [], All, Option, take};
ghost use Rattle.stream_model.specs.Opening.{IsChosen, OpeningKey};
ghost use Rattle.tink_streaming_io.specs.declared.progress.Progress.TheVariants.{Ended};
ghost use Rattle.tink_c_pieces.specs.Readings.{Feeds, Finishes, HasBeginning, HasRead, HasReadAll, PieceReading};

/// What a reader gives, one call after another, is the text of the segments that came, and never a byte of a segment that
/// does not open.
pub fn law_pieces_are_read()
    // a reader that takes bytes of a piece has read what came before and these bytes
    ensures piece { (seg : ℕ → Bool → List ℕ → List ℕ) (first size : ℕ) (came given piece : List ℕ) (n : ℕ) (old new : PieceReading)
        → old.pending ≡ [] → HasRead seg first size came given old → Feeds seg first size old new piece n
        → HasRead seg first size (came ++ take n piece) given new }
    // a reader that has ended has read the segments of a whole text, and gave that text but for what waits
    ensures whole { (seg : ℕ → Bool → List ℕ → List ℕ) (first size : ℕ) (came given : List ℕ) (old new : PieceReading)
        → old.pending ≡ [] → new.progress ≡ Ended → HasRead seg first size came given old
        → Finishes seg first size old new → HasReadAll seg first size came (given ++ new.pending) }
    // the key that is chosen of a beginning is chosen of all that may come behind it
    ensures key { (ks : List OpeningKey) (came more : List ℕ) (chosen : Option OpeningKey) → All (HasBeginning came) ks
        → IsChosen ks came chosen → IsChosen ks (came ++ more) chosen }
{}
