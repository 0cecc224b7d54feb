//! What follows for the stream of a text that comes in pieces.

ghost use Rattle.std.specs.Prelude.{◌≡◌, ◌<◌, ◌+◌, ◌++◌, ℕ, Bool, List, length};
ghost use Rattle.stream_model.specs.Cut.{full_chunks, sealed};
ghost use Rattle.tink_c_pieces.specs.Pieces.{HasTaken, PieceMoment, Took, ending, filled, given};

/// What a writer gives, one call after another, is the front and the segments of all pieces joined.
pub fn law_pieces_are_the_stream()
    // a writer that has taken a text and then takes a piece has taken both
    ensures piece { (seg : ℕ → Bool → List ℕ → List ℕ) (first room : ℕ) (front text bytes piece more : List ℕ) (old new : PieceMoment)
        → 0 < first → 0 < room → HasTaken seg first room front text bytes old → more ≡ given seg first room old piece
        → Took seg first room old new piece → HasTaken seg first room front (text ++ piece) (bytes ++ more) new }
    // the number that a piece needs is that of the joined text
    ensures numbers { (seg : ℕ → Bool → List ℕ → List ℕ) (first room : ℕ) (front text bytes piece : List ℕ) (m : PieceMoment)
        → 0 < first → 0 < room → HasTaken seg first room front text bytes m
        → length (full_chunks first room (text ++ piece)) ≡ m.number + length (filled seg first room m piece) }
    // with the last segment the whole stream was given
    ensures whole { (seg : ℕ → Bool → List ℕ → List ℕ) (first room : ℕ) (front text bytes more : List ℕ) (m : PieceMoment)
        → 0 < first → 0 < room → HasTaken seg first room front text bytes m → more ≡ ending seg first room m
        → bytes ++ more ≡ front ++ sealed seg first room text }
{}
