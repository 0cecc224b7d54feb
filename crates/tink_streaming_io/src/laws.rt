ghost use Rattle.std.specs.Prelude.{◌≡◌, ◌<◌, ◌++◌, ℕ, Bool, true, List, length};
ghost use Rattle.stream_model.specs.Cut.{full_chunks, open_chunk, sealed, unmarked};
ghost use Rattle.tink_streaming_io.specs.Full.{AreFull};
ghost use Rattle.tink_streaming_io.specs.Writing.{WriterMoment, Wrote};

/// A stream depends on its text alone, however the text is cut into writes. The writes of one text and then
/// of another are the write of both at once.
pub fn law_any_cutting()
    ensures joined { (seg : ℕ → Bool → List ℕ → List ℕ) (first room : ℕ) (old between new : WriterMoment)
        (text more : List ℕ) → 0 < first → 0 < room → Wrote seg first room old between text
        → Wrote seg first room between new more → Wrote seg first room old new (text ++ more) }
{}

/// The segments of a text: the first has room for `first` bytes, each later one for `room`. All but the last
/// are unmarked and full, and the marked last one is empty for the empty text alone.
pub fn law_full_segments()
    ensures parts { (seg : ℕ → Bool → List ℕ → List ℕ) (first room : ℕ) (text : List ℕ)
        → sealed seg first room text ≡ unmarked seg 0 (full_chunks first room text)
        ++ seg (length (full_chunks first room text)) true (open_chunk first room text) }
    ensures full { (first room : ℕ) (text : List ℕ) → 0 < first → 0 < room
        → AreFull first room (full_chunks first room text) }
    ensures last { (first room : ℕ) (text : List ℕ) → 0 < first → 0 < room
        → 0 < length text → 0 < length (open_chunk first room text) }
{}
