ghost use Rattle.std.specs.Prelude.{◌≡◌, ◌≤◌, ◌<◌, ◌+◌, ◌-◌, ℕ, ◌++◌, Bool, List, [], length, take, Result, Ok, Err};
ghost use Rattle.std.specs.declared.option.Option.{Option};
ghost use Rattle.tink_io.specs.declared.error.Cause.{Cause};
ghost use Rattle.tink_io.specs.declared.error.Kind.TheVariants.{FailedBefore};
ghost use Rattle.tink_io.specs.declared.error.TinkError.{TinkError};
ghost use Rattle.tink_streaming_io.specs.declared.progress.Progress.TheVariants.{Failed};
ghost use Rattle.tink_streaming_io.specs.Reading.{HasNotFailed, NothingComes};
ghost use Rattle.tink_streaming_io.specs.TextReading.{TextMoment, AtEnd, ReadMeans, Gave, IsAllText, IsTextOf, IsLongest, of_segments};

/// A read of a reader at its end answers `Ok(0)`, and a read of one that failed answers the cause. Both leave the
/// reader as it was, and so the next read, and each after it, does the same.
pub fn law_for_good()
    ensures end { (seg : ℕ → Bool → List ℕ → List ℕ) (first size overhead : ℕ) (old new : TextMoment)
        (before after : List ℕ) (r : Result ℕ TinkError)
        → AtEnd old → ReadMeans seg first size overhead old new before after r → (r ≡ Ok 0) × (new ≡ old) }
    ensures failed { (seg : ℕ → Bool → List ℕ → List ℕ) (first size overhead : ℕ) (old new : TextMoment)
        (before after : List ℕ) (r : Result ℕ TinkError) (c : Cause)
        → old.progress ≡ Failed c → ReadMeans seg first size overhead old new before after r
        → (r ≡ Err (record { kind = FailedBefore c })) × (new ≡ old) }
{}

/// A read to an empty buffer answers `Ok(0)` and leaves the reader as it was, unless it failed before.
pub fn law_empty_buffer()
    ensures empty { (seg : ℕ → Bool → List ℕ → List ℕ) (first size overhead : ℕ) (old new : TextMoment) (after : List ℕ)
        (r : Result ℕ TinkError)
        → HasNotFailed old.progress → ReadMeans seg first size overhead old new [] after r → (r ≡ Ok 0) × (new ≡ old) }
{}

/// If reads from a new reader on, to buffers of any lengths, reach the end, they have given exactly the text of the
/// stream. All chunks are the segments of some texts, and what was given is these texts joined. If a segment is longer
/// than its text by the overhead, all bytes are their segments in order. If no text agrees with the bytes left, it is
/// the longest list of texts that agrees with the chunks, joined.
pub fn law_whole_text()
    ensures fresh { (seg : ℕ → Bool → List ℕ → List ℕ) (first size : ℕ) (m : TextMoment) → m.number ≡ 0 → m.pending ≡ []
        → Gave seg first size m.rest [] m }
    ensures more { (seg : ℕ → Bool → List ℕ → List ℕ) (first size overhead : ℕ) (all : Option (List ℕ)) (given : List ℕ)
        (old new : TextMoment) (before after : List ℕ) (n : ℕ)
        → Gave seg first size all given old → ReadMeans seg first size overhead old new before after (Ok n)
        → Gave seg first size all (given ++ take n after) new }
    ensures whole { (seg : ℕ → Bool → List ℕ → List ℕ) (first size : ℕ) (all : Option (List ℕ)) (given : List ℕ)
        (m : TextMoment) → Gave seg first size all given m → AtEnd m → IsAllText seg first size all given }
    ensures stream { (seg : ℕ → Bool → List ℕ → List ℕ) (o first size : ℕ) (all : Option (List ℕ)) (given : List ℕ)
        → ((i : ℕ) (last : Bool) (t : List ℕ) → length (seg i last t) ≡ length t + o) → o < first → first ≤ size
        → IsAllText seg first size all given → IsTextOf seg (first - o) (size - o) all given }
    ensures stopped { (seg : ℕ → Bool → List ℕ → List ℕ) (first size : ℕ) (all : Option (List ℕ)) (given : List ℕ)
        (m : TextMoment) → Gave seg first size all given m → m.pending ≡ [] → NothingComes seg first size (of_segments m)
        → IsLongest seg first size all given }
{}
