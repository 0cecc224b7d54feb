//! How many chunks a number of bytes has, and where they begin.

ghost use Rattle.std.specs.Prelude.{◌≡◌, ◌≤◌, ◌<◌, ◌+◌, ◌-◌, ◌^◌, ℕ, List, length, min};
ghost use Rattle.stream_model.specs.Cut.{room_at};
ghost use Rattle.tink_range.specs.Ranges.{text_length};
ghost use Rattle.tink_range.specs.Shapes.{HasShape, IsChunkPlace};

/// The number of chunks (`count`), the bytes of their text (`text`), and the bytes before the last chunk (`last`).
#[derive(Clone, Copy)]
pub struct Shape {
    /// The number of chunks.
    pub count: u64,
    /// The bytes of their text.
    pub text: u64,
    /// The bytes before the last chunk.
    pub last: u64,
}

/// The place of a chunk: its number, the bytes before it (`start`), and the bytes of the text before it (`text`).
#[derive(Clone, Copy)]
pub struct Place {
    /// The number of the chunk, from 0 on.
    pub number: u64,
    /// The bytes before the chunk.
    pub start: u64,
    /// The bytes of the text before it.
    pub text: u64,
}

/// The shape of `behind` bytes. The first chunk has at most `first` bytes, each later one `size`; `over` of them are
/// overhead.
pub fn shape_of(first: u64, size: u64, over: u64, behind: u64) -> Shape
    requires over { over < first }
    requires fits { first ≤ size }
    requires some { 0 < behind }
    ensures shape { (X : List ℕ) → length X ≡ behind
        → HasShape first size over X result.count result.text result.last }
    ensures inside { result.last < behind }
    ensures room { behind ≤ result.last + room_at first size (result.count - 1) }
    ensures some { 0 < result.count }
    ensures text { result.text ≤ behind }
{
    if behind <= first {
        return Shape {
            count: 1,
            text: behind.saturating_sub(over),
            last: 0,
        };
    }
    let more = (behind - first - 1) / size;
    let last = first + more * size;
    let text = (first - over) + more * (size - over) + (behind - last).saturating_sub(over);
    Shape {
        count: more + 2,
        text,
        last,
    }
}

/// The chunk that has the byte `lo` of the text.
pub fn place_of(first: u64, size: u64, over: u64, behind: u64, lo: u64) -> Place
    requires over { over < first }
    requires fits { first ≤ size }
    requires inside { lo < text_length first size over behind }
    ensures place { IsChunkPlace first size over behind lo result.number result.start result.text }
    ensures low { result.text ≤ lo }
{
    let _ = behind;
    let room = first - over;
    if lo < room {
        return Place {
            number: 0,
            start: 0,
            text: 0,
        };
    }
    let more = (lo - room) / (size - over);
    Place {
        number: more + 1,
        start: first + more * size,
        text: room + more * (size - over),
    }
}

/// The place of the next chunk, or the end.
pub fn next_place(first: u64, size: u64, over: u64, behind: u64, place: Place) -> Place
    requires number { place.number < 2 ^ 32 }
    requires start { place.start < behind }
    requires text { place.text ≤ place.start }
    ensures number { result.number ≡ place.number + 1 }
    ensures start { result.start ≡ place.start + min (behind - place.start) (room_at first size place.number) }
    ensures text { result.text ≡ place.text
        + (min (behind - place.start) (room_at first size place.number) - over) }
{
    let room = if place.number == 0 { first } else { size };
    let len = (behind - place.start).min(room);
    Place {
        number: place.number + 1,
        start: place.start + len,
        text: place.text + len.saturating_sub(over),
    }
}
