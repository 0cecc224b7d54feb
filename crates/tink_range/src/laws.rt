//! What ranges are of a whole stream. These functions do nothing: their contracts are laws.

ghost use Rattle.tink_range.specs.Slices.{IsShapeOfAny, IsSliceOfStream};

/// Where all chunks of a stream are segments of texts, what a range gives is that slice of the joined texts.
pub fn law_range_of_stream()
    ensures { IsSliceOfStream }
{}

/// The number of chunks and of places depends on the number of bytes alone.
pub fn law_shape_of_any()
    ensures { IsShapeOfAny }
{}
