//! Choosing the key of a stream that comes in pieces.

ghost use Rattle.std.specs.Prelude.{MatchResult};
ghost use Rattle.tink_streaming_segment.specs.Keeping.{kept_bytes};
ghost use Rattle.tink_streaming_segment.specs.Openers.{segment_map};
ghost use Rattle.tink_c_pieces.specs.Readings.{piece_reading};
ghost use Rattle.tink_c_streams.specs.Choices.{BeginsNoText, BeginsText, keys_of_choice};

use crate::choice::Choice;
use tink_c_pieces::Part;
use tink_io::TinkError;
use tink_streaming_aead::{StreamSegment, TextReader, start};

/// A reader of the segments of the stream that begins with the bytes that came, under the first key under which they
/// begin. It has given nothing.
///
/// # Errors
/// `NoMatchingKey` exactly if these bytes begin under no key.
pub fn choose_key(choice: Choice) -> Result<TextReader<StreamSegment>, TinkError>
    ensures { MatchResult result
        (λ t. BeginsText (keys_of_choice choice) (kept_bytes choice.trial.kept) (segment_map t.reader.opener)
        t.reader.opener.first t.reader.opener.size t.reader.opener.overhead (piece_reading t))
        (λ e. BeginsNoText (keys_of_choice choice) (kept_bytes choice.trial.kept) e.kind) }
{
    let Choice { keys, data, trial } = choice;
    let mut nothing = Part::new(b"");
    let reader = start(&keys, &data, trial, &mut nothing)?;
    Ok(TextReader { reader, given: 0 })
}
