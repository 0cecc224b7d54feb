// The lengths that are sealed and opened.
ghost use Rattle.std.specs.Prelude.{◌≡◌, ◌≤◌, Ok, Err};
ghost use Rattle.gcm.specs.Answers.{IsLimited};

use crate::errors::{GcmError, GcmResult};

// The most bytes of associated data, this project's profile.
pub(crate) const MOST_DATA: usize = 1 << 36;

// Refuses data of more than 2^36 bytes, and then a text of more than `most`.
pub(crate) fn check_lengths(aad: usize, text: usize, most: usize) -> GcmResult
    ensures { IsLimited most aad text result }
{
    if aad > MOST_DATA {
        return Err(GcmError::DataTooLong);
    }
    if text > most {
        return Err(GcmError::TextTooLong);
    }
    Ok(())
}
