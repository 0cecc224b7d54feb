//! What a caller of C hands in, and what goes into its buffer: outputs at the beginning of the buffer, errors as statuses.
#![tactic(auto)]

mod delivering;
mod growing;
mod handed_in;
mod taking;

pub use delivering::{OK, TOO_LITTLE_ROOM, deliver, report, status};
pub use growing::Growing;
pub use handed_in::{copy_of, draws_of};
pub use taking::take_bytes;
