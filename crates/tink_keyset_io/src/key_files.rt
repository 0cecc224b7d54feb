//! Files of keys: a keyset in the wire format or in JSON, read, edited and listed.

mod editing;
mod formats;
mod json_list;
mod laws;
mod listing;
mod room;

pub use editing::{Edit, edit_keyset, edited_file};
pub use formats::{Format, as_file, wire_bytes};
pub use json_list::list_json;
pub use laws::law_json_file_read_again;
pub use listing::list;
pub use room::check_room;
