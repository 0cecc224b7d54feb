//! Lists of entries by their prefixes, and lists of one form from those of another.
#![tactic(auto)]

pub use converting::{Convert, convert_groups};
pub use groups::{group_at, group_of, newest, put_in_group, put_list};

mod converting;
mod groups;
