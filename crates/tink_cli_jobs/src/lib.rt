//! What every command over files begins with: what its words say, the keyset that it is given, and where its output goes.
#![tactic(auto)]

mod job;
pub mod keys;
mod laws;
mod output;
pub mod protecting;

pub use job::{DRAWN, Job, data_of, job_of, name_of_file};
pub use laws::{law_keys_from_standard_input, law_master_gives_the_unwrapped};
pub use output::{WRITE_FAULT, how_of, put};
