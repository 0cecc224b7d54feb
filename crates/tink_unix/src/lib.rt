//! The real system for the commands over files: the edge that is trusted.
#![tactic(auto)]

mod apart;
mod draft;
mod input;
mod object;
mod output;
mod publishing;
mod refusals;
mod terminals;
mod unix;

pub use draft::Draft;
pub use input::Input;
pub use object::Object;
pub use output::Stream;
pub use unix::Unix;
