//! A large text by a number, sealed and opened piece by piece, and what its stream is.
#![tactic(auto)]

mod measuring;
mod opening;
mod pending;
mod printing;
mod sealed_text;
mod text;

pub use measuring::{Measured, measure};
pub use printing::lines;
