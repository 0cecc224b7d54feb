//! Tink: keysets, and over them pseudorandom functions, MACs, AEADs, streaming and deterministic AEADs. The
//! managers of all their keys are one type, and have a registry.
#![tactic(auto)]

pub mod aead;
mod building;
pub mod daead;
pub mod keyset;
mod laws;
pub mod mac;
mod managers;
pub mod prf;
mod registering;
pub mod streaming_aead;

pub use laws::{law_aeads_are_sound, law_macs_are_sound};
pub use managers::{Managers, TinkKinds};
pub use registering::{key_managers, registry};
pub use tink_io::{
    Cause, Draws, Kind, Lent, MemSink, MemSource, Sink, Source, StdSink, StdSource, SureSink,
    SureSource, TinkError,
};
pub use tink_primitives::{Aead, DeterministicAead, Kinds, Mac, Prf, Primitive};
pub use tink_registry::{KeyManager, Registry};
