//! Tink's keysets in use, under the module paths of Tink: handles and managers, registries, sets of primitives,
//! prefixes, and hashes by their types.
#![tactic(auto)]

pub mod cryptofmt;
pub mod keyset;
pub mod primitiveset;
pub mod registry;
pub mod subtle;

pub use tink_io::{
    Cause, Draws, Failed, Kind, Lent, MemSink, MemSource, Sink, Source, StdSink, StdSource,
    SureSink, SureSource, TinkError,
};
pub use tink_primitives::{
    Aead, CloneIn, DecryptingRead, DeterministicAead, EncryptingWrite, HybridDecrypt,
    HybridEncrypt, KeyId, Kinds, Mac, Never, Prf, Primitive, Refused, Signer, StreamingAead,
    UPSTREAM_VERSION, Verifier,
};
