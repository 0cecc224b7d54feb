//! Keys of streams: new writers and readers of a stream under a key, and the choice of a key.
#![tactic(auto)]

mod aes_ctr_hmac;
mod aes_gcm_hkdf;
mod behind_front;
mod choosing;
mod decrypter;
mod decrypting;
mod encrypter;
mod encrypting;
mod key_under;
mod new_stream;
mod starting;
mod stream_kind;
mod stream_memory;
mod stream_params;
mod streaming_key;

pub use aes_ctr_hmac::AesCtrHmac;
pub use aes_gcm_hkdf::AesGcmHkdf;
pub use behind_front::opener_behind;
pub use choosing::choose;
pub use decrypter::{StreamDecrypter, decrypter_of};
pub use encrypter::StreamEncrypter;
pub use encrypting::{begin_stream, new_encrypting_writer};
pub use new_stream::{Front, NewStream, prepare_stream};
pub use starting::{Trial, start};
pub use stream_kind::{StreamKind, StreamKinds};
pub use stream_params::{DerivesStreams, SegmentParams, StreamParams};
pub use streaming_key::StreamingKey;
