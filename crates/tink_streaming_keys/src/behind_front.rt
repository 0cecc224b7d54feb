//! How a stream's segments are opened, by the first bytes of the stream.

ghost use Rattle.std.specs.Prelude.{◌≡◌, ◌≤◌, IfOk, IfErr, None, vec_capacity};
ghost use Rattle.stream_model.specs.Cut.{numbered};
ghost use Rattle.stream_model.specs.Key.{nonce_size};
ghost use Rattle.stream_model.specs.Opening.{HasFront, header_of, opening_key};
ghost use Rattle.tink_streaming_ciphers.specs.StreamSegments.{segment_by};
ghost use Rattle.tink_streaming_keys.specs.Decrypters.{OpensBehind};

use crate::key_under::KeyUnder;
use crate::stream_params::DerivesStreams;
use tink_streaming_ciphers::StreamSegment;
use tink_streaming_io::{Opener, front_opener};

/// How a stream that begins with `held` is decrypted by a key with the associated data, in the memory of a nonce
/// prefix.
///
/// # Errors
/// That memory again. It comes if the stream does not begin with a front of the key, or no keys are derived from
/// the front's header.
pub fn opener_behind<T: DerivesStreams>(
    key: &T,
    held: &[u8],
    aad: &[u8],
    prefix: Vec<u8>,
) -> Result<Opener<StreamSegment>, Vec<u8>>
    requires prefix { 7 ≤ vec_capacity prefix }
    ensures opens { IfOk result (λ o. OpensBehind (opening_key aad.now (T.key_of key.now))
        (nonce_size (T.key_of key.now)) held.now (numbered (segment_by o.decrypter) o.nonce_size o.prefix.items)
        o.first o.size o.overhead o.nonce_size) }
    ensures prefix { IfOk result (λ o. vec_capacity o.prefix ≡ vec_capacity prefix) }
    ensures none { IfErr result (λ _. HasFront (opening_key aad.now (T.key_of key.now)) held.now
        → (opening_key aad.now (T.key_of key.now)).seg
        (header_of (opening_key aad.now (T.key_of key.now)) held.now) ≡ None) }
    ensures room { IfErr result (λ memory. vec_capacity memory ≡ vec_capacity prefix) }
{
    let under = KeyUnder { key, aad };
    let front = key.output_prefix().len() + key.header_length();
    front_opener(&under, held, front, prefix)
}
