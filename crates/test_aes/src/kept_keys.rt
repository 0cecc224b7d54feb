//! Tags under a key of HMAC that is kept, and under its clone.

use hash_keys::{Hash, HmacKey, hmac_into};

const KEY: &[u8; 16] = &[7, 6, 5, 4, 3, 2, 1, 0, 7, 6, 5, 4, 3, 2, 1, 0];

/// Whether a second tag under a kept key, and one under its clone, is that of the call that takes the key's bytes.
pub fn tags_are(text: &[u8]) -> bool {
    let mut once = [0u8; 64];
    hmac_into(Hash::Sha512, KEY, text, b"end", &[], &mut once);
    let key = HmacKey::new(Hash::Sha512, KEY);
    let mut kept = [0u8; 64];
    key.tag_into(b"another", &[], &[], &mut kept);
    key.tag_into(text, b"end", &[], &mut kept);
    let mut copied = [0u8; 64];
    if let Ok(copy) = key.clone() {
        copy.tag_into(text, b"end", &[], &mut copied);
    }
    kept == once && copied == once
}
