//! The laws of the deterministic AEADs of a keyset.

ghost use Rattle.tink_daead.specs.AesSiv.{aes_siv_decrypts, aes_siv_encrypts};
ghost use Rattle.tink_daead.specs.KeysetLaws.{KeysetsDecryptExactly};
ghost use Rattle.tink_daead.specs.Rotation.{BuildsSoundDaeads, OldTextsOpen, TextsOutlive};

use crate::AesSivKeyManager;
use tink_primitives::{DeterministicAead, Kinds};
use tink_registry::KeyManager;

/// A keyset's AES-SIV keys decrypt an input to a text exactly if the first key that accepts encrypts the text to what
/// it tries. It tries the rest behind its prefix, or the whole if it has no prefix.
pub fn law_keysets_decrypt_exactly()
    ensures { KeysetsDecryptExactly }
{}

/// What `AesSivKeyManager` builds decrypts what it encrypts, and it has more than five bytes.
pub fn law_built_daeads_are_sound()
    ensures { BuildsSoundDaeads aes_siv_encrypts aes_siv_decrypts ⟦<AesSivKeyManager as KeyManager>⟧.builds }
{}

/// Every keyset in which a key is still enabled decrypts what the key's entry encrypted. The premises: the same key
/// managers build both, their deterministic AEADs decrypt what they encrypt, and no entry opens the ciphertext to
/// another text.
pub fn law_old_ciphertexts_open<M: KeyManager, P: DeterministicAead>()
where
    M::Family: Kinds<DeterministicAead = P>,
    ensures { OldTextsOpen P.encrypts P.decrypts M.url M.supports M.builds }
{}

/// A keyset's deterministic AEADs encrypt, and then a manager's commands edit the keyset. If no command disables,
/// destroys or deletes a key of the id that was primary, the edited keyset decrypts the ciphertext. The premises: the
/// same key managers build both, their deterministic AEADs decrypt what they encrypt, and no entry opens the
/// ciphertext to another text.
pub fn law_ciphertexts_outlive_commands<M: KeyManager, P: DeterministicAead>()
where
    M::Family: Kinds<DeterministicAead = P>,
    ensures { TextsOutlive P.encrypts P.decrypts M.url M.supports M.builds }
{}
