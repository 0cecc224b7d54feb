//! The laws of the AEADs that keys build, and of keysets that were edited.

ghost use Rattle.tink_aead.specs.AeadKinds.{kind_decrypts, kind_encrypts};
ghost use Rattle.tink_aead.specs.ComposedLaws.{KeysBuildWhole, WholeAccepts, WholeUndoes};
ghost use Rattle.tink_aead.specs.Rotation.{BuildsSoundAeads, CiphertextsOutlive, EnabledKeysOpen, EncryptedOpens};
ghost use Rattle.tink_aead.specs.Rotation.{OldCiphertextsOpen};

use crate::{AesCtrHmacAeadKeyManager, AesGcmKeyManager, AesGcmSivKeyManager};
use tink_primitives::{Aead, Kinds};
use tink_registry::KeyManager;

/// A key of AES in counter mode with HMAC builds an AEAD. It accepts exactly the encryptions of some text, each as
/// that of its text. It decrypts what it encrypts.
pub fn law_aes_ctr_hmac()
    ensures built { KeysBuildWhole }
    ensures accepts { WholeAccepts }
    ensures undoes { WholeUndoes }
{}

/// Every list of entries that still has an entry decrypts what that entry made, with a prefix of five bytes or none.
/// The premises: its AEAD's decryption undoes its encryption, the ciphertext has more than five bytes, and no entry
/// opens it to another text.
///
/// `keys` says this of an enabled key of a keyset. The keyset is edited by commands that neither disable, destroy nor
/// delete a key of its id, and then gives AEADs.
///
/// `primary` says it of what a keyset's AEADs encrypted, if each undoes its own encryption. The commands spare the
/// primary id in the same way.
pub fn law_old_ciphertexts_open<M: KeyManager, P: Aead>()
where
    M::Family: Kinds<Aead = P>,
    ensures entries { OldCiphertextsOpen P.encrypts P.decrypts }
    ensures keys { EnabledKeysOpen P.encrypts P.decrypts M.url M.supports M.builds }
    ensures primary { EncryptedOpens P.encrypts P.decrypts M.url M.supports M.builds }
{}

/// The AEADs that the managers of AES-GCM, AES-GCM-SIV and AES-CTR-HMAC keys build decrypt what they encrypt, and it has
/// more than five bytes.
pub fn law_built_aeads_are_sound()
    ensures gcm { BuildsSoundAeads kind_encrypts kind_decrypts ⟦<AesGcmKeyManager as KeyManager>⟧.builds }
    ensures gcm_siv { BuildsSoundAeads kind_encrypts kind_decrypts ⟦<AesGcmSivKeyManager as KeyManager>⟧.builds }
    ensures composed { BuildsSoundAeads kind_encrypts kind_decrypts
        ⟦<AesCtrHmacAeadKeyManager as KeyManager>⟧.builds }
{}

/// A keyset's AEADs encrypt, and then a manager's commands edit the keyset. If no command disables, destroys or
/// deletes a key of the id that was primary, the edited keyset decrypts the ciphertext. The premises: the same key
/// managers build both, their AEADs decrypt what they encrypt, and no entry opens the ciphertext to another text.
pub fn law_ciphertexts_outlive_commands<M: KeyManager, P: Aead>()
where
    M::Family: Kinds<Aead = P>,
    ensures { CiphertextsOutlive P.encrypts P.decrypts M.url M.supports M.builds }
{}
