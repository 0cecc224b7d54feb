//! What holds of the managers of all types of keys. These functions do nothing: their contracts are the laws.

ghost use Rattle.tink_mac.specs.MacKinds.{kind_computes, kind_verifies};
ghost use Rattle.tink_mac.specs.Rotation.{BuildsSound};
ghost use Rattle.tink_aead.specs.AeadKinds.{kind_decrypts, kind_encrypts};
ghost use Rattle.tink_aead.specs.Rotation.{BuildsSoundAeads};
ghost use Rattle.tink_daead.specs.AesSiv.{aes_siv_decrypts, aes_siv_encrypts};
ghost use Rattle.tink_daead.specs.Rotation.{BuildsSoundDaeads};

use crate::managers::Managers;
use tink_registry::KeyManager;

/// The MACs that `Managers` builds accept each tag that they compute, and it has more than five bytes. The laws on MACs
/// and tokens that were made before a keyset was edited ask this of the managers.
pub fn law_macs_are_sound()
    ensures { BuildsSound ⟦<Managers as KeyManager>⟧.builds kind_computes kind_verifies }
{}

/// The AEADs that `Managers` builds, those of AES-SIV too, decrypt what they encrypt, and it has more than five bytes.
/// The laws on ciphertexts that were made before a keyset was edited ask this of the managers.
pub fn law_aeads_are_sound()
    ensures aeads { BuildsSoundAeads kind_encrypts kind_decrypts ⟦<Managers as KeyManager>⟧.builds }
    ensures deterministic { BuildsSoundDaeads aes_siv_encrypts aes_siv_decrypts ⟦<Managers as KeyManager>⟧.builds }
{}
