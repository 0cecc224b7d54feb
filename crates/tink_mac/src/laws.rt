//! What holds of MACs. These functions do nothing: their contracts are the laws.

ghost use Rattle.tink_mac.specs.MacKinds.{kind_computes, kind_verifies, AcceptsOwnTags};
ghost use Rattle.tink_mac.specs.Rotation.{BuildsSound, MacsOutlive, OldMacsVerify};

use crate::{AesCmacKeyManager, HmacKeyManager};
use tink_primitives::{Kinds, Mac};
use tink_registry::KeyManager;

/// Every keyset in which a key is still enabled accepts what the key's entry computed. The premises: the same key
/// managers build both, the key's primitive accepts its own tag, and the MAC has more than five bytes.
pub fn law_old_macs_verify<M: KeyManager, P: Mac>()
where
    M::Family: Kinds<Mac = P>,
    ensures { OldMacsVerify M.url M.supports M.builds P.computes P.verifies }
{}

/// `Hmac` and `AesCmac` accept each tag that they compute.
pub fn law_own_tags_accepted()
    ensures { AcceptsOwnTags }
{}

/// The MACs that the managers of HMAC and AES-CMAC keys build accept each tag that they compute, and it has more than
/// five bytes.
pub fn law_built_macs_are_sound()
    ensures hmac { BuildsSound ⟦<HmacKeyManager as KeyManager>⟧.builds kind_computes kind_verifies }
    ensures cmac { BuildsSound ⟦<AesCmacKeyManager as KeyManager>⟧.builds kind_computes kind_verifies }
{}

/// A keyset's MACs compute a tag, and then a manager's commands edit the keyset. If no command disables, destroys or
/// deletes a key of the id that was primary, the edited keyset accepts the tag. The premises: the same key managers
/// build both, and their MACs accept each tag that they compute, of more than five bytes.
pub fn law_macs_outlive_commands<M: KeyManager, P: Mac>()
where
    M::Family: Kinds<Mac = P>,
    ensures { MacsOutlive M.url M.supports M.builds P.computes P.verifies }
{}
