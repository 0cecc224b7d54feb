//! What holds of tokens. These functions do nothing: their contracts are the laws.

ghost use Rattle.tink_mac.specs.Lasting.{OldTokensVerify, SignedVerify, TokensOutlive};

use tink_primitives::{Kinds, Mac};
use tink_registry::KeyManager;

/// The MACs of a keyset verify what they signed, and give its payload. The premise: the managers' MACs accept each
/// tag that they compute, of more than five bytes. Those of `tink_mac` do.
pub fn law_signed_tokens_verify<M: KeyManager, P: Mac>()
where
    M::Family: Kinds<Mac = P>,
    ensures { SignedVerify M.url M.supports M.builds P.computes P.verifies }
{}

/// Every keyset in which a key is still enabled verifies what the key's entry signed, and gives its payload. The
/// premises: the same key managers build both, the key's primitive accepts its own tag, and the MAC has more than five
/// bytes.
pub fn law_old_tokens_verify<M: KeyManager, P: Mac>()
where
    M::Family: Kinds<Mac = P>,
    ensures { OldTokensVerify M.url M.supports M.builds P.computes P.verifies }
{}

/// A keyset's MACs sign a token, and then a manager's commands edit the keyset. If no command disables, destroys or
/// deletes a key of the id that was primary, the edited keyset verifies the token, and gives its payload. The
/// premises: the same key managers build both, and their MACs accept each tag that they compute, of more than five
/// bytes.
pub fn law_tokens_outlive_commands<M: KeyManager, P: Mac>()
where
    M::Family: Kinds<Mac = P>,
    ensures { TokensOutlive M.url M.supports M.builds P.computes P.verifies }
{}
