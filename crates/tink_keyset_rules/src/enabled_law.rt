//! That a key stays enabled. The function does nothing: its contract is the law.

ghost use Rattle.keyset_model.specs.Spared.{KeepsEnabled};

/// If no command disables, destroys or deletes a key of its id, an enabled key stays among the enabled ones as it was.
#[tactic(auto, using(keyset_model::proofs::EnabledLaw::keeps_enabled))]
pub fn law_enabled_keys_stay()
    ensures { KeepsEnabled }
{}
