//! What holds of a manager's commands. These functions do nothing: their contracts are the laws.

ghost use Rattle.keyset_model.specs.Laws.{AddsFreshIds, GivesHeld, KeepsIds, KeepsKeys, KeepsPrimary, KeepsValid, RefusedAddingLeaves, RefusedEditLeaves, RefusesTakenIds};
ghost use Rattle.tink_keyset_rules.specs.Managed.{data_by};

use tink_registry::{KeyManager, Registry};

/// The id that adding a key gives is not 0, and no key has it before.
#[tactic(auto, using(keyset_model::proofs::FreshIds::adds_fresh_ids))]
pub fn law_fresh_id()
    ensures { AddsFreshIds }
{}

/// Where draws suffice for 128 ids, there is no fresh one exactly where each of them is 0 or a key has it.
#[tactic(auto, using(keyset_model::proofs::FreshIds::refuses_taken_ids))]
pub fn law_no_fresh_id()
    ensures { RefusesTakenIds }
{}

/// A refused adding leaves the keyset.
#[tactic(auto, using(keyset_model::proofs::FreshIds::refused_adding_leaves))]
pub fn law_refused_adding()
    ensures { RefusedAddingLeaves }
{}

/// A refused command leaves the keyset.
#[tactic(auto, using(keyset_model::proofs::EditLaws::refused_edit_leaves))]
pub fn law_refused_command()
    ensures { RefusedEditLeaves }
{}

/// If no command deletes a key by its id, the key is there after the commands, with its id and prefix type. Its
/// status is the same unless one of them gave it another. Its data is the same unless one of them destroyed it.
pub fn law_keys_stay()
    ensures { KeepsKeys }
{}

/// Ids that are distinct and not 0 are so after any commands.
pub fn law_ids_stay_distinct()
    ensures { KeepsIds }
{}

/// Where an enabled key has the primary id, one has it after any commands.
#[tactic(auto, using(keyset_model::proofs::PrimaryLaw::keeps_primary))]
pub fn law_primary_stays()
    ensures { KeepsPrimary }
{}

/// A valid keyset with distinct ids that are not 0 and an enabled primary key is valid after any commands. The
/// premise: the managers give data that a handle may hold, by templates of known prefix types alone.
#[tactic(auto, using(keyset_model::proofs::ValidLaw::keeps_valid))]
pub fn law_valid_stays()
    ensures { KeepsValid }
{}

/// The managers of a registry give what `law_valid_stays` asks of them.
pub fn law_managers_give_held<M: KeyManager>(registry: &Registry<M>)
    ensures { GivesHeld (data_by M.url M.makes_data registry.now.managers) }
{}
