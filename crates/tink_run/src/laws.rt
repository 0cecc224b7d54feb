//! What `run` opens after a keyset was edited, and that it opens as under the chosen key alone. These functions do
//! nothing: their contracts are the laws.
//!
//! Each call of a `Manager` is the command of its name on the keyset and the draws. `edit` of keyset_model defines it,
//! and `add` as the primary key is `Rotate`. So calls one after another make `after_all` of them. `handle` gives a
//! handle of that keyset, `insecure::keyset_material` its message, and `encode` the message's bytes, where it fits the
//! wire format. Under these bytes `run` opens a stream as its contract says; what that is for the edited keyset, the
//! laws here say. That an id that is added is new, and that a refused command leaves the keyset, are laws of
//! tink_keysets (`law_fresh_id`, `law_refused_adding`, `law_refused_command`). What commands leave of a stream's
//! opening, by any rows of types of keys, are laws of loading_model.

ghost use Rattle.tink_run.specs.Fitting.{KeepsFit};
ghost use Rattle.tink_run.specs.OneKey.{OpensAsOneKey, RunOpensAlone};
ghost use Rattle.tink_run.specs.Rotation.{RunOpensAfterAdding, RunOpensAfterAll, RunOpensById, RunOpensEdited};

/// A list of commands edits a keyset, and the edited keyset fits the wire format. Then `run` opens under its
/// encoding exactly the streams that the edited keyset opens, each to the same text. It is one text, and an open
/// that is Ok has written it.
pub fn law_run_opens_edited()
    ensures { RunOpensEdited }
{}

/// A keyset that fits the wire format fits it after any commands with draws that are bytes. The premise: from draws
/// that are bytes the managers give data of keys that fit, under each id of 32 bits, and leave bytes.
#[tactic(auto, using(crate::proofs::FitFacts::keeps_fit))]
pub fn law_edited_fits()
    ensures { KeepsFit }
{}

/// A stream opens, and then commands edit the keyset. If the edited keyset fits the wire format and loads, `run`
/// opens the stream under its encoding to the same text.
pub fn law_run_opens_after_rotation()
    // Where each command adds a key, rotates or chooses the primary key.
    ensures adding { RunOpensAfterAdding }

    // Where each leaves the place of the key that is chosen for the stream: it disables, destroys or deletes another
    // key, or enables none before it.
    ensures places { RunOpensAfterAll }

    // Where none enables a key, or disables, destroys or deletes one of that key's id.
    ensures ids { RunOpensById }
{}

/// The bytes of a stream are known, and one key is the first under which it begins. Then it is opened as under this
/// key alone. The answer and what was written are the same, whatever other keys were tried and however large their
/// segments are. That this key is by itself a keyset that loads is a law of loading_model (`law_chosen_alone`).
pub fn law_one_key()
    ensures keys { OpensAsOneKey }

    // So under a keyset `run` answers as under each keyset whose one key is the key that is chosen.
    ensures keysets { RunOpensAlone }
{}
