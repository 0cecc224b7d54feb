//! What a keyset opens after a manager's commands. These functions do nothing: their contracts are the laws.

ghost use Rattle.loading_model.specs.Rotation.{EditedLoads, HasItsPlace, LoadsAlone, OpeningStays, StaysChosen, StaysChosenByAll, StreamsOutlive, StreamsOutliveById, StreamsStay};

/// If the keyset that any commands make fits the wire format, its bytes load as this keyset. Every keyset that was
/// encoded fits it.
#[tactic(auto, using(crate::proofs::RotationFacts::edited_loads))]
pub fn law_edited_loads()
    ensures { EditedLoads }
{}

/// If a keyset loads, the key that is chosen for a stream is the first enabled one under which the stream begins.
#[tactic(auto, using(crate::proofs::ChoosingFacts::has_its_place))]
pub fn law_chosen_place()
    ensures { HasItsPlace }
{}

/// If a keyset loads, the key that is chosen for a stream is by itself a keyset that loads. It is then the one key
/// that may be chosen.
pub fn law_chosen_alone()
    ensures { LoadsAlone }
{}

/// If commands only add keys, rotate or choose the primary key, each stream opens to the text that it opened to.
/// The premise: the keyset loads before and after.
#[tactic(auto, using(crate::proofs::RotationFacts::streams_stay))]
pub fn law_streams_stay()
    ensures { StreamsStay }
{}

/// If a command acts on another key than the one that is chosen for a stream, and enables none before it, that key
/// stays chosen. It is one place lower if a key before it was deleted. The stream opens to the texts that it opened to
/// and to no others, where the keyset loads before and after.
#[tactic(auto, using(crate::proofs::RotationFacts::stays_chosen, crate::proofs::RotationFacts::opening_stays))]
pub fn law_other_records()
    ensures place { StaysChosen }
    ensures opening { OpeningStays }
{}

/// The same of any list of commands that each leave the chosen key at its place at that time. In between the keyset
/// need not load.
#[tactic(auto, using(crate::proofs::RotationFacts::stays_chosen_by_all, crate::proofs::RotationFacts::streams_outlive, crate::proofs::RotationFacts::streams_outlive_by_id))]
pub fn law_streams_outlive_commands()
    ensures place { StaysChosenByAll }
    ensures opening { StreamsOutlive }

    // Where no command enables a key, or disables, destroys or deletes one of the id of the chosen key.
    ensures by_id { StreamsOutliveById }
{}
