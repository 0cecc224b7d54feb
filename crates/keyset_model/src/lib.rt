//! What a valid keyset is and what commands make of one, for contracts to cite, and edits of the first key of an id.
#![tactic(auto)]

pub mod places;
