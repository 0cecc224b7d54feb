//! Tests of `tink_proto`, `tink_proto_keys` and `tink_json`.
#![tactic(auto)]

#[cfg(test)]
mod json_texts;
#[cfg(test)]
mod key_messages;
#[cfg(test)]
mod messages;
#[cfg(test)]
mod spelled;
