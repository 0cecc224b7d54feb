//! Tests of `tink_io` and `tink_cli_words`.
#![tactic(auto)]

#[cfg(test)]
mod adapters;
#[cfg(test)]
mod expect;
#[cfg(test)]
mod gathered;
#[cfg(test)]
mod lines;
#[cfg(test)]
mod memory;
#[cfg(test)]
mod places;
#[cfg(test)]
mod words;
