//! Tests of `cipher_modes`.
#![tactic(auto)]

#[cfg(test)]
mod chained;
#[cfg(test)]
mod expected;
#[cfg(test)]
mod messages;
#[cfg(test)]
mod modes;
#[cfg(test)]
mod rows;
