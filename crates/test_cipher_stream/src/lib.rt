//! Tests of `cipher_stream`.
#![tactic(auto)]

#[cfg(test)]
mod core_calls;
#[cfg(test)]
mod cores;
#[cfg(test)]
mod expected;
#[cfg(test)]
mod positions;
#[cfg(test)]
mod rows;
#[cfg(test)]
mod streams;
