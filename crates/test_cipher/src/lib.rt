//! Tests of `cipher`.
#![tactic(auto)]

#[cfg(test)]
mod blocks;
#[cfg(test)]
mod buffers;
#[cfg(test)]
mod expected;
#[cfg(test)]
mod rows;
#[cfg(test)]
mod shifted;
#[cfg(test)]
mod tweaks;
