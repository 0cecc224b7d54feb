//! Tests of AES and of the crates over it: of `aes_block`, `example_cbc`, `ctr`, `hash_keys` and `gcm`.
#![tactic(auto)]

#[cfg(test)]
mod aes_vectors;
#[cfg(test)]
mod block_by_block;
#[cfg(test)]
mod cbc_vectors;
#[cfg(test)]
mod cmac_vectors;
#[cfg(test)]
mod counter_mode;
#[cfg(test)]
mod each_length;
#[cfg(test)]
mod expected;
#[cfg(test)]
mod gcm_vectors;
#[cfg(test)]
mod hash_vectors;
#[cfg(test)]
mod kept_keys;
#[cfg(test)]
mod names;
#[cfg(test)]
mod refusals;
#[cfg(test)]
mod rows;
#[cfg(test)]
mod seals;
#[cfg(test)]
mod siv_vectors;
#[cfg(test)]
mod under_keys;
