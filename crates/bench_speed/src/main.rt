//! An example, for benchmarks: with the word `ciphers` it prints to standard error how fast AES and counter mode are, with
//! the word `seals` how long GCM takes; else it hashes the standard input, and prints the SHA-256 and how fast it was.
#![tactic(auto)]

mod ciphers;
mod hashing;
mod seals;

use std::{env, io};

fn main(rt: HostRuntime) -> io::Result<()> {
    match env::args(&rt)?.nth(1) {
        Some(word) if word.as_str() == "ciphers" => ciphers::run(rt),
        Some(word) if word.as_str() == "seals" => seals::run(rt),
        _ => hashing::run(rt),
    }
}
