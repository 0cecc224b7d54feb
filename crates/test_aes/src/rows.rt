//! The requests, and the tests that walk all rows.

use crate::counter_mode::Flavor;
use crate::each_length::KEY;
use crate::expected::{Holds, check, walk};
use crate::seals::Of;
use crate::{
    aes_vectors, block_by_block, cbc_vectors, cmac_vectors, counter_mode, each_length, gcm_vectors,
    hash_vectors, kept_keys, names, refusals, seals, siv_vectors, under_keys,
};
use gcm::{ghash, polyval};
use hash_keys::Hash;
use std::alloc::{AllocError, Global};

/// A request of a row.
pub enum Asked {
    /// Of a cipher under a key.
    Key(&'static [u8], under_keys::Asked),
    /// Of cipher block chaining.
    Chain(cbc_vectors::Asked),
    /// Of a flavour of counter mode from a nonce on.
    Counter(Flavor, [u8; 16], counter_mode::Asked),
    /// To encrypt zeros to those bytes, and these to zeros.
    GoAndReturn([u8; 20]),
    /// Of a hash.
    Hash(Hash, hash_vectors::Asked),
    /// The hash of GCM under a key, over a text.
    Ghash([u8; 16], &'static [u8], [u8; 16]),
    /// The hash of GCM-SIV under a key, over a text.
    Polyval([u8; 16], &'static [u8], [u8; 16]),
    /// Of a sealer.
    Seal(Of, seals::Asked),
    /// To seal four zeros under a key of zeros.
    SealFour,
    /// What ciphers, a core and a nonce are called.
    Names,
}

/// Its name, and its request.
pub struct Row(pub &'static str, pub Asked);

impl Holds for Row {
    fn name(&self) -> &'static str {
        self.0
    }

    fn holds(&self, alloc: Global) -> Result<bool, AllocError> {
        match &self.1 {
            Asked::Key(key, asked) => Ok(under_keys::holds(key, asked)),
            Asked::Chain(asked) => Ok(cbc_vectors::holds(asked)),
            Asked::Counter(flavor, iv, asked) => Ok(counter_mode::holds(flavor, iv, asked)),
            Asked::GoAndReturn(want) => Ok(counter_mode::goes_and_returns(want)),
            Asked::Hash(h, asked) => Ok(hash_vectors::holds(*h, asked)),
            Asked::Ghash(key, text, want) => Ok(ghash(key, &[], text) == *want),
            Asked::Polyval(key, text, want) => Ok(polyval(key, &[], text) == *want),
            Asked::Seal(of, asked) => Ok(seals::holds(of, asked)),
            Asked::SealFour => Ok(refusals::seals_four()),
            Asked::Names => names::are_shown(alloc),
        }
    }
}

const NAMES: &[Row] = &[Row(names::NAMES, Asked::Names)];

#[test]
fn all_rows_hold(rt: HostRuntime) {
    let tables = &[
        aes_vectors::ROWS,
        block_by_block::ROWS,
        cbc_vectors::ROWS,
        cmac_vectors::ROWS,
        counter_mode::ROWS,
        gcm_vectors::ROWS,
        hash_vectors::DIGESTS,
        hash_vectors::TAGS,
        hash_vectors::KEYS,
        NAMES,
        refusals::ROWS,
        seals::ROWS,
        siv_vectors::ROWS,
    ];
    walk(&rt, rt.alloc(), tables);
}

// What is asked of each number.
enum Each {
    // Keys of so many bytes.
    Key,
    // So many bytes in counter mode.
    Counter,
    // So many blocks together.
    Blocks,
    // A kept key's tags of so many bytes.
    Tag,
    // So many bytes sealed.
    Seal(Of),
}

fn holds_at(each: &Each, n: usize) -> bool {
    match each {
        Each::Key => aes_vectors::are_taken(n),
        Each::Counter => {
            counter_mode::holds(
                &Flavor::Ctr32BE,
                &block_by_block::NONCE,
                &counter_mode::Asked::Apply(n, 600),
            )
        }
        Each::Blocks => block_by_block::all_agree(n),
        Each::Tag => kept_keys::tags_are(&[3; 140][..n.min(140)]),
        Each::Seal(of) => each_length::tag_is(of, n),
    }
}

// Its name, what is asked, and of how many numbers from 0 on.
const EACH: &[(&str, Each, usize)] = &[
    ("which lengths of keys are taken", Each::Key, 33),
    ("counter mode of each length", Each::Counter, 601),
    ("blocks together are blocks alone", Each::Blocks, 39),
    ("tags under a kept key", Each::Tag, 140),
    ("GCM of each length", Each::Seal(Of::Gcm(KEY)), 301),
    (
        "GCM in place of each length",
        Each::Seal(Of::GcmInPlace(KEY)),
        301,
    ),
    ("GCM-SIV of each length", Each::Seal(Of::GcmSiv(KEY)), 301),
];

#[test]
fn each_number_holds(rt: HostRuntime) {
    for (row, each, end) in EACH {
        for n in 0..*end {
            check(&rt, holds_at(each, n), row, n);
        }
    }
}
