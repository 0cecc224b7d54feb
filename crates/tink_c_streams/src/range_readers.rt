//! Readers of ranges: the keys of a file are loaded once, and ranges of streams are read again and again.

ghost use Rattle.std.specs.Prelude.{◌≡◌, ◌<◌, ℕ, List, MatchResult};
ghost use Rattle.tink_c_bytes.specs.Delivered.{MadeBy};
ghost use Rattle.tink_c_streams.specs.NewReaders.{BeginsNoReader, NoNewReader};
ghost use Rattle.tink_c_streams.specs.RangeReaders.{HasKeysOf, IsRangeReader};
ghost use Rattle.tink_c_streams.specs.Streams.{GivesRange, IsNoRange, IsRange, RefusesRange};

use crate::lent_at::LentAt;
use crate::streams::wire_in;
use std::alloc::Global;
use std::marker::Brand;
use std::sync::ledger::{Blank, Ledger};
use tink_c_bytes::{Growing, take_bytes};
use tink_io::TinkError;
use tink_proto::Bytes;
use tink_range::Steps;
use tink_rewrap::ranges::range_of_set;
use tink_run::load::load;
use tink_sets::TypedPrimitiveSet;
use tink_streaming_aead::StreamKind;

/// The keys of a file and the associated data of its streams.
#[derive(Drop)]
pub struct RangeReader {
    /// The keys.
    pub keys: TypedPrimitiveSet<StreamKind>,
    /// The associated data.
    pub data: Vec<u8>,
}

/// A reader of ranges of streams under the keys of a file, with the associated data.
///
/// # Errors
/// `BadJson` if the file is JSON by its first byte and no keyset. Then those of loading its keys.
pub fn range_reader_of(
    alloc: Global,
    file: &[u8],
    associated_data: &[u8],
) -> Result<RangeReader, TinkError>
    ensures { MatchResult result (λ r. IsRangeReader file.now associated_data.now r)
        (λ e. BeginsNoReader file.now e.kind) }
{
    let wire = wire_in(alloc, file)?;
    reader_in(alloc, wire.as_slice(), associated_data)
}

// The same under a keyset in the wire format.
fn reader_in(alloc: Global, wire: &[u8], associated_data: &[u8]) -> Result<RangeReader, TinkError>
    ensures { MatchResult result (λ r. HasKeysOf wire.now associated_data.now r) (λ e. NoNewReader wire.now e.kind) }
{
    let data = associated_data.to_vec(alloc)?;
    let keys = load(alloc, wire)?;
    Ok(RangeReader { keys, data })
}

impl RangeReader {
    /// A range of the text of the stream that the input is.
    ///
    /// # Errors
    /// Those of `range_of_set` of `tink_rewrap`, without `WriteFault`.
    pub fn read(
        &self,
        alloc: Global,
        input: &[u8],
        start: u64,
        len: u64,
    ) -> Result<Bytes, TinkError>
        ensures { (file aad : List ℕ) → IsRangeReader file aad self.now
            → MadeBy (GivesRange file aad input.now start len) (RefusesRange file aad input.now start len) result }
    {
        range_by::<Brand>(alloc, self, input, start, len, Blank::new(1))
    }
}

// The same by a ledger of steps.
fn range_by<L: Ledger>(
    alloc: Global,
    reader: &RangeReader,
    input: &[u8],
    start: u64,
    len: u64,
    blank: Blank,
) -> Result<Bytes, TinkError>
    requires name { blank.name ≡ L.name }
    requires parts { blank.parts ≡ L.parts }
    requires some { 0 < blank.parts }
    ensures { (wire aad : List ℕ) → HasKeysOf wire aad reader.now
        → MadeBy (IsRange wire aad input.now start len) (IsNoRange wire aad input.now start len) result }
{
    let mut steps = Steps::<L>::new(blank);
    let mut object = LentAt::new(input);
    let mut sink = Growing::new(alloc);
    let answer = range_of_set(
        alloc,
        &reader.keys,
        reader.data.as_slice(),
        &mut object,
        start,
        len,
        &mut sink,
        &mut steps,
    );
    take_bytes(answer, sink)
}
