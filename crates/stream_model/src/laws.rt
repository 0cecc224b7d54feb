//! Which blocks AES is asked for under a stream's derived key, and in which order keys may be tried. These functions do
//! nothing: their contracts are the laws.

ghost use Rattle.stream_model.specs.Blocks.{AsksForItsOwn, BlocksDiffer, NoneIsZero, StreamBlocksDiffer};
ghost use Rattle.stream_model.specs.Order.{ChooseTheSame};

/// No block is used twice in one stream, of either kind of keys. Two blocks that are asked for under one prefix are
/// equal only if they are the same block of the same segment, number and mark. By GCM the block 0 of a segment
/// covers its tag, so it is no other one's block. None is the zero block, which makes the hash key.
#[tactic(auto, using(crate::proofs::BlockFacts::asks_for_its_own, crate::proofs::BlockFacts::blocks_differ, crate::proofs::BlockFacts::stream_blocks_differ, crate::proofs::BlockFacts::none_is_zero))]
pub fn law_counter_blocks()
    // Sealing a segment asks for its own blocks alone, and by GCM for the zero block.
    ensures asked { AsksForItsOwn }

    // Of any segments whose texts have less than 2^32 bytes.
    ensures segments { BlocksDiffer }

    // Of the segments of any text that has at most 2^32 of them.
    ensures stream { StreamBlocksDiffer }
    ensures none_is_zero { NoneIsZero }
{}

/// For keys in any order among their prefixes the same one is chosen for a stream. A prefix begins with 0 or 1 and
/// a header with 24 or 40, so keys of different prefixes never open one stream.
#[tactic(auto, using(crate::proofs::OrderFacts::choose_the_same))]
pub fn law_order_of_trial()
    ensures { ChooseTheSame }
{}
