//! Which blocks hold a counter.

ghost use Rattle.std.proofs.Common.{lit≤, refl};
ghost use Rattle.std.specs.Prelude.{◌≡◌, ◌%◌, ◌≤◌};

/// The sizes of blocks.
pub enum BlockSizes {}

/// A block of B bytes is a whole number of chunks of W bytes, at least one. Each B below 256 for which this holds
/// has its `impl` here, for W of 4, 8 and 16.
pub trait WholeChunks<const W: usize, const B: usize> {
    ghost whole: { (W ≤ B) × (B % W ≡ 0) };
}

impl WholeChunks<4, 4> for BlockSizes {
    ghost whole = { (lit≤ tt, refl) };
}

impl WholeChunks<4, 8> for BlockSizes {
    ghost whole = { (lit≤ tt, refl) };
}

impl WholeChunks<4, 12> for BlockSizes {
    ghost whole = { (lit≤ tt, refl) };
}

impl WholeChunks<4, 16> for BlockSizes {
    ghost whole = { (lit≤ tt, refl) };
}

impl WholeChunks<4, 20> for BlockSizes {
    ghost whole = { (lit≤ tt, refl) };
}

impl WholeChunks<4, 24> for BlockSizes {
    ghost whole = { (lit≤ tt, refl) };
}

impl WholeChunks<4, 28> for BlockSizes {
    ghost whole = { (lit≤ tt, refl) };
}

impl WholeChunks<4, 32> for BlockSizes {
    ghost whole = { (lit≤ tt, refl) };
}

impl WholeChunks<4, 36> for BlockSizes {
    ghost whole = { (lit≤ tt, refl) };
}

impl WholeChunks<4, 40> for BlockSizes {
    ghost whole = { (lit≤ tt, refl) };
}

impl WholeChunks<4, 44> for BlockSizes {
    ghost whole = { (lit≤ tt, refl) };
}

impl WholeChunks<4, 48> for BlockSizes {
    ghost whole = { (lit≤ tt, refl) };
}

impl WholeChunks<4, 52> for BlockSizes {
    ghost whole = { (lit≤ tt, refl) };
}

impl WholeChunks<4, 56> for BlockSizes {
    ghost whole = { (lit≤ tt, refl) };
}

impl WholeChunks<4, 60> for BlockSizes {
    ghost whole = { (lit≤ tt, refl) };
}

impl WholeChunks<4, 64> for BlockSizes {
    ghost whole = { (lit≤ tt, refl) };
}

impl WholeChunks<4, 68> for BlockSizes {
    ghost whole = { (lit≤ tt, refl) };
}

impl WholeChunks<4, 72> for BlockSizes {
    ghost whole = { (lit≤ tt, refl) };
}

impl WholeChunks<4, 76> for BlockSizes {
    ghost whole = { (lit≤ tt, refl) };
}

impl WholeChunks<4, 80> for BlockSizes {
    ghost whole = { (lit≤ tt, refl) };
}

impl WholeChunks<4, 84> for BlockSizes {
    ghost whole = { (lit≤ tt, refl) };
}

impl WholeChunks<4, 88> for BlockSizes {
    ghost whole = { (lit≤ tt, refl) };
}

impl WholeChunks<4, 92> for BlockSizes {
    ghost whole = { (lit≤ tt, refl) };
}

impl WholeChunks<4, 96> for BlockSizes {
    ghost whole = { (lit≤ tt, refl) };
}

impl WholeChunks<4, 100> for BlockSizes {
    ghost whole = { (lit≤ tt, refl) };
}

impl WholeChunks<4, 104> for BlockSizes {
    ghost whole = { (lit≤ tt, refl) };
}

impl WholeChunks<4, 108> for BlockSizes {
    ghost whole = { (lit≤ tt, refl) };
}

impl WholeChunks<4, 112> for BlockSizes {
    ghost whole = { (lit≤ tt, refl) };
}

impl WholeChunks<4, 116> for BlockSizes {
    ghost whole = { (lit≤ tt, refl) };
}

impl WholeChunks<4, 120> for BlockSizes {
    ghost whole = { (lit≤ tt, refl) };
}

impl WholeChunks<4, 124> for BlockSizes {
    ghost whole = { (lit≤ tt, refl) };
}

impl WholeChunks<4, 128> for BlockSizes {
    ghost whole = { (lit≤ tt, refl) };
}

impl WholeChunks<4, 132> for BlockSizes {
    ghost whole = { (lit≤ tt, refl) };
}

impl WholeChunks<4, 136> for BlockSizes {
    ghost whole = { (lit≤ tt, refl) };
}

impl WholeChunks<4, 140> for BlockSizes {
    ghost whole = { (lit≤ tt, refl) };
}

impl WholeChunks<4, 144> for BlockSizes {
    ghost whole = { (lit≤ tt, refl) };
}

impl WholeChunks<4, 148> for BlockSizes {
    ghost whole = { (lit≤ tt, refl) };
}

impl WholeChunks<4, 152> for BlockSizes {
    ghost whole = { (lit≤ tt, refl) };
}

impl WholeChunks<4, 156> for BlockSizes {
    ghost whole = { (lit≤ tt, refl) };
}

impl WholeChunks<4, 160> for BlockSizes {
    ghost whole = { (lit≤ tt, refl) };
}

impl WholeChunks<4, 164> for BlockSizes {
    ghost whole = { (lit≤ tt, refl) };
}

impl WholeChunks<4, 168> for BlockSizes {
    ghost whole = { (lit≤ tt, refl) };
}

impl WholeChunks<4, 172> for BlockSizes {
    ghost whole = { (lit≤ tt, refl) };
}

impl WholeChunks<4, 176> for BlockSizes {
    ghost whole = { (lit≤ tt, refl) };
}

impl WholeChunks<4, 180> for BlockSizes {
    ghost whole = { (lit≤ tt, refl) };
}

impl WholeChunks<4, 184> for BlockSizes {
    ghost whole = { (lit≤ tt, refl) };
}

impl WholeChunks<4, 188> for BlockSizes {
    ghost whole = { (lit≤ tt, refl) };
}

impl WholeChunks<4, 192> for BlockSizes {
    ghost whole = { (lit≤ tt, refl) };
}

impl WholeChunks<4, 196> for BlockSizes {
    ghost whole = { (lit≤ tt, refl) };
}

impl WholeChunks<4, 200> for BlockSizes {
    ghost whole = { (lit≤ tt, refl) };
}

impl WholeChunks<4, 204> for BlockSizes {
    ghost whole = { (lit≤ tt, refl) };
}

impl WholeChunks<4, 208> for BlockSizes {
    ghost whole = { (lit≤ tt, refl) };
}

impl WholeChunks<4, 212> for BlockSizes {
    ghost whole = { (lit≤ tt, refl) };
}

impl WholeChunks<4, 216> for BlockSizes {
    ghost whole = { (lit≤ tt, refl) };
}

impl WholeChunks<4, 220> for BlockSizes {
    ghost whole = { (lit≤ tt, refl) };
}

impl WholeChunks<4, 224> for BlockSizes {
    ghost whole = { (lit≤ tt, refl) };
}

impl WholeChunks<4, 228> for BlockSizes {
    ghost whole = { (lit≤ tt, refl) };
}

impl WholeChunks<4, 232> for BlockSizes {
    ghost whole = { (lit≤ tt, refl) };
}

impl WholeChunks<4, 236> for BlockSizes {
    ghost whole = { (lit≤ tt, refl) };
}

impl WholeChunks<4, 240> for BlockSizes {
    ghost whole = { (lit≤ tt, refl) };
}

impl WholeChunks<4, 244> for BlockSizes {
    ghost whole = { (lit≤ tt, refl) };
}

impl WholeChunks<4, 248> for BlockSizes {
    ghost whole = { (lit≤ tt, refl) };
}

impl WholeChunks<4, 252> for BlockSizes {
    ghost whole = { (lit≤ tt, refl) };
}

impl WholeChunks<8, 8> for BlockSizes {
    ghost whole = { (lit≤ tt, refl) };
}

impl WholeChunks<8, 16> for BlockSizes {
    ghost whole = { (lit≤ tt, refl) };
}

impl WholeChunks<8, 24> for BlockSizes {
    ghost whole = { (lit≤ tt, refl) };
}

impl WholeChunks<8, 32> for BlockSizes {
    ghost whole = { (lit≤ tt, refl) };
}

impl WholeChunks<8, 40> for BlockSizes {
    ghost whole = { (lit≤ tt, refl) };
}

impl WholeChunks<8, 48> for BlockSizes {
    ghost whole = { (lit≤ tt, refl) };
}

impl WholeChunks<8, 56> for BlockSizes {
    ghost whole = { (lit≤ tt, refl) };
}

impl WholeChunks<8, 64> for BlockSizes {
    ghost whole = { (lit≤ tt, refl) };
}

impl WholeChunks<8, 72> for BlockSizes {
    ghost whole = { (lit≤ tt, refl) };
}

impl WholeChunks<8, 80> for BlockSizes {
    ghost whole = { (lit≤ tt, refl) };
}

impl WholeChunks<8, 88> for BlockSizes {
    ghost whole = { (lit≤ tt, refl) };
}

impl WholeChunks<8, 96> for BlockSizes {
    ghost whole = { (lit≤ tt, refl) };
}

impl WholeChunks<8, 104> for BlockSizes {
    ghost whole = { (lit≤ tt, refl) };
}

impl WholeChunks<8, 112> for BlockSizes {
    ghost whole = { (lit≤ tt, refl) };
}

impl WholeChunks<8, 120> for BlockSizes {
    ghost whole = { (lit≤ tt, refl) };
}

impl WholeChunks<8, 128> for BlockSizes {
    ghost whole = { (lit≤ tt, refl) };
}

impl WholeChunks<8, 136> for BlockSizes {
    ghost whole = { (lit≤ tt, refl) };
}

impl WholeChunks<8, 144> for BlockSizes {
    ghost whole = { (lit≤ tt, refl) };
}

impl WholeChunks<8, 152> for BlockSizes {
    ghost whole = { (lit≤ tt, refl) };
}

impl WholeChunks<8, 160> for BlockSizes {
    ghost whole = { (lit≤ tt, refl) };
}

impl WholeChunks<8, 168> for BlockSizes {
    ghost whole = { (lit≤ tt, refl) };
}

impl WholeChunks<8, 176> for BlockSizes {
    ghost whole = { (lit≤ tt, refl) };
}

impl WholeChunks<8, 184> for BlockSizes {
    ghost whole = { (lit≤ tt, refl) };
}

impl WholeChunks<8, 192> for BlockSizes {
    ghost whole = { (lit≤ tt, refl) };
}

impl WholeChunks<8, 200> for BlockSizes {
    ghost whole = { (lit≤ tt, refl) };
}

impl WholeChunks<8, 208> for BlockSizes {
    ghost whole = { (lit≤ tt, refl) };
}

impl WholeChunks<8, 216> for BlockSizes {
    ghost whole = { (lit≤ tt, refl) };
}

impl WholeChunks<8, 224> for BlockSizes {
    ghost whole = { (lit≤ tt, refl) };
}

impl WholeChunks<8, 232> for BlockSizes {
    ghost whole = { (lit≤ tt, refl) };
}

impl WholeChunks<8, 240> for BlockSizes {
    ghost whole = { (lit≤ tt, refl) };
}

impl WholeChunks<8, 248> for BlockSizes {
    ghost whole = { (lit≤ tt, refl) };
}

impl WholeChunks<16, 16> for BlockSizes {
    ghost whole = { (lit≤ tt, refl) };
}

impl WholeChunks<16, 32> for BlockSizes {
    ghost whole = { (lit≤ tt, refl) };
}

impl WholeChunks<16, 48> for BlockSizes {
    ghost whole = { (lit≤ tt, refl) };
}

impl WholeChunks<16, 64> for BlockSizes {
    ghost whole = { (lit≤ tt, refl) };
}

impl WholeChunks<16, 80> for BlockSizes {
    ghost whole = { (lit≤ tt, refl) };
}

impl WholeChunks<16, 96> for BlockSizes {
    ghost whole = { (lit≤ tt, refl) };
}

impl WholeChunks<16, 112> for BlockSizes {
    ghost whole = { (lit≤ tt, refl) };
}

impl WholeChunks<16, 128> for BlockSizes {
    ghost whole = { (lit≤ tt, refl) };
}

impl WholeChunks<16, 144> for BlockSizes {
    ghost whole = { (lit≤ tt, refl) };
}

impl WholeChunks<16, 160> for BlockSizes {
    ghost whole = { (lit≤ tt, refl) };
}

impl WholeChunks<16, 176> for BlockSizes {
    ghost whole = { (lit≤ tt, refl) };
}

impl WholeChunks<16, 192> for BlockSizes {
    ghost whole = { (lit≤ tt, refl) };
}

impl WholeChunks<16, 208> for BlockSizes {
    ghost whole = { (lit≤ tt, refl) };
}

impl WholeChunks<16, 224> for BlockSizes {
    ghost whole = { (lit≤ tt, refl) };
}

impl WholeChunks<16, 240> for BlockSizes {
    ghost whole = { (lit≤ tt, refl) };
}
