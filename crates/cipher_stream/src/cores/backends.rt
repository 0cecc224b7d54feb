//! What a core lends to a closure, and the closures.

ghost use Rattle.std.specs.Prelude.{◌≡◌, ℕ, ◌<◌, ◌≤◌, List, length};
ghost use Rattle.cipher.specs.Transcript.{Block};
ghost use Rattle.cipher_stream.specs.Keystream.{Keystream, next, stream_of, IsMoved, IsFed};

/// What makes a keystream's blocks of B bytes, `width` of them at a time, B being from 1 to 255.
pub trait StreamCipherBackend<const B: usize> {
    // what a call leaves alone, as the place that a reference names
    ghost keeps: { Self → Self → Type 0 };

    // how many blocks it makes at a time
    ghost lanes: { Self → ℕ };

    ghost keystream: { Self → Keystream };

    /// How many blocks are made at a time, at least 1.
    fn width(&self) -> usize
        ensures value { result ≡ lanes self.now }
        ensures positive { 1 ≤ result };

    /// Writes the next block.
    fn gen_ks_block(&mut self, block: &mut [u8; B])
        ensures kept { keeps self.old self.new }
        ensures same_lanes { lanes self.new ≡ lanes self.old }
        ensures value { block.new ≡ stream_of (keystream self.old) 0 }
        ensures is_moved { IsMoved (keystream self.old) 1 (keystream self.new) };

    /// Writes the next `width` blocks.
    fn gen_par_ks_blocks(&mut self, blocks: &mut [[u8; B]])
        requires { length blocks.old ≡ lanes self.old }
        ensures kept { keeps self.old self.new }
        ensures same_lanes { lanes self.new ≡ lanes self.old }
        ensures value { blocks.new ≡ next (length blocks.old) (keystream self.old) }
        ensures is_moved { IsMoved (keystream self.old) (length blocks.old) (keystream self.new) }
    {
        for i in 0..blocks.len() {
            self.gen_ks_block(&mut blocks[i]);
        }
    }

    /// Writes the next blocks, fewer than `width`.
    fn gen_tail_blocks(&mut self, blocks: &mut [[u8; B]])
        requires { length blocks.old < lanes self.old }
        ensures kept { keeps self.old self.new }
        ensures same_lanes { lanes self.new ≡ lanes self.old }
        ensures value { blocks.new ≡ next (length blocks.old) (keystream self.old) }
        ensures is_moved { IsMoved (keystream self.old) (length blocks.old) (keystream self.new) }
    {
        for i in 0..blocks.len() {
            self.gen_ks_block(&mut blocks[i]);
        }
    }

    ghost keeps_none: { (s : Self) → keeps s s };

    ghost keeps_both: { (s t u : Self) → keeps s t → keeps t u → keeps s u };

    ghost block_size: { (1 ≤ B) × (B < 256) };
}

/// What asks a keystream backend of any width for blocks.
pub trait StreamCipherClosure<const B: usize> {
    // what a call leaves alone, as the place that a reference names
    ghost keeps: { Self → Self → Type 0 };

    // these blocks lead from the first state to the second
    ghost leads: { List Block → Self → Self → Type 0 };

    /// Asks the backend: some number of its next blocks, in order, leads from the old state to the new one.
    fn call<K: StreamCipherBackend<B>>(&mut self, backend: &mut K)
        ensures kept { keeps self.old self.new }
        ensures backend_kept { K.keeps backend.old backend.new }
        ensures fed { IsFed leads self.old self.new (K.keystream backend.old) (K.keystream backend.new) };
}
