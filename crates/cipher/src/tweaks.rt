//! Tweakable block ciphers.

pub(crate) mod contexts;
pub(crate) mod zero;

ghost use Rattle.std.specs.Prelude.{◌≡◌, ℕ, ◌<◌, ◌≤◌, length};
ghost use Rattle.cipher.specs.Buffers.{read_of};
ghost use Rattle.cipher.specs.Transcript.{Block, TweakTranscript, Led, tweaked};

use crate::buffers::InOut;
use contexts::TweakBlockCtx;

/// A tweak of T bytes.
pub type Tweak<const T: usize> = [u8; T];

/// What takes a tweak of T bytes, T being from 1 to 255.
pub trait TweakSizeUser<const T: usize> {
    ghost tweak_size: { (1 ≤ T) × (T < 256) };
}

/// What encrypts blocks of B bytes under tweaks of T bytes, both being from 1 to 255.
pub trait TweakBlockCipherEncBackend<const B: usize, const T: usize> {
    // the block that it makes of a tweak and a block
    ghost encrypts: { Self → Block → Block → Block };

    /// Encrypts one block.
    fn encrypt_block_inout(&self, tweak: &[u8; T], block: &mut InOut<'_, '_, [u8; B]>)
        ensures kept { block.new.output.ghost_name ≡ block.old.output.ghost_name }
        ensures reads { block.new.input ≡ block.old.input }
        ensures value { block.new.output.now ≡ encrypts self.now tweak.now (read_of block.old) };

    ghost block_size: { (1 ≤ B) × (B < 256) };

    ghost tweak_size: { (1 ≤ T) × (T < 256) };

    /// Encrypts one block in its place.
    final fn encrypt_block(&self, tweak: &[u8; T], block: &mut [u8; B])
        ensures value { block.new ≡ encrypts self.now tweak.now block.old }
    {
        self.encrypt_block_inout(
            tweak,
            &mut InOut {
                output: block,
                input: &[],
            },
        );
    }

    /// Encrypts one block into another place.
    final fn encrypt_block_b2b(&self, tweak: &[u8; T], in_block: &[u8; B], out_block: &mut [u8; B])
        ensures value { out_block.new ≡ encrypts self.now tweak.now in_block.now }
    {
        *out_block = *in_block;
        self.encrypt_block(tweak, out_block);
    }
}

/// What asks a tweakable encryption backend for blocks.
pub trait TweakBlockCipherEncClosure<const B: usize, const T: usize> {
    // what a call leaves alone, as the place that a reference names
    ghost keeps: { Self → Self → Type 0 };

    // this transcript leads from the first state to the second
    ghost leads: { TweakTranscript → Self → Self → Type 0 };

    /// Asks the backend: a transcript of its map alone leads from the old state to the new one.
    fn call<K: TweakBlockCipherEncBackend<B, T>>(&mut self, backend: &K)
        ensures kept { keeps self.old self.new }
        ensures led { Led (tweaked (K.encrypts backend.now)) leads self.old self.new };
}

/// A block cipher that encrypts blocks of B bytes under tweaks of T bytes, both being from 1 to 255.
pub trait TweakBlockCipherEncrypt<const B: usize, const T: usize>: TweakSizeUser<T> {
    // the block that it makes of a tweak and a block
    ghost encrypts: { Self → Block → Block → Block };

    /// Lends a backend to a closure: a transcript of the cipher's map alone leads it from its old state to its new one.
    fn encrypt_with_backend<F: TweakBlockCipherEncClosure<B, T>>(&self, f: &mut F)
        ensures kept { F.keeps f.old f.new }
        ensures led { Led (tweaked (encrypts self.now)) F.leads f.old f.new };

    ghost block_size: { (1 ≤ B) × (B < 256) };

    // under each tweak of T bytes the map is on blocks of B bytes
    ghost sized: { (c : Self) (t x : Block) → length t ≡ T → length x ≡ B → length (encrypts c t x) ≡ B };

    /// Encrypts the block that is read into the place that is written.
    final fn encrypt_block_inout(&self, tweak: &[u8; T], block: InOut<'_, '_, [u8; B]>)
        ensures value { block.exit.0.now ≡ encrypts self.now tweak.now (read_of block.entry) }
    {
        let InOut { output, input } = block;
        let mut ctx = TweakBlockCtx {
            output,
            input,
            tweak,
        };
        self.encrypt_with_backend(&mut ctx);
    }

    /// Encrypts a block in its place.
    final fn encrypt_block(&self, tweak: &[u8; T], block: &mut [u8; B])
        ensures value { block.new ≡ encrypts self.now tweak.now block.old }
    {
        let mut ctx = TweakBlockCtx {
            output: block,
            input: &[],
            tweak,
        };
        self.encrypt_with_backend(&mut ctx);
    }

    /// Encrypts one block into another place.
    final fn encrypt_block_b2b(&self, tweak: &[u8; T], in_block: &[u8; B], out_block: &mut [u8; B])
        ensures value { out_block.new ≡ encrypts self.now tweak.now in_block.now }
    {
        *out_block = *in_block;
        self.encrypt_block(tweak, out_block);
    }
}

/// What decrypts blocks of B bytes under tweaks of T bytes, both being from 1 to 255.
pub trait TweakBlockCipherDecBackend<const B: usize, const T: usize> {
    // the block that it makes of a tweak and a block
    ghost decrypts: { Self → Block → Block → Block };

    /// Decrypts one block.
    fn decrypt_block_inout(&self, tweak: &[u8; T], block: &mut InOut<'_, '_, [u8; B]>)
        ensures kept { block.new.output.ghost_name ≡ block.old.output.ghost_name }
        ensures reads { block.new.input ≡ block.old.input }
        ensures value { block.new.output.now ≡ decrypts self.now tweak.now (read_of block.old) };

    ghost block_size: { (1 ≤ B) × (B < 256) };

    ghost tweak_size: { (1 ≤ T) × (T < 256) };

    /// Decrypts one block in its place.
    final fn decrypt_block(&self, tweak: &[u8; T], block: &mut [u8; B])
        ensures value { block.new ≡ decrypts self.now tweak.now block.old }
    {
        self.decrypt_block_inout(
            tweak,
            &mut InOut {
                output: block,
                input: &[],
            },
        );
    }

    /// Decrypts one block into another place.
    final fn decrypt_block_b2b(&self, tweak: &[u8; T], in_block: &[u8; B], out_block: &mut [u8; B])
        ensures value { out_block.new ≡ decrypts self.now tweak.now in_block.now }
    {
        *out_block = *in_block;
        self.decrypt_block(tweak, out_block);
    }
}

/// What asks a tweakable decryption backend for blocks.
pub trait TweakBlockCipherDecClosure<const B: usize, const T: usize> {
    // what a call leaves alone, as the place that a reference names
    ghost keeps: { Self → Self → Type 0 };

    // this transcript leads from the first state to the second
    ghost leads: { TweakTranscript → Self → Self → Type 0 };

    /// Asks the backend: a transcript of its map alone leads from the old state to the new one.
    fn call<K: TweakBlockCipherDecBackend<B, T>>(&mut self, backend: &K)
        ensures kept { keeps self.old self.new }
        ensures led { Led (tweaked (K.decrypts backend.now)) leads self.old self.new };
}

/// A block cipher that decrypts blocks of B bytes under tweaks of T bytes, both being from 1 to 255.
pub trait TweakBlockCipherDecrypt<const B: usize, const T: usize>: TweakSizeUser<T> {
    // the block that it makes of a tweak and a block
    ghost decrypts: { Self → Block → Block → Block };

    /// Lends a backend to a closure: a transcript of the cipher's map alone leads it from its old state to its new one.
    fn decrypt_with_backend<F: TweakBlockCipherDecClosure<B, T>>(&self, f: &mut F)
        ensures kept { F.keeps f.old f.new }
        ensures led { Led (tweaked (decrypts self.now)) F.leads f.old f.new };

    ghost block_size: { (1 ≤ B) × (B < 256) };

    // under each tweak of T bytes the map is on blocks of B bytes
    ghost sized: { (c : Self) (t x : Block) → length t ≡ T → length x ≡ B → length (decrypts c t x) ≡ B };

    /// Decrypts the block that is read into the place that is written.
    final fn decrypt_block_inout(&self, tweak: &[u8; T], block: InOut<'_, '_, [u8; B]>)
        ensures value { block.exit.0.now ≡ decrypts self.now tweak.now (read_of block.entry) }
    {
        let InOut { output, input } = block;
        let mut ctx = TweakBlockCtx {
            output,
            input,
            tweak,
        };
        self.decrypt_with_backend(&mut ctx);
    }

    /// Decrypts a block in its place.
    final fn decrypt_block(&self, tweak: &[u8; T], block: &mut [u8; B])
        ensures value { block.new ≡ decrypts self.now tweak.now block.old }
    {
        let mut ctx = TweakBlockCtx {
            output: block,
            input: &[],
            tweak,
        };
        self.decrypt_with_backend(&mut ctx);
    }

    /// Decrypts one block into another place.
    final fn decrypt_block_b2b(&self, tweak: &[u8; T], in_block: &[u8; B], out_block: &mut [u8; B])
        ensures value { out_block.new ≡ decrypts self.now tweak.now in_block.now }
    {
        *out_block = *in_block;
        self.decrypt_block(tweak, out_block);
    }
}
