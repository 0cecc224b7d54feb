// Counter mode (SP 800-38A, 6.5), in place.
ghost use Rattle.std.specs.Prelude.{◌≡◌, ◌≤◌, ◌+◌, ◌-◌, ◌^◌, length};
ghost use Rattle.std.specs.Int.{w32};
ghost use Rattle.standards.specs.Counter.{ctr, plus_be, plus_le};
ghost use Rattle.cipher_stream.specs.ByteStream.{HasRoom, bytes_from, to_come};
ghost use Rattle.cipher_stream.specs.Keystream.{xored};
ghost use Rattle.gcm.specs.Orders.{counted};

use crate::order::{ByteOrder, counter_after};
use cipher::{BlockCipherEncrypt, InnerIvInit};
use cipher_stream::{StreamCipher, StreamCipherCore, StreamCipherCoreWrapper};
use ctr::{CtrCore, flavors};

// The most bytes of a cipher in counter mode: one block less than its core has.
const MOST_APPLIED: usize = (1 << 36) - 16;

// By the cipher over a core.
fn apply_wrapped<T: StreamCipherCore<16>>(core: T, bytes: &mut [u8])
    requires { HasRoom 16 (T.remaining core) 0 (length bytes.old) }
    ensures { bytes.new ≡ xored (to_come (bytes_from 16 (T.keystream core) 0)) bytes.old }
{
    let mut cipher = StreamCipherCoreWrapper::from_core(core);
    cipher.apply_keystream(bytes);
}

// By `Ctr32BE`, which counts in the last bytes.
fn apply_be<C: BlockCipherEncrypt<16>>(c: &C, block: &[u8; 16], bytes: &mut [u8])
    requires { length bytes.old ≤ 2 ^ 36 - 16 }
    ensures { bytes.new ≡ ctr (C.encrypts c.now) (plus_be w32) block.now bytes.old }
{
    let core = CtrCore::<&C, flavors::Ctr32BE, 16>::inner_iv_init(c, block);
    apply_wrapped(core, bytes);
}

// By `Ctr32LE`, which counts in the first bytes.
fn apply_le<C: BlockCipherEncrypt<16>>(c: &C, block: &[u8; 16], bytes: &mut [u8])
    requires { length bytes.old ≤ 2 ^ 36 - 16 }
    ensures { bytes.new ≡ ctr (C.encrypts c.now) (plus_le w32) block.now bytes.old }
{
    let core = CtrCore::<&C, flavors::Ctr32LE, 16>::inner_iv_init(c, block);
    apply_wrapped(core, bytes);
}

// In either order, as far as a cipher goes.
fn apply_counted<C: BlockCipherEncrypt<16>>(
    c: &C,
    order: ByteOrder,
    block: &[u8; 16],
    bytes: &mut [u8],
)
    requires { length bytes.old ≤ 2 ^ 36 - 16 }
    ensures { bytes.new ≡ ctr (C.encrypts c.now) (counted order) block.now bytes.old }
{
    match order {
        ByteOrder::BigEndian => apply_be(c, block, bytes),
        ByteOrder::LittleEndian => apply_le(c, block, bytes),
    }
}

// Adds the keystream that begins with the cipher's block of `block`. Where all 2^32 blocks are wanted, the last is had
// from a cipher that begins there.
pub(crate) fn apply_keystream<C: BlockCipherEncrypt<16>>(
    c: &C,
    order: ByteOrder,
    block: &[u8; 16],
    bytes: &mut [u8],
)
    requires { length bytes.old ≤ 2 ^ 36 }
    ensures { bytes.new ≡ ctr (C.encrypts c.now) (counted order) block.now bytes.old }
{
    let n = bytes.len().min(MOST_APPLIED);
    apply_counted(c, order, block, &mut bytes[..n]);
    if n == bytes.len() {
        return;
    }
    let last = counter_after(order, block, (1 << 32) - 1);
    apply_counted(c, order, &last, &mut bytes[n..]);
}
