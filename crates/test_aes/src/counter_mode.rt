//! Counter mode.

ghost use Rattle.std.specs.Prelude.{◌≡◌};
ghost use Rattle.std.specs.Int.{w64};
ghost use Rattle.standards.specs.AesKeys.{aes};
ghost use Rattle.standards.specs.Counter.{ctr, plus_be};

use crate::block_by_block::applies;
use crate::rows;
use crate::rows::Row;
use aes_block::Aes128;
use cipher::{BlockCipherEncrypt, InOutBuf, InnerIvInit, IvState, KeyInit, KeyIvInit, SetIvState};
use cipher_stream::{
    StreamCipher, StreamCipherCore, StreamCipherCoreWrapper, StreamCipherCounter, StreamCipherSeek,
    StreamCipherSeekCore,
};
use ctr::{Ctr64BE, CtrCore, CtrFlavor, flavors};

/// The key.
pub const KEY: &[u8; 16] = &[0, 1, 2, 3, 4, 5, 6, 7, 8, 9, 10, 11, 12, 13, 14, 15];

// A text under AES in counter mode, with the counter in the last eight bytes of the nonce.
fn encrypt(key: &[u8; 16], nonce: &[u8; 16], text: &mut [u8])
    ensures { text.new ≡ ctr (aes key.now) (plus_be w64) nonce.now text.old }
{
    let mut cipher = Ctr64BE::<Aes128>::new(key, nonce);
    cipher.apply_keystream(text);
}

// Under this nonce the counter of a flavour of 64 bits wraps after two blocks.
const WRAPPING: [u8; 16] = *b"\x10\x11\x12\x13\x14\x15\x16\x17\xff\xff\xff\xff\xff\xff\xff\xfe";

/// Whether zeros are encrypted to those bytes, and these to zeros.
pub fn goes_and_returns(want: &[u8; 20]) -> bool {
    let mut text = [0; 20];
    encrypt(KEY, &WRAPPING, &mut text);
    let same = text == *want;
    encrypt(KEY, &WRAPPING, &mut text);
    same && text == [0; 20]
}

type Cipher<T> = StreamCipherCoreWrapper<T, 16>;

// Whether a core's first blocks are those.
fn begins<T: StreamCipherCore<16>>(mut core: T, want: &[[u8; 16]; 3]) -> bool {
    let mut blocks = [[0; 16]; 3];
    core.write_keystream_blocks(&mut blocks);
    blocks == *want
}

// Whether four blocks are those, from a position on that is sought if it is not 0, and the next is that block. (`&` has
// one way to the end, where `&&` has one for each test.)
fn goes<T: StreamCipherSeekCore<16>>(
    mut cipher: Cipher<T>,
    from: u32,
    want: &[u8; 64],
    place: u128,
    remaining: Option<usize>,
) -> bool {
    let mut bytes = [0; 64];
    let sought = from == 0 || cipher.try_seek(from).is_ok();
    let told = cipher.try_apply_keystream(&mut bytes);
    sought & told.is_ok() & (bytes == *want) & is_at(cipher.get_core(), place, remaining)
}

// Whether that block is next, and so many remain.
fn is_at<T: StreamCipherSeekCore<16>>(core: &T, place: u128, remaining: Option<usize>) -> bool {
    core.get_block_pos().to_u128() == place && core.remaining_blocks() == remaining
}

// The core at another block.
fn core_at<T: StreamCipherSeekCore<16>>(mut core: T, place: u128) -> T {
    if let Some(place) = T::Counter::from_u128(place) {
        core.set_block_pos(place);
    }
    core
}

// Whether one block remains, of which 17 bytes are refused, with no byte changed, and then 16 are given.
fn gives_its_last_block<T: StreamCipherSeekCore<16>>(core: T, place: u32) -> bool {
    let before = is_at(&core, u128::from(place), Some(1));
    let mut cipher = Cipher::<T>::from_core(core);
    let mut bytes = [0; 17];
    let refused = cipher.try_apply_keystream(&mut bytes);
    let given = cipher.try_apply_keystream(&mut [0; 16]);
    let after = is_at(cipher.get_core(), u128::from(place) + 1, Some(0));
    before & refused.is_err() & given.is_ok() & (bytes == [0; 17]) & after
}

// Whether n bytes, at most 32, are given where one block remains, and change where they are.
fn are_given<T: StreamCipherSeekCore<16>>(core: T, n: usize) -> bool {
    let mut bytes = [0; 32];
    let told = core.try_apply_keystream_partial(InOutBuf::from(&mut bytes[..n.min(32)]));
    let is_given = n < 32;
    told.is_ok() == is_given && (bytes != [0; 32]) == is_given
}

// Whether the state after one block is that, and where it is set again, block 0 is next and so many remain.
fn goes_by_its_state<T: StreamCipherSeekCore<16> + SetIvState<16>>(
    mut core: T,
    want: &[u8; 16],
    remaining: Option<usize>,
) -> bool {
    core.write_keystream_block(&mut [0; 16]);
    let state = core.iv_state();
    core.set_iv(&state);
    state == *want && is_at(&core, 0, remaining)
}

// Whether the next two blocks from a state on are those, and the place is 0 where the state is set again.
fn goes_on<T: StreamCipherSeekCore<16> + SetIvState<16>>(
    mut core: T,
    state: &[u8; 16],
    want: &[[u8; 16]; 2],
) -> bool {
    core.set_iv(state);
    let mut blocks = [[0; 16]; 2];
    core.write_keystream_blocks(&mut blocks);
    core.set_iv(state);
    blocks == *want && core.get_block_pos().to_u128() == 0
}

/// A flavour.
pub enum Flavor {
    Ctr32BE,
    Ctr64BE,
    Ctr128BE,
    Ctr32LE,
    Ctr64LE,
    Ctr128LE,
}

/// A request to a flavour from a nonce on.
#[derive(Drop)]
pub enum Asked {
    // To have that name, and to begin with those blocks.
    Begin(&'static str, [[u8; 16]; 3]),
    // To go on from a position with those blocks up to that block, where so many remain.
    Go(u32, [u8; 64], u128, Option<usize>),
    /// To apply the keystream of `block_by_block` to this number of bytes, that number in each call.
    Apply(usize, usize),
    // To do that from that block on.
    From(u128, OfCore),
}

/// A request to a core.
#[derive(Drop)]
pub enum OfCore {
    GiveTheLast(u32),
    GivePart(usize),
    Remain(Option<usize>),
    State([u8; 16], Option<usize>),
    GoOn([u8; 16], [[u8; 16]; 2]),
}

fn core_does<T: StreamCipherSeekCore<16> + SetIvState<16>>(core: T, asked: &OfCore) -> bool {
    match asked {
        OfCore::GiveTheLast(place) => gives_its_last_block(core, *place),
        OfCore::GivePart(n) => are_given(core, *n),
        OfCore::Remain(want) => core.remaining_blocks() == *want,
        OfCore::State(want, remaining) => goes_by_its_state(core, want, *remaining),
        OfCore::GoOn(state, want) => goes_on(core, state, want),
    }
}

fn core_answers<
    C: KeyInit<16> + Drop,
    T: StreamCipherSeekCore<16> + SetIvState<16> + KeyIvInit<16, 16> + InnerIvInit<C, 16>,
>(name: &str, iv: &[u8; 16], asked: &Asked) -> bool {
    match asked {
        Asked::Begin(want, blocks) => name == *want && begins(T::new(KEY, iv), blocks),
        Asked::Go(from, want, place, remaining) => goes(
            Cipher::<T>::new(KEY, iv),
            *from,
            want,
            *place,
            *remaining,
        ),
        Asked::Apply(n, size) => applies(Cipher::<T>::new(KEY, iv), *n, *size),
        Asked::From(place, asked) => {
            let core = T::inner_iv_init(C::new(KEY), iv);
            core_does(core_at(core, *place), asked)
        }
    }
}

fn does<C: KeyInit<16> + BlockCipherEncrypt<16> + Drop, F: CtrFlavor<16>>(
    iv: &[u8; 16],
    asked: &Asked,
) -> bool {
    core_answers::<C, CtrCore<C, F, 16>>(F::NAME.as_str(), iv, asked)
}

/// Whether a flavour fulfils a request from a nonce on.
pub fn holds(flavor: &Flavor, iv: &[u8; 16], asked: &Asked) -> bool {
    match flavor {
        Flavor::Ctr32BE => does::<Aes128, flavors::Ctr32BE>(iv, asked),
        Flavor::Ctr64BE => does::<Aes128, flavors::Ctr64BE>(iv, asked),
        Flavor::Ctr128BE => does::<Aes128, flavors::Ctr128BE>(iv, asked),
        Flavor::Ctr32LE => does::<Aes128, flavors::Ctr32LE>(iv, asked),
        Flavor::Ctr64LE => does::<Aes128, flavors::Ctr64LE>(iv, asked),
        Flavor::Ctr128LE => does::<Aes128, flavors::Ctr128LE>(iv, asked),
    }
}

// The nonce whose counter wraps, and one more.
const AFTER_ONE: [u8; 16] = *b"\x10\x11\x12\x13\x14\x15\x16\x17\xff\xff\xff\xff\xff\xff\xff\xff";

const ZEROS: [u8; 16] = [0; 16];

/// Rows of counter mode. Each flavour wraps in its field: expected values by the ECB mode of OpenSSL, on the counter
/// blocks.
pub const ROWS: &[Row] = &[
    Row(
        "once and twice",
        rows::Asked::GoAndReturn(
            *b"\x1e\x6a\x05\x6f\x13\xa7\xf2\x0a\x71\xeb\x11\x65\xc2\xf2\x56\x48\x49\x04\x7e\x74",
        ),
    ),
    Row(
        "a big counter past its wrap",
        rows::Asked::Counter(
            Flavor::Ctr32BE,
            *b"\x22\x22\x22\x22\x22\x22\x22\x22\x22\x22\x22\x22\xff\xff\xff\xfe",
            Asked::Go(
                0,
                *b"\x58\xfc\x84\x9d\x1c\xf5\x3c\x54\xc6\x3e\x1b\x1d\x15\xcb\x3c\x8a\xaa\x33\x5f\x72\x13\x55\x85\xe9\xff\x94\x3f\x4d\xac\x77\xcb\x63\xbd\x1a\xe8\x71\x6b\xe6\x9c\x3b\x4d\x88\x6b\x22\x2b\x9b\x4e\x1e\x67\x54\x8e\xf8\x96\xa9\x6e\x27\x46\xd8\xca\x64\x76\xd8\xb1\x83",
                4,
                Some(4294967291),
            ),
        ),
    ),
    Row(
        "a little counter from a seek",
        rows::Asked::Counter(
            Flavor::Ctr32LE,
            *b"\x11\x11\x11\x11\x11\x11\x11\x11\x11\x11\x11\x11\x11\x11\x11\x91",
            Asked::Go(
                16,
                *b"\xf1\x8b\x39\xaf\xf6\x93\x0f\xdb\x2d\x9f\xce\x34\x26\x1f\xf6\x99\xeb\x96\x77\x46\x69\xd2\x4b\x56\x0c\x9a\xd0\x28\xc5\xc3\x9c\x45\x80\x77\x5a\x82\x06\x52\x56\xb4\x78\x7d\xc9\x1c\x69\x42\xb7\x00\x15\x64\xdd\xa1\xb0\x7d\xce\xd9\x20\x1a\xb7\x1b\xaf\x06\x90\x5b",
                5,
                Some(4294967290),
            ),
        ),
    ),
    Row(
        "one block before the last",
        rows::Asked::Counter(
            Flavor::Ctr32BE,
            ZEROS,
            Asked::From(4294967294, OfCore::GiveTheLast(4294967294)),
        ),
    ),
    Row(
        "a part more",
        rows::Asked::Counter(
            Flavor::Ctr32BE,
            ZEROS,
            Asked::From(4294967294, OfCore::GivePart(31)),
        ),
    ),
    Row(
        "a block more",
        rows::Asked::Counter(
            Flavor::Ctr32BE,
            ZEROS,
            Asked::From(4294967294, OfCore::GivePart(32)),
        ),
    ),
    Row(
        "what remains of many",
        rows::Asked::Counter(
            Flavor::Ctr128BE,
            ZEROS,
            Asked::From(0, OfCore::Remain(None)),
        ),
    ),
    Row(
        "what remains of many near their end",
        rows::Asked::Counter(
            Flavor::Ctr128BE,
            ZEROS,
            Asked::From(
                340282366920938463463374607431768211450,
                OfCore::Remain(Some(5)),
            ),
        ),
    ),
    Row(
        "the state after a block",
        rows::Asked::Counter(
            Flavor::Ctr64BE,
            WRAPPING,
            Asked::From(0, OfCore::State(AFTER_ONE, Some(18446744073709551615))),
        ),
    ),
    Row(
        "another core from it on",
        rows::Asked::Counter(
            Flavor::Ctr64BE,
            ZEROS,
            Asked::From(
                0,
                OfCore::GoOn(
                    AFTER_ONE,
                    [
                        *b"\x49\x04\x7e\x74\xea\x04\xc2\xc9\xf1\xfe\x06\xbe\xe6\x11\x57\x24",
                        *b"\x8d\xe6\xd8\xc0\xdd\x5b\xcc\x98\xdf\x46\x3a\xca\xe0\xf5\x2a\x75",
                    ],
                ),
            ),
        ),
    ),
    Row(
        "the same vector",
        rows::Asked::Counter(
            Flavor::Ctr32BE,
            ZEROS,
            Asked::From(
                0,
                OfCore::State(
                    *b"\x00\x00\x00\x00\x00\x00\x00\x00\x00\x00\x00\x00\x00\x00\x00\x01",
                    Some(4294967295),
                ),
            ),
        ),
    ),
    Row(
        "32BE",
        rows::Asked::Counter(
            Flavor::Ctr32BE,
            *b"\x10\x11\x12\x13\x14\x15\x16\x17\x18\x19\x1a\x1b\xff\xff\xff\xfe",
            Asked::Begin(
                "32BE",
                [
                    *b"\x4c\x11\xec\xab\xff\xb3\x93\xb2\x63\x97\x63\x4b\xc7\xbc\x48\x13",
                    *b"\xd2\xec\xa9\x45\x89\xad\x47\xa0\x68\x23\x03\xf5\xb1\xd0\xe7\x77",
                    *b"\x07\x4b\xce\x62\xd9\x8c\xb9\x01\x1c\xec\x69\x58\xeb\xb4\xfc\x36",
                ],
            ),
        ),
    ),
    Row(
        "64BE",
        rows::Asked::Counter(
            Flavor::Ctr64BE,
            *b"\x10\x11\x12\x13\x14\x15\x16\x17\xff\xff\xff\xff\xff\xff\xff\xfe",
            Asked::Begin(
                "64BE",
                [
                    *b"\x1e\x6a\x05\x6f\x13\xa7\xf2\x0a\x71\xeb\x11\x65\xc2\xf2\x56\x48",
                    *b"\x49\x04\x7e\x74\xea\x04\xc2\xc9\xf1\xfe\x06\xbe\xe6\x11\x57\x24",
                    *b"\x8d\xe6\xd8\xc0\xdd\x5b\xcc\x98\xdf\x46\x3a\xca\xe0\xf5\x2a\x75",
                ],
            ),
        ),
    ),
    Row(
        "128BE",
        rows::Asked::Counter(
            Flavor::Ctr128BE,
            *b"\xff\xff\xff\xff\xff\xff\xff\xff\xff\xff\xff\xff\xff\xff\xff\xfe",
            Asked::Begin(
                "128BE",
                [
                    *b"\xb6\xb5\xc2\xd8\x2d\x8b\xd4\x0f\xcf\x4e\xd8\xf4\xae\x6e\x97\xee",
                    *b"\x3c\x44\x1f\x32\xce\x07\x82\x23\x64\xd7\xa2\x99\x0e\x50\xbb\x13",
                    *b"\xc6\xa1\x3b\x37\x87\x8f\x5b\x82\x6f\x4f\x81\x62\xa1\xc8\xd8\x79",
                ],
            ),
        ),
    ),
    Row(
        "32LE",
        rows::Asked::Counter(
            Flavor::Ctr32LE,
            *b"\xfe\xff\xff\xff\x10\x11\x12\x13\x14\x15\x16\x17\x18\x19\x1a\x1b",
            Asked::Begin(
                "32LE",
                [
                    *b"\x6d\x5a\xd3\xff\xc8\xc7\x2f\x9c\x3a\x52\xd2\x7b\x80\xf4\x84\x88",
                    *b"\x64\x71\x36\xc9\x16\xbc\xf3\x76\x1d\x77\x4d\xa0\x51\x90\x10\xbf",
                    *b"\x77\xd9\x30\xbc\x45\xd7\xa5\x70\x52\xe9\x6a\x8c\x74\x08\x07\x42",
                ],
            ),
        ),
    ),
    Row(
        "64LE",
        rows::Asked::Counter(
            Flavor::Ctr64LE,
            *b"\xfe\xff\xff\xff\xff\xff\xff\xff\x10\x11\x12\x13\x14\x15\x16\x17",
            Asked::Begin(
                "64LE",
                [
                    *b"\xd1\x46\x1f\xf9\x03\xbc\x7c\x03\x3d\x84\xea\x78\x56\x19\xe2\xd6",
                    *b"\x85\x9e\xa5\xcd\x12\xda\x2b\x5e\x1a\x4f\x7e\xb6\x9c\x11\x0e\x08",
                    *b"\xe1\x66\x53\xb5\xcc\x55\xb3\xb2\xde\xa8\x15\xa6\x5f\x72\x87\xd0",
                ],
            ),
        ),
    ),
    Row(
        "128LE",
        rows::Asked::Counter(
            Flavor::Ctr128LE,
            *b"\xfe\xff\xff\xff\xff\xff\xff\xff\xff\xff\xff\xff\xff\xff\xff\xff",
            Asked::Begin(
                "128LE",
                [
                    *b"\xbc\xd7\x2a\xbc\x9f\xe5\xcf\x33\x97\xab\x09\x24\x94\x98\x74\xb6",
                    *b"\x3c\x44\x1f\x32\xce\x07\x82\x23\x64\xd7\xa2\x99\x0e\x50\xbb\x13",
                    *b"\xc6\xa1\x3b\x37\x87\x8f\x5b\x82\x6f\x4f\x81\x62\xa1\xc8\xd8\x79",
                ],
            ),
        ),
    ),
];
