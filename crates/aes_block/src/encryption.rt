// The cipher by bytes (FIPS 197, 5.1). Byte r + 4 c of a block stands in row r, column c.
ghost use Rattle.std.specs.Prelude.{◌≡◌, ◌+◌, ◌<◌, ◌≤◌, ◌++◌};
ghost use Rattle.standards.specs.Aes.{add_round_key, cipher, mix_byte, mix_column, mix_columns, shift_rows, sub_byte, sub_bytes};

use crate::tables::{SUB_BYTES, SUB_TIMES_THREE, SUB_TIMES_TWO};

#[inline(always)]
pub(crate) fn sub_byte(x: u8) -> u8
    ensures { result ≡ sub_byte x }
{
    SUB_BYTES[x as usize]
}

// SubBytes, and then ShiftRows.
#[inline(always)]
fn sub_and_shift(s: [u8; 16]) -> [u8; 16]
    ensures { result ≡ shift_rows (sub_bytes s) }
{
    [
        sub_byte(s[0]),
        sub_byte(s[5]),
        sub_byte(s[10]),
        sub_byte(s[15]),
        sub_byte(s[4]),
        sub_byte(s[9]),
        sub_byte(s[14]),
        sub_byte(s[3]),
        sub_byte(s[8]),
        sub_byte(s[13]),
        sub_byte(s[2]),
        sub_byte(s[7]),
        sub_byte(s[12]),
        sub_byte(s[1]),
        sub_byte(s[6]),
        sub_byte(s[11]),
    ]
}

// A byte of MixColumns, of bytes that SubBytes has still to replace.
#[inline(always)]
fn mix_byte(a: u8, b: u8, c: u8, d: u8) -> u8
    ensures { result ≡ mix_byte (sub_byte a) (sub_byte b) (sub_byte c) (sub_byte d) }
{
    SUB_TIMES_TWO[a as usize] ^ SUB_TIMES_THREE[b as usize] ^ sub_byte(c) ^ sub_byte(d)
}

#[inline(always)]
fn mix_column(a: u8, b: u8, c: u8, d: u8) -> [u8; 4]
    ensures { result ≡ mix_column (sub_byte a) (sub_byte b) (sub_byte c) (sub_byte d) }
{
    [
        mix_byte(a, b, c, d),
        mix_byte(b, c, d, a),
        mix_byte(c, d, a, b),
        mix_byte(d, a, b, c),
    ]
}

// SubBytes, ShiftRows, and then MixColumns.
#[inline(always)]
fn sub_shift_and_mix(s: [u8; 16]) -> [u8; 16]
    ensures { result ≡ mix_columns (shift_rows (sub_bytes s)) }
{
    let [e0, e1, e2, e3] = mix_column(s[0], s[5], s[10], s[15]);
    let [f0, f1, f2, f3] = mix_column(s[4], s[9], s[14], s[3]);
    let [g0, g1, g2, g3] = mix_column(s[8], s[13], s[2], s[7]);
    let [h0, h1, h2, h3] = mix_column(s[12], s[1], s[6], s[11]);
    [
        e0, e1, e2, e3, f0, f1, f2, f3, g0, g1, g2, g3, h0, h1, h2, h3,
    ]
}

// Four columns, or words, as one block.
#[inline(always)]
pub(crate) fn block_of_columns(v: [u8; 4], w: [u8; 4], x: [u8; 4], y: [u8; 4]) -> [u8; 16]
    ensures { result ≡ v ++ w ++ x ++ y }
{
    let [a0, a1, a2, a3] = v;
    let [b0, b1, b2, b3] = w;
    let [c0, c1, c2, c3] = x;
    let [d0, d1, d2, d3] = y;
    [
        a0, a1, a2, a3, b0, b1, b2, b3, c0, c1, c2, c3, d0, d1, d2, d3,
    ]
}

#[inline(always)]
pub(crate) fn add_round_key(s: [u8; 16], k: [u8; 16]) -> [u8; 16]
    ensures { result ≡ add_round_key s k }
{
    [
        s[0] ^ k[0],
        s[1] ^ k[1],
        s[2] ^ k[2],
        s[3] ^ k[3],
        s[4] ^ k[4],
        s[5] ^ k[5],
        s[6] ^ k[6],
        s[7] ^ k[7],
        s[8] ^ k[8],
        s[9] ^ k[9],
        s[10] ^ k[10],
        s[11] ^ k[11],
        s[12] ^ k[12],
        s[13] ^ k[13],
        s[14] ^ k[14],
        s[15] ^ k[15],
    ]
}

// The last round, which has no MixColumns.
#[inline(always)]
fn last_round(s: [u8; 16], key: [u8; 16]) -> [u8; 16]
    ensures { result ≡ add_round_key (shift_rows (sub_bytes s)) key }
{
    add_round_key(sub_and_shift(s), key)
}

// The block by way of a number, so that its bytes come one by one and not as a vector, which is slower here.
#[inline(always)]
fn by_number(block: &[u8; 16]) -> [u8; 16]
    ensures { result ≡ block.now }
{
    u128::from_le_bytes(*block).to_le_bytes()
}

// The block enciphered in so many rounds, with these round keys.
pub(crate) fn encipher(keys: &[[u8; 16]; 15], rounds: usize, block: &[u8; 16]) -> [u8; 16]
    requires some { 1 ≤ rounds }
    requires few { rounds ≤ 14 }
    ensures { result ≡ cipher rounds keys.now block.now }
{
    let mut state = add_round_key(by_number(block), keys[0]);
    'rounds: for i in 1..rounds {
        let mixed = sub_shift_and_mix(state);
        state = add_round_key(mixed, keys[i]);
    }
    last_round(state, keys[rounds])
}
