// The inverse cipher by bytes (FIPS 197, 5.3), which takes the round keys from the last to the first.
ghost use Rattle.std.specs.Prelude.{◌≡◌, ◌+◌, ◌<◌, ◌≤◌};
ghost use Rattle.standards.specs.Aes.{times};
ghost use Rattle.standards.specs.AesInverse.{inv_cipher, inv_mix_at, inv_mix_byte, inv_mix_columns, inv_shift_rows, inv_sub_byte, inv_sub_bytes};

use crate::encryption::{add_round_key, block_of_columns};
use crate::tables::{INV_SUB_BYTES, TIMES_ELEVEN, TIMES_FOURTEEN, TIMES_NINE, TIMES_THIRTEEN};

#[inline(always)]
fn inv_sub_byte(x: u8) -> u8
    ensures { result ≡ inv_sub_byte x }
{
    INV_SUB_BYTES[x as usize]
}

// InvShiftRows, and then InvSubBytes.
#[inline(always)]
fn inv_shift_and_sub(s: &[u8; 16]) -> [u8; 16]
    ensures { result ≡ inv_sub_bytes (inv_shift_rows s.now) }
{
    [
        inv_sub_byte(s[0]),
        inv_sub_byte(s[13]),
        inv_sub_byte(s[10]),
        inv_sub_byte(s[7]),
        inv_sub_byte(s[4]),
        inv_sub_byte(s[1]),
        inv_sub_byte(s[14]),
        inv_sub_byte(s[11]),
        inv_sub_byte(s[8]),
        inv_sub_byte(s[5]),
        inv_sub_byte(s[2]),
        inv_sub_byte(s[15]),
        inv_sub_byte(s[12]),
        inv_sub_byte(s[9]),
        inv_sub_byte(s[6]),
        inv_sub_byte(s[3]),
    ]
}

#[inline(always)]
fn inv_mix_byte(a: u8, b: u8, c: u8, d: u8) -> u8
    ensures { result ≡ inv_mix_byte a b c d }
{
    TIMES_FOURTEEN[a as usize]
        ^ TIMES_ELEVEN[b as usize]
        ^ TIMES_THIRTEEN[c as usize]
        ^ TIMES_NINE[d as usize]
}

// The column that begins at byte i.
#[inline(always)]
fn inv_mix_column(s: &[u8; 16], i: usize) -> [u8; 4]
    requires { i + 4 ≤ 16 }
    ensures { result ≡ inv_mix_at s.now i }
{
    let [a, b, c, d] = [s[i], s[i + 1], s[i + 2], s[i + 3]];
    [
        inv_mix_byte(a, b, c, d),
        inv_mix_byte(b, c, d, a),
        inv_mix_byte(c, d, a, b),
        inv_mix_byte(d, a, b, c),
    ]
}

#[inline(always)]
fn inv_mix_columns(s: &[u8; 16]) -> [u8; 16]
    ensures { result ≡ inv_mix_columns s.now }
{
    block_of_columns(
        inv_mix_column(s, 0),
        inv_mix_column(s, 4),
        inv_mix_column(s, 8),
        inv_mix_column(s, 12),
    )
}

// The block deciphered in so many rounds, with the round keys of the cipher.
pub(crate) fn decipher(keys: &[[u8; 16]; 15], rounds: usize, block: &[u8; 16]) -> [u8; 16]
    requires some { 1 ≤ rounds }
    requires few { rounds ≤ 14 }
    ensures { result ≡ inv_cipher rounds keys.now block.now }
{
    let mut state = add_round_key(*block, keys[rounds]);
    'rounds: for i in 1..rounds {
        let added = add_round_key(inv_shift_and_sub(&state), keys[rounds - i]);
        state = inv_mix_columns(&added);
    }
    add_round_key(inv_shift_and_sub(&state), keys[0])
}
