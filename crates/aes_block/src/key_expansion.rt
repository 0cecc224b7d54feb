// The key expansion (FIPS 197, 5.2). A word is four bytes, and n is the number of words in the key: 4, 6 or 8.
ghost use Rattle.std.specs.Prelude.{◌≡◌, ◌+◌, ◌*◌, ◌<◌, ◌≤◌, length, take};
ghost use Rattle.standards.specs.AesKeys.{IsSize, mixed, next_word, rot_word, round_key, round_keys, schedule, sub_word, word_at, xor_word};

use crate::encryption::{block_of_columns, sub_byte};
use crate::tables::POWERS;

fn sub_word(w: [u8; 4]) -> [u8; 4]
    ensures { result ≡ sub_word w }
{
    let [a, b, c, d] = w;
    [sub_byte(a), sub_byte(b), sub_byte(c), sub_byte(d)]
}

fn rot_word(w: [u8; 4]) -> [u8; 4]
    ensures { result ≡ rot_word w }
{
    let [a, b, c, d] = w;
    [b, c, d, a]
}

fn xor_word(v: [u8; 4], w: [u8; 4]) -> [u8; 4]
    ensures { result ≡ xor_word v w }
{
    let [a, b, c, d] = v;
    let [e, f, g, h] = w;
    [a ^ e, b ^ f, c ^ g, d ^ h]
}

// What word i - 1, `w`, gives to word i.
fn temp_word(n: usize, w: [u8; 4], i: usize) -> [u8; 4]
    requires size { IsSize n }
    requires low { n ≤ i }
    requires high { i < 4 * n + 28 }
    ensures { result ≡ mixed n w i }
{
    if i % n == 0 {
        return xor_word(sub_word(rot_word(w)), [POWERS[i / n], 0, 0, 0]);
    }
    if n == 8 && i % 8 == 4 {
        return sub_word(w);
    }
    w
}

fn next_word(n: usize, far: [u8; 4], near: [u8; 4], i: usize) -> [u8; 4]
    requires size { IsSize n }
    requires low { n ≤ i }
    requires high { i < 4 * n + 28 }
    ensures { result ≡ next_word n far near i }
{
    xor_word(far, temp_word(n, near, i))
}

fn word_at(key: &[u8], i: usize) -> [u8; 4]
    requires { i + 4 ≤ length key.now }
    ensures { result ≡ word_at key.now i }
{
    [key[i], key[i + 1], key[i + 2], key[i + 3]]
}

// The words of the key's schedule, of which the first 4 n + 28 are used.
pub(crate) fn expand(n: usize, key: &[u8]) -> [[u8; 4]; 60]
    requires size { IsSize n }
    requires whole { length key.now ≡ 4 * n }
    ensures { take (4 * n + 28) result ≡ schedule n key.now (3 * n + 28) }
{
    let mut words = [[0; 4]; 60];
    'copy: for i in 0..n {
        words[i] = word_at(key, 4 * i);
    }
    'mix: for i in n..4 * n + 28 {
        words[i] = next_word(n, words[i - n], words[i - 1], i);
    }
    words
}

// The four words of round r.
fn round_key(words: &[[u8; 4]; 60], r: usize) -> [u8; 16]
    requires { r < 15 }
    ensures { result ≡ round_key words.now r }
{
    block_of_columns(
        words[4 * r],
        words[4 * r + 1],
        words[4 * r + 2],
        words[4 * r + 3],
    )
}

// The keys of all rounds, the one before the first among them.
pub(crate) fn round_keys(words: &[[u8; 4]; 60], rounds: usize) -> [[u8; 16]; 15]
    requires { rounds ≤ 14 }
    ensures { take (rounds + 1) result ≡ round_keys words.now (rounds + 1) }
{
    let mut keys = [[0; 16]; 15];
    'join: for r in 0..rounds + 1 {
        keys[r] = round_key(words, r);
    }
    keys
}
