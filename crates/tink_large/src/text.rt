//! The large text of a number, piece by piece.

ghost use Rattle.std.specs.Prelude.{◌≡◌, ◌≤◌, ◌<◌, ◌+◌, ◌^◌, vec_capacity};
ghost use Rattle.tink_large.specs.Large.{byte_at, text_from, text_length};

/// The bytes of the text of the number 0.
const SHORTEST: u64 = 1000000;

/// The bytes of the large text of a number: the number and 1,000,000.
pub fn text_length(n: u32) -> u64
    ensures { result ≡ text_length n }
{
    u64::from(n) + SHORTEST
}

// The byte of the text at a place.
fn byte_at(n: u32, place: u64) -> u8
    requires { place < 2 ^ 40 }
    ensures { result ≡ byte_at n place }
{
    ((31 * place + u64::from(n)) % 251) as u8
}

/// Makes `piece` the `count` bytes of the large text from place `at` on.
#[tactic(auto, using(crate::proofs::TextFacts::text_from_none, crate::proofs::TextFacts::text_from_more))]
pub fn fill_piece(n: u32, at: u64, count: usize, piece: &mut Vec<u8>)
    requires place { at + count < 2 ^ 40 }
    requires room { count ≤ vec_capacity piece.old }
    ensures text { piece.new.items ≡ text_from n at count }
    ensures room { vec_capacity piece.old ≤ vec_capacity piece.new }
{
    piece.clear();
    for i in 0..count {
        match piece.push(byte_at(n, at + i as u64)) {
            Ok(()) => {}
            Err(_) => unreachable!(),
        }
    }
}
