ghost use Rattle.std.specs.Prelude.{◌≡◌, ◌≤◌, ◌<◌, ◌+◌, ◌^◌, ℕ, List, [], length, true, false, vec_len, vec_capacity};
ghost use Rattle.stream_model.specs.Cut.{room_at};
ghost use Rattle.tink_streaming_segment.specs.Openers.{segment_map};
ghost use Rattle.tink_streaming_segment.specs.Opening.{HeadOpensTo};
ghost use Rattle.tink_streaming_segment.specs.Rooms.{KeepsNonceAndText};

use crate::memory::set_length;
use crate::nonce::generate_segment_nonce;
use crate::opener::Opener;
use crate::segment_traits::SegmentDecrypter;

/// The bytes that a segment of this number has at most: `first` for segment 0, which follows the front, and else
/// `size`.
pub fn size_of<D: SegmentDecrypter>(opener: &Opener<D>, number: u64) -> usize
    ensures { result ≡ room_at opener.now.first opener.now.size number }
{
    if number == 0 {
        opener.first
    } else {
        opener.size
    }
}

// Opens a segment into `opened`, which is cleared where it is the segment of no text.
fn open_into<D: SegmentDecrypter>(
    opener: &Opener<D>,
    number: u64,
    last: bool,
    segment: &[u8],
    nonce: &mut [u8],
    opened: &mut Vec<u8>,
) -> bool
    requires number { number < 2 ^ 32 }
    requires size { length segment.now ≤ opener.now.size }
    requires room { opener.now.size ≤ vec_capacity opened.old }
    requires nonce { length nonce.old ≡ opener.now.nonce_size }
    ensures ok { result ≡ true → segment_map opener.now number last opened.new.items ≡ segment.now }
    ensures length { result ≡ true → vec_len opened.new + opener.now.overhead ≡ length segment.now }
    ensures refused { result ≡ false → (t : List ℕ) → segment_map opener.now number last t ≡ segment.now → ⊥ }
    ensures cleared { result ≡ false → opened.new.items ≡ [] }
    ensures capacity { vec_capacity opened.new ≡ vec_capacity opened.old }
{
    if segment.len() < opener.overhead {
        opened.clear();
        return false;
    }
    set_length(opened, segment.len() - opener.overhead);
    match generate_segment_nonce(nonce, &opener.prefix, number, last) {
        Ok(()) => {}
        Err(_) => unreachable!(),
    }
    match opener
        .decrypter
        .decrypt_segment_into(segment, nonce, opened)
    {
        Ok(()) => true,
        Err(_) => {
            opened.clear();
            false
        }
    }
}

/// Opens a segment into `opened`, which is cleared where it is the segment of no text.
pub fn open_held<D: SegmentDecrypter>(
    opener: &Opener<D>,
    number: u64,
    last: bool,
    segment: &[u8],
    nonce: &mut Vec<u8>,
    opened: &mut Vec<u8>,
) -> bool
    requires number { number < 2 ^ 32 }
    requires size { length segment.now ≤ opener.now.size }
    requires room { opener.now.size ≤ vec_capacity opened.old }
    requires nonce { opener.now.nonce_size ≤ vec_len nonce.old }
    ensures ok { result ≡ true → segment_map opener.now number last opened.new.items ≡ segment.now }
    ensures length { result ≡ true → vec_len opened.new + opener.now.overhead ≡ length segment.now }
    ensures refused { result ≡ false → (t : List ℕ) → segment_map opener.now number last t ≡ segment.now → ⊥ }
    ensures cleared { result ≡ false → opened.new.items ≡ [] }
    ensures room { KeepsNonceAndText nonce.old nonce.new opened.old opened.new }
{
    open_into(
        opener,
        number,
        last,
        segment,
        &mut nonce[..opener.nonce_size],
        opened,
    )
}

/// Opens the segment at the head of held bytes, which is the last one where nothing follows it.
/// No bytes are no segment.
pub fn open_front<D: SegmentDecrypter>(
    opener: &Opener<D>,
    number: u64,
    held: &[u8],
    nonce: &mut Vec<u8>,
    opened: &mut Vec<u8>,
) -> bool
    requires number { number < 2 ^ 32 }
    requires room { opener.now.size ≤ vec_capacity opened.old }
    requires nonce { opener.now.nonce_size ≤ vec_len nonce.old }
    ensures ok { result ≡ true → HeadOpensTo (segment_map opener.now) number
        (room_at opener.now.first opener.now.size number) held.now opened.new.items }
    ensures some { result ≡ true → room_at opener.now.first opener.now.size number < length held.now
        → 0 < vec_len opened.new }
    ensures fits { result ≡ true → vec_len opened.new ≤ opener.now.size }
    ensures refused { result ≡ false → (t : List ℕ) → HeadOpensTo (segment_map opener.now) number
        (room_at opener.now.first opener.now.size number) held.now t → ⊥ }
    ensures cleared { result ≡ false → opened.new.items ≡ [] }
    ensures room { KeepsNonceAndText nonce.old nonce.new opened.old opened.new }
{
    let size = size_of(opener, number);
    let n = held.len().min(size);
    if n == 0 {
        opened.clear();
        return false;
    }
    open_held(
        opener,
        number,
        held.len() <= size,
        &held[..n],
        nonce,
        opened,
    )
}
