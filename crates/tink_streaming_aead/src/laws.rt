ghost use Rattle.tink_streaming_aead.specs.Candidates.{ChoosesCandidate};
ghost use Rattle.std.specs.Prelude.{◌≡◌, ◌≤◌, ◌^◌, ◌++◌, ◌∷◌, ℕ, Bool, List, [], All, None, Some, length, map, take};
ghost use Rattle.std.specs.declared.option.Option.{Option};
ghost use Rattle.std.specs.Io.KnownBytes.{Appends};
ghost use Rattle.stream_model.specs.Agree.{joined};
ghost use Rattle.stream_model.specs.Cut.{chunks};
ghost use Rattle.stream_model.specs.Key.{IsUsable, StreamKey, first_room, fronted, keys_of, room};
ghost use Rattle.stream_model.specs.Opening.{IsChosen, IsStream, OpeningKey, opening_key};
ghost use Rattle.stream_model.specs.Sealing.{chunk_count, nonce_prefix_of, salt_of, stream};
ghost use Rattle.tink_streaming_io.specs.TextReading.{AtEnd, Gave};
ghost use Rattle.tink_streaming_io.specs.TextReading as reading;
ghost use Rattle.tink_streaming_io.specs.Writing.{ClosedBy, WriterMoment, Wrote};
ghost use Rattle.tink_streaming_aead.specs.DecryptReaders.{GivesFirst};
ghost use Rattle.tink_streaming_keys.specs.Decrypting.{IsNewReader};
ghost use Rattle.tink_streaming_keys.specs.Encrypting.{IsNewStream};
ghost use Rattle.tink_streaming_aead.specs.OneKey.{FirstReadIsOk, ReadsAsAlone, ReadsAsReader};
ghost use Rattle.tink_streaming_aead.specs.Wrapped.{ChoosesInOrder};
ghost use Rattle.tink_streaming_aead.specs.WholeReading.{IsTextOfChosen, IsTextOfStream};

use tink_io::Source;

/// A new writer gets a text, cut into writes in any way, and is closed. It has then written exactly the stream of
/// the text. That is the front under the first draws, and a segment for each chunk, the last one marked. One that
/// is closed before any write has written the stream of the empty text.
pub fn law_whole_stream()
    ensures whole { (k : StreamKey) (aad draws left : List ℕ) (before : Option (List ℕ))
        (seg : ℕ → Bool → List ℕ → List ℕ) (first later : ℕ) (m n o : WriterMoment) (text : List ℕ)
        → IsNewStream k aad draws left before seg first later m → Wrote seg first later m n text → ClosedBy seg n o
        → Appends before o.got (stream k aad (salt_of k draws) (nonce_prefix_of k draws) text) }
    ensures unwritten { (k : StreamKey) (aad draws left : List ℕ) (before : Option (List ℕ))
        (seg : ℕ → Bool → List ℕ → List ℕ) (first later : ℕ) (m o : WriterMoment)
        → IsNewStream k aad draws left before seg first later m → ClosedBy seg m o
        → Appends before o.got (stream k aad (salt_of k draws) (nonce_prefix_of k draws) []) }
{}

/// The first read of a keyset's reader that is Ok chooses the first key under which the stream begins. It gives
/// the prefix of the text of the key's segments behind the front. Later reads go on from there, as
/// `law_whole_text` says.
pub fn law_first_read()
    ensures gave { (keys : List OpeningKey) (all : Option (List ℕ)) (seg : ℕ → Bool → List ℕ → List ℕ)
        (first size overhead : ℕ) (new : reading.TextMoment) (before after : List ℕ) (n : ℕ)
        → (begins : GivesFirst keys all seg first size overhead new before after n)
        → Gave seg first size begins.rest (take n after) new }
{}

/// If the bytes of a source are known, a keyset's reader of it is that of the chosen key. It does not matter
/// which other keys were tried and how large their segments are.
pub fn law_one_key<S: Source>()
    // What the first read says of the keys, it says of the chosen key alone.
    ensures alone { ReadsAsAlone S.left S.faults }

    // It is Ok where the source does not fail.
    ensures opens { FirstReadIsOk S.left S.faults }

    // It is then that of a new reader of the key on what is behind the key's output prefix, which has read a header and
    // no more. Each later read is that of this reader, by `DecryptReader::read`.
    ensures reader { ReadsAsReader }
{}

/// Keys are tried prefix by prefix. The chosen key is still the first in the order of the keyset under which the
/// stream begins. That they have output prefixes is a clause of `new`, and that they are usable one of
/// `new_decrypting_reader`.
#[tactic(auto, using(crate::proofs::WrappedFacts::chooses_in_order))]
pub fn law_keyset_order()
    ensures { ChoosesInOrder }
{}

/// If a key's reader reads up to the end, the whole source was a stream of the key without an output prefix. If a
/// keyset's reader does, it was a stream of the first of the keys under which it begins. What was given is the texts
/// of the stream, joined.
pub fn law_whole_reading()
    ensures key { (k : StreamKey) (aad : List ℕ) (all : Option (List ℕ)) (seg : ℕ → Bool → List ℕ → List ℕ)
        (first size overhead : ℕ) (held given : List ℕ) (m n : reading.TextMoment)
        → IsUsable k → IsNewReader k aad all seg first size overhead held m → Gave seg first size m.rest given n → AtEnd n
        → IsTextOfStream (opening_key aad (fronted [] k)) all given }
    ensures keyset { (keys : List StreamKey) (aad : List ℕ) (all : Option (List ℕ)) (seg : ℕ → Bool → List ℕ → List ℕ)
        (first size overhead : ℕ) (m n : reading.TextMoment) (before after given : List ℕ) (count : ℕ)
        → All IsUsable keys → (begins : GivesFirst (map (opening_key aad) keys) all seg first size overhead m before after
        count)
        → Gave seg first size begins.rest given n → AtEnd n → IsTextOfChosen (map (opening_key aad) keys) all given }
{}

/// A stream that was sealed with a key opens to its text. It is a stream of the key with the chunks of the
/// text, and these joined are the text. A stream has one list of texts, so what was read of a sealed stream
/// up to its end is the text that was sealed. If the stream begins under no key before this one, this one is
/// chosen.
pub fn law_sealed_opens()
    ensures stream { (k : StreamKey) (aad salt prefix keys text : List ℕ) → IsUsable k
        → length salt ≡ k.derived → length prefix ≡ 7
        → keys_of k aad salt ≡ Some keys → chunk_count k text ≤ 2 ^ 32
        → IsStream (opening_key aad k) (stream k aad salt prefix text) (chunks (first_room k) (room k) text) }
    ensures text { (k : StreamKey) (text : List ℕ) → IsUsable k
        → joined (chunks (first_room k) (room k) text) ≡ text }
    ensures one { (k : StreamKey) (aad S : List ℕ) (texts others : List (List ℕ)) → IsUsable k
        → IsStream (opening_key aad k) S texts → IsStream (opening_key aad k) S others
        → others ≡ texts }
    ensures read { (k : StreamKey) (aad salt prefix keys text given : List ℕ) → IsUsable k
        → length salt ≡ k.derived → length prefix ≡ 7
        → keys_of k aad salt ≡ Some keys → chunk_count k text ≤ 2 ^ 32
        → IsTextOfStream (opening_key aad k) (Some (stream k aad salt prefix text)) given → given ≡ text }
    ensures chosen { (k : StreamKey) (aad S : List ℕ) (texts : List (List ℕ))
        (earlier others : List OpeningKey) → IsUsable k → IsStream (opening_key aad k) S texts
        → IsChosen earlier S None
        → IsChosen (earlier ++ opening_key aad k ∷ others) S (Some (opening_key aad k)) }
    ensures read_chosen { (k : StreamKey) (aad salt prefix keys text given : List ℕ)
        (earlier others : List OpeningKey) → IsUsable k → length salt ≡ k.derived → length prefix ≡ 7
        → keys_of k aad salt ≡ Some keys → chunk_count k text ≤ 2 ^ 32
        → IsChosen earlier (stream k aad salt prefix text) None
        → IsTextOfChosen (earlier ++ opening_key aad k ∷ others) (Some (stream k aad salt prefix text)) given
        → given ≡ text }
{}

/// The key that is chosen of all keys of a keyset is the one that is chosen of its candidates alone. A prefix begins
/// with 0 or 1 and a header with 24 or 40, so a key opens streams of its own prefix alone.
pub fn law_candidates()
    ensures { ChoosesCandidate }
{}
