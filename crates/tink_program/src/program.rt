//! All that the program does, over any source and any sinks.

ghost use Rattle.std.specs.Prelude.{◌≡◌};
ghost use Rattle.tink_program_core.specs.Program.{KeepsEnds, LeavesSource, OutcomeMeans, ProgramMeans, Promised, StatusMeans, outside, status_of};
ghost use Rattle.tink_cli_words.specs.Forms.{words_of};

use std::alloc::Global;
use tink_io::{Sink, Source};
use tink_program_core::{parse, run_parsed};
pub use tink_program_core::{Outcome, status, tell};

/// Does what the words say, from `source` to `sink`, and answers the status:
///
/// - 0: it was done, and `messages` is as it was.
/// - 2: the words are none of `seal KEYSET AAD SEED`, `open KEYSET AAD`, `keygen TEMPLATE SEED`,
///   `rotate KEYSET TEMPLATE SEED`, `large N`, `range KEYSET AAD START LEN`,
///   `rewrap KEYSET AAD KEYSET AAD SEED`, `sign KEYSET` and `verify KEYSET`; the usage line is written.
/// - 10 to 28: it was refused; the line of the refusal's kind is written.
///
/// - KEYSET and AAD are hexadecimal, in either case and at least two digits, or `-` for no bytes.
/// - TEMPLATE is any word.
/// - SEED is 64 hexadecimal digits, and draws are the first 256 words of its ChaCha20 stream.
/// - N is a decimal number below 1,000,000.
/// - START and LEN are decimal numbers below 2^64, without a leading zero unless it is 0.
///
/// `keygen` writes the line of a keyset of one new key by the template of that name. `rotate` writes the line
/// of KEYSET with a new key as its primary one. `large` writes the four lines of the large text of N under
/// the draws of the seed of zeros. These three leave the source as it is. `range` writes the bytes of the
/// text from place START on and below START + LEN. The stream is the source's, of at most 16,777,216 bytes,
/// and its last chunk and those that the range touches were opened before. `rewrap` moves the stream that the
/// source has from the first keyset to the second. `sign` writes the token of the source's bytes, at most
/// 16,777,216 of them, and `verify` the payload of the token that the source has. If `messages` fails, a prefix
/// of the line is written, and the status is the same.
pub fn program<S: Source, K: Sink, E: Sink>(
    alloc: Global,
    words: &Vec<String>,
    source: &mut S,
    sink: &mut K,
    messages: &mut E,
) -> u8
    // The status is that of an outcome, which says why it came and what stands after it.
    ensures means { ProgramMeans (words_of words.now)
        (outside S.Source K.Sink source.old sink.old)
        (outside S.Source K.Sink source.new sink.new)
        (E.got messages.old) (E.got messages.new) (E.faults messages.old) (E.faults messages.new) result }

    // When status 2 comes, which statuses a command has, what a keyset gets that does not load or is not made
    // and why, and what stands after a status of 10, 11 or 12.
    ensures status { StatusMeans (words_of words.now)
        (outside S.Source K.Sink source.old sink.old)
        (outside S.Source K.Sink source.new sink.new) result }

    // The ends themselves: a status of 2, 13 to 19, 24 or 25 leaves both as they were, and one of 10, 21 or
    // 26 to 28 the sink, of a command that reads all before it writes one of 11 too, and of a range one of 20
    // or 23; one of 10 the source too, unless the command reads first.
    ensures early { KeepsEnds (words_of words.now) result source.old source.new sink.old sink.new }

    // A command that makes a keyset, or measures a large text, leaves the source itself as it was.
    ensures kept { LeavesSource (words_of words.now) source.old source.new }

    // What a status promises of the command that the words ask for: what was written by 0, and by others,
    // over told bytes or not; when the command succeeds.
    ensures promised { Promised (words_of words.now)
        (outside S.Source K.Sink source.old sink.old)
        (outside S.Source K.Sink source.new sink.new) result }

    // A status of 0 leaves the sink of messages itself as it was.
    ensures quiet { result ≡ 0 → messages.new ≡ messages.old }

    // Whatever the status, what calls keep of the source and of both sinks is kept.
    ensures same { S.same source.old source.new × K.same sink.old sink.new × E.same messages.old messages.new }
{
    let outcome = command(alloc, words, source, sink);
    tell(messages, outcome);
    status(outcome)
}

// Does what the words say.
fn command<S: Source, K: Sink>(
    alloc: Global,
    words: &Vec<String>,
    source: &mut S,
    sink: &mut K,
) -> Outcome
    ensures means { OutcomeMeans (words_of words.now)
        (outside S.Source K.Sink source.old sink.old)
        (outside S.Source K.Sink source.new sink.new)
        result }
    ensures early { KeepsEnds (words_of words.now) (status_of result) source.old source.new sink.old sink.new }
    ensures kept { LeavesSource (words_of words.now) source.old source.new }
    ensures promised { Promised (words_of words.now)
        (outside S.Source K.Sink source.old sink.old)
        (outside S.Source K.Sink source.new sink.new)
        (status_of result) }
    ensures source { S.same source.old source.new }
    ensures sink { K.same sink.old sink.new }
{
    match parse(alloc, words) {
        Err(e) => Outcome::Refused(e.kind),
        Ok(None) => Outcome::Usage,
        Ok(Some(spelled)) => {
            let seed = spelled.1;
            run_parsed(alloc, spelled.0, seed, source, sink)
        }
    }
}
