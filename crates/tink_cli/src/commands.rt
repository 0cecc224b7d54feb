//! What the words of a command line ask for.

ghost use Rattle.std.specs.Prelude.{◌≡◌, ◌≤◌, Some, true, false, IfErr, OnErr, OnOk};
ghost use Rattle.tink_cli.specs.Claims.{EndedOverStreams, is_of_streams};
ghost use Rattle.tink_cli.specs.Lines.{HasCauseBy, IsDoneBy, IsDoneLine, IsWrong, LeavesLine, LeavesOutputBy};
ghost use Rattle.tink_cli_jobs.specs.Outputs.{KeepsFiles};
ghost use Rattle.tink_system.specs.States.{KeepsSystem};
ghost use Rattle.tink_system.specs.Statuses.{trouble_status};
ghost use Rattle.tink_cli_words.specs.Forms.{given};
ghost use Rattle.tink_cli_words.specs.Words.{byte_words};

use crate::claims::is_of_streams;
use crate::explaining::explain;
use crate::over_streams::run_claimed;
use crate::showing;
use crate::telling::tell_wrong;
use std::alloc::Global;
use tink_cli_keys::{keys, wrapping};
use tink_cli_ranges::{informing, ranges};
use tink_cli_streams::{checking, streams};
use tink_cli_words::{Action, Given, parse};
use tink_io::Sink;
use tink_system::trouble::tell;
use tink_system::{System, Trouble};

/// Does what the words say, over a system, standard output and standard error, and answers the status.
///
/// If the words are those of the program over the standard streams, it is that program. If they spell no command, the status is
/// 2. If a command over files ends by 0, exactly what it means was done to the files that the words name. It used the
/// keys, the associated data and the ids that the words name, and the next random bytes of the system. If it ends by
/// another status, every file is as it was.
pub fn run<Y: System, K: Sink, E: Sink>(
    alloc: Global,
    system: &mut Y,
    words: &[Vec<u8>],
    sink: &mut K,
    faults: &mut E,
) -> u8
    ensures streams { is_of_streams (byte_words words.now) ≡ true → EndedOverStreams (byte_words words.now)
        (Y.state system.old) (Y.faults system.old) (Y.faults system.new) (K.got sink.old) (K.got sink.new) result }
    ensures still { is_of_streams (byte_words words.now) ≡ true → Y.state system.new ≡ Y.state system.old }
    ensures unknown { is_of_streams (byte_words words.now) ≡ false → IsWrong (given (byte_words words.now)) → result ≡ 2 }
    ensures done { is_of_streams (byte_words words.now) ≡ false → result ≡ 0 → (Y.state system.old).is_known ≡ true
        → IsDoneLine (given (byte_words words.now)) (Y.state system.old) (Y.state system.new) (K.got sink.old) (K.got sink.new) }
    ensures broken { is_of_streams (byte_words words.now) ≡ false → (result ≡ 0 → ⊥) → (Y.state system.old).is_known ≡ true
        → LeavesLine (given (byte_words words.now)) (Y.state system.old) (Y.faults system.old) (Y.faults system.new)
        (K.faults sink.old) (K.faults sink.new) (K.got sink.old) (K.got sink.new) result }
    ensures kept { (result ≡ 0 → ⊥) → (Y.state system.old).is_known ≡ true → KeepsFiles (Y.state system.old) (Y.state system.new) }
    ensures quiet { result ≡ 0 → faults.new ≡ faults.old }
    ensures system { KeepsSystem (Y.state system.old) (Y.state system.new) }
    ensures sink { K.same sink.old sink.new }
    ensures faults { E.same faults.old faults.new }
{
    if is_of_streams(words) {
        return run_claimed(alloc, system, words, sink, faults);
    }
    match parse(words) {
        Ok(given) => match command(alloc, system, &given, sink) {
            Ok(()) => 0,
            Err(trouble) => {
                let trouble = explain(alloc, system, given.action, trouble);
                refusal(tell(faults, trouble))
            }
        },
        Err(wrong) => tell_wrong(system, faults, wrong),
    }
}

// The status of a command that did not succeed: it is never 0.
fn refusal(status: u8) -> u8
    ensures never { result ≡ 0 → ⊥ }
    ensures same { (status ≡ 0 → ⊥) → result ≡ status }
{
    if status == 0 {
        return 1;
    }
    status
}

// Does a command over files.
fn command<'w, Y: System, K: Sink>(
    alloc: Global,
    system: &mut Y,
    given: &Given<'w>,
    sink: &mut K,
) -> Result<(), Trouble<'w>>
    ensures done { OnOk result ((Y.state system.old).is_known ≡ true → IsDoneBy given.now
        (Y.state system.old) (Y.state system.new) (K.got sink.old) (K.got sink.new)) }
    ensures broken { IfErr result (λ t. (Y.state system.old).is_known ≡ true → LeavesOutputBy given.now
        (Y.state system.old) (K.got sink.old) (K.got sink.new) (trouble_status t)) }
    ensures refused { IfErr result (λ t. (Y.state system.old).is_known ≡ true → HasCauseBy given.now
        (Y.state system.old) (Y.faults system.old) (Y.faults system.new) (K.faults sink.old) (K.faults sink.new) (trouble_status t)) }
    ensures kept { OnErr result ((Y.state system.old).is_known ≡ true → KeepsFiles (Y.state system.old) (Y.state system.new)) }
    ensures system { KeepsSystem (Y.state system.old) (Y.state system.new) }
    ensures later { Y.faults system.old ≤ Y.faults system.new }
    ensures sink { K.same sink.old sink.new }
{
    let line = &given.line;
    if line.asks_help() {
        return showing::help(Some(given.action), sink);
    }
    match given.action {
        Action::New => keys::make(alloc, system, line, sink),
        Action::Keys => keys::show(alloc, system, line, sink),
        Action::Templates => showing::templates(alloc, sink),
        Action::Rotate | Action::Add => keys::grow(alloc, system, given.action, line),
        Action::Convert => keys::convert(alloc, system, line, sink),
        Action::Encrypt | Action::Decrypt | Action::Sign | Action::Verify => {
            streams::make(alloc, system, given.action, line, sink)
        }
        Action::Check => checking::check(alloc, system, line),
        Action::Info => informing::info(alloc, system, line, sink),
        Action::Rewrap => streams::rewrap(alloc, system, line, sink),
        Action::Range => ranges::range(alloc, system, line, sink),
        Action::Wrap => wrapping::wrap(alloc, system, line, sink),
        Action::Unwrap => wrapping::unwrap(alloc, system, line, sink),
        Action::Help => showing::help(line.topic(), sink),
        Action::Version => showing::version(sink),
        action => keys::edit(alloc, system, action, line),
    }
}
