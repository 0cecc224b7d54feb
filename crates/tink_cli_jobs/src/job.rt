//! What the words of a command over a stream or a token say.

ghost use Rattle.std.specs.Prelude.{◌≡◌, option_map};
ghost use Rattle.tink_cli_jobs.specs.Jobs.{IsJobOf, IsKeyWords, data_of};
ghost use Rattle.tink_cli_jobs.specs.Loading.{named};
ghost use Rattle.tink_system.specs.Statuses.{refusal_status, trouble_status};

use crate::keys::KeyWords;
use tink_cli_words::Line;
use tink_io::Kind;
use tink_system::Trouble;

/// The random bytes that are enough for each command.
pub const DRAWN: usize = 1024;

/// The keys, the associated data, and the names of the files that are read and written.
#[derive(Clone, Copy)]
pub struct Job<'w> {
    pub keys: KeyWords<'w>,
    pub aad: &'w [u8],
    /// The keyset of a new stream, and its associated data.
    pub new_keys: Option<KeyWords<'w>>,
    pub new_aad: &'w [u8],
    /// The file that is read, and none for standard input.
    pub input: Option<&'w [u8]>,
    /// The file that is written, and none for standard output.
    pub output: Option<&'w [u8]>,
    pub is_quiet: bool,
    pub is_forced: bool,
    pub keeps_output: bool,
}

/// What the words of a command say; none exactly without a file of keys.
pub fn job_of<'w>(line: &Line<'w>) -> Option<Job<'w>>
    ensures { IsJobOf line.now result }
{
    let Some(keys) = line.keys() else {
        return None;
    };
    Some(Job {
        keys: key_words(line, keys),
        aad: data_of(line.aad()),
        new_keys: match line.to() {
            Some(to) => Some(key_words(line, to)),
            None => None,
        },
        new_aad: data_of(line.to_aad()),
        input: name_of_file(line.first()),
        output: name_of_file(line.output()),
        is_quiet: line.is_quiet(),
        is_forced: line.is_forced(),
        keeps_output: line.is_no_clobber(),
    })
}

/// The words of a file of keys, under the master of a line.
pub fn key_words<'w>(line: &Line<'w>, keys: &'w [u8]) -> KeyWords<'w>
    ensures { IsKeyWords line.now keys.now result }
{
    KeyWords {
        keys,
        master: line.master(),
        master_aad: data_of(line.master_aad()),
    }
}

/// The associated data that a word gives, and else none.
pub fn data_of(word: Option<&[u8]>) -> &[u8]
    ensures { result.now ≡ data_of (option_map (λ s. s.now) word.entry) }
{
    match word {
        Some(word) => word,
        None => &[],
    }
}

/// A name of a file; a dash is none.
pub fn name_of_file(name: Option<&[u8]>) -> Option<&[u8]>
    ensures { option_map (λ s. s.now) result ≡ named (option_map (λ s. s.now) name.entry) }
{
    match name {
        Some(name) if name != b"-".as_slice() => Some(name),
        _ => None,
    }
}

impl<'w> Job<'w> {
    /// The new file of keys, if the words name one.
    pub fn new_file(&self) -> Option<&'w [u8]>
        ensures { option_map (λ n. n.now) result ≡ option_map (λ w. w.keys.now) self.now.new_keys }
    {
        match self.new_keys {
            Some(words) => Some(words.keys),
            None => None,
        }
    }

    /// How messages call the input.
    pub fn input_name(&self) -> &'w [u8] {
        match self.input {
            Some(name) => name,
            None => b"standard input",
        }
    }

    /// How messages call the output.
    pub fn output_name(&self) -> &'w [u8] {
        match self.output {
            Some(name) => name,
            None => b"standard output",
        }
    }
}

impl<'w> Job<'w> {
    /// An error that is no fault of the system, and the file that it is of.
    pub fn trouble_of_kind(&self, kind: Kind) -> Trouble<'w>
        ensures { trouble_status result ≡ refusal_status kind }
    {
        match kind {
            Kind::NoMatchingKey => Trouble::NoMatch(self.input_name(), self.keys.keys),
            Kind::ReadFault
            | Kind::BadSegment(_)
            | Kind::Truncated(_)
            | Kind::TooManySegments
            | Kind::InputTooLong
            | Kind::BadToken
            | Kind::MacMismatch => Trouble::Refused(self.input_name(), kind),
            Kind::WriteFault => Trouble::Refused(self.output_name(), kind),
            _ => Trouble::Refused(self.keys.keys, kind),
        }
    }
}
