//! The fault of a file that a command refused.

ghost use Rattle.std.specs.Prelude.{◌≡◌, ◌≤◌};
ghost use Rattle.tink_system.specs.Statuses.{refusal_status, trouble_status};

use std::alloc::Global;
use tink_cli_jobs::keys::LIMIT;
use tink_cli_jobs::name_of_file;
use tink_cli_words::Action;
use tink_io::Kind;
use tink_json::Json;
use tink_keyset_io::key_files::{Format, wire_bytes};
use tink_proto::{EncryptedKeyset, Key, KeyStatusType, Keyset, Message};
use tink_system::trouble::status;
use tink_system::{System, Trouble};

// The first bytes of a text that an editor marked as UTF-8.
const MARK: &[u8] = b"\xef\xbb\xbf";

const EMPTY: &str = "it is empty: give a file that `tink new` made";

const OTHER_USE: &str =
    "its keys have another use than a key of this template: take a template of their use, or force it by --any";

const LONG_TOKEN: &str =
    "input too long: its token has more than 16,777,216 bytes, and `tink verify` reads none so long: sign a shorter file";

/// The same error of a command, with the fault of its file, if a second reading finds one. The faults are a file without
/// bytes, a rule that the keyset breaks, a wrapped file, one that is not wrapped, and a byte-order mark. Standard input gets its
/// name. The status stays.
pub fn explain<'w, Y: System>(
    alloc: Global,
    system: &mut Y,
    action: Action,
    trouble: Trouble<'w>,
) -> Trouble<'w>
    ensures status { trouble_status result ≡ trouble_status trouble.entry }
    ensures state { Y.state system.new ≡ Y.state system.old }
    ensures later { Y.faults system.old ≤ Y.faults system.new }
{
    match trouble {
        Trouble::Refused(name, kind) => explain_refusal(alloc, system, action, name, kind),
        Trouble::NoMatch(name, keys) => Trouble::NoMatch(name, shown_name(keys)),
        _ => trouble,
    }
}

// An error of a file with the fault that is found.
fn explain_refusal<'w, Y: System>(
    alloc: Global,
    system: &mut Y,
    action: Action,
    name: &'w [u8],
    kind: Kind,
) -> Trouble<'w>
    ensures status { trouble_status result ≡ refusal_status kind }
    ensures state { Y.state system.new ≡ Y.state system.old }
    ensures later { Y.faults system.old ≤ Y.faults system.new }
{
    match fault_of(alloc, system, action, name, kind) {
        Some(fault) => Trouble::Unusable(name, fault, status(kind)),
        None if reads_input(action, kind) => Trouble::Refused(shown_name(name), kind),
        None => Trouble::Refused(name, kind),
    }
}

// Whether a dash that is refused so is standard input. It is a file's name if the command changes files of keys, and may be that
// of a template, or standard output for keys that are too long.
fn reads_input(action: Action, kind: Kind) -> bool {
    match action {
        Action::Add
        | Action::Rotate
        | Action::Promote
        | Action::Enable
        | Action::Disable
        | Action::Destroy
        | Action::Delete => false,
        _ => kind != Kind::UnknownTemplate && kind != Kind::KeysetTooLong,
    }
}

// How messages call a file: standard input has the name of a dash.
fn shown_name(name: &[u8]) -> &[u8] {
    if name == b"-".as_slice() {
        return b"standard input";
    }
    name
}

// The fault of a file that a command refused by this kind of error.
fn fault_of<Y: System>(
    alloc: Global,
    system: &mut Y,
    action: Action,
    name: &[u8],
    kind: Kind,
) -> Option<&'static str>
    ensures state { Y.state system.new ≡ Y.state system.old }
    ensures later { Y.faults system.old ≤ Y.faults system.new }
{
    match kind {
        Kind::InvalidKeyset | Kind::BadKeyset => match file_of(alloc, system, name) {
            Some(file) => fault_in(alloc, file),
            None => None,
        },
        Kind::MasterFailed if action != Action::Wrap => match file_of(alloc, system, name) {
            Some(file) => fault_in_wrapped(alloc, &file),
            None => None,
        },
        Kind::WrongPrimitive if action == Action::Rotate => Some(OTHER_USE),
        Kind::InputTooLong if action == Action::Sign => Some(LONG_TOKEN),
        _ => None,
    }
}

// The bytes of a file of keys. A pipe cannot be read once more.
fn file_of<Y: System>(alloc: Global, system: &mut Y, name: &[u8]) -> Option<Vec<u8>>
    ensures state { Y.state system.new ≡ Y.state system.old }
    ensures later { Y.faults system.old ≤ Y.faults system.new }
{
    let Some(name) = name_of_file(Some(name)) else {
        return None;
    };
    if system.is_stream(name) {
        return None;
    }
    match system.read_whole(alloc, Some(name), LIMIT) {
        Ok(file) => Some(file),
        Err(_) => None,
    }
}

// The fault of the bytes of a file that a master refused.
fn fault_in_wrapped(alloc: Global, file: &[u8]) -> Option<&'static str> {
    if file.is_empty() {
        return Some(EMPTY);
    }
    if is_wrapped(alloc, file) {
        return None;
    }
    Some("it is not wrapped: a master opens only files that `tink wrap` made")
}

// The fault of the bytes of a file of keys.
fn fault_in(alloc: Global, file: Vec<u8>) -> Option<&'static str> {
    if file.is_empty() {
        return Some(EMPTY);
    }
    if file.as_slice().starts_with(MARK) {
        return Some("bad keyset: a byte-order mark is in front of it: save it without one");
    }
    if is_wrapped(alloc, &file) {
        return Some(
            "it is a wrapped file of keys: `tink unwrap` opens it, and `--master MASTER` reads it in its place",
        );
    }
    match wire_bytes(alloc, file) {
        Ok(keyset) => match Keyset::decode(alloc, keyset.as_slice()) {
            Ok(keyset) => broken_rule(keyset.primary_key_id, keyset.key.as_slice()),
            Err(_) => None,
        },
        Err(_) => None,
    }
}

// Whether a file holds an encrypted keyset.
fn is_wrapped(alloc: Global, file: &[u8]) -> bool {
    let read = match Format::of_file(file) {
        Format::Binary => EncryptedKeyset::decode(alloc, file),
        Format::Json => EncryptedKeyset::from_json(alloc, file),
    };
    match read {
        Ok(wrapped) => !wrapped.encrypted_keyset.as_slice().is_empty()
            && wrapped.keyset_info.is_some(),
        Err(_) => false,
    }
}

// The first rule of a valid keyset that is broken.
fn broken_rule(primary: u32, keys: &[Key]) -> Option<&'static str> {
    if keys.is_empty() {
        return Some("invalid keyset: it has no key: give a file that `tink new` made");
    }
    'keys: for key in keys {
        let broken = broken_rule_of_key(key);
        if broken.is_some() {
            return broken;
        }
    }
    match (
        keys.iter().any(|key| is_enabled(key)),
        keys.iter()
            .filter(|key| is_enabled(key) && key.key_id == primary)
            .count(),
    ) {
        (false, _) => Some("invalid keyset: none of its keys is enabled: `tink keys` shows them"),
        (true, 0) => Some(
            "invalid keyset: none of its enabled keys is the primary key: `tink keys` shows them",
        ),
        (true, 1) => None,
        (true, _) => Some(
            "invalid keyset: two of its enabled keys have the id of the primary key: `tink keys` shows them",
        ),
    }
}

fn is_enabled(key: &Key) -> bool {
    key.status == KeyStatusType::Enabled as i32
}

// The first rule of a key that is broken.
fn broken_rule_of_key(key: &Key) -> Option<&'static str> {
    if key.key_data.is_none() && key.status != KeyStatusType::Destroyed as i32 {
        return Some("invalid keyset: a key has no data, and is not destroyed");
    }
    if key.key_id == 0 {
        return Some("invalid keyset: a key has the id 0, which none may have");
    }
    if key.output_prefix_type < 1 || key.output_prefix_type > 4 {
        return Some("invalid keyset: a key has no output prefix type that is known");
    }
    if key.status < 1 || key.status > 3 {
        return Some("invalid keyset: a key is neither enabled nor disabled nor destroyed");
    }
    None
}
