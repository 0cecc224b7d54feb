//! The commands on files of keys.

ghost use Rattle.std.specs.Prelude.{◌≡◌, ◌≤◌, ℕ, List, [], Some, None, true, IfErr, IfOk, OnErr, OnOk};
ghost use Rattle.tink_io.specs.Faults.{Rose};
ghost use Rattle.tink_io.specs.Answering.{Answers};
ghost use Rattle.tink_cli_keys.specs.KeyFiles.{AreListed, IsChanged, IsConverted, IsEdited, IsGrown, IsNew, changed_file, listed_as, listed_file};
ghost use Rattle.tink_cli_keys.specs.Refusing.{HasConvertCause, HasEditCause, HasGrowCause, HasListCause, HasNewCause, IsCaused, IsMissing, LeavesOut, LeavesOutAs, converted_by, listed_by, made_of_file, new_by};
ghost use Rattle.tink_cli_keys.specs.Saving.{IsAppended};
ghost use Rattle.tink_cli_jobs.specs.Loading.{Fails, Gives, named, whole_of};
ghost use Rattle.tink_cli_jobs.specs.Outputs.{KeepsFiles};
ghost use Rattle.tink_system.specs.States.{HasContent, KeepsSystem};
ghost use Rattle.tink_system.specs.Statuses.{trouble_status};

use crate::saving::{give_up, readable, save_in, save_new};
use crate::words::{edit_of, format_of, growth_of, prefix_of};
use std::alloc::Global;
use tink_cli_files::{added_file, converted_file, new_file, rotated_file};
use tink_cli_jobs::keys::{LIMIT, read_keys};
use tink_cli_jobs::{DRAWN, put};
use tink_cli_words::{Action, Line};
use tink_io::{Draws, Kind, Sink, TinkError};
use tink_keyset_io::key_files::{Edit, edited_file, list, list_json, wire_bytes};
use tink_proto::Bytes;
use tink_system::{How, System, Trouble};

/// `new TEMPLATE -o KEYS`: a file of one new key.
///
/// # Errors
/// 24 if no template has the name. 35 if the system gives no random bytes. 12 if a file has the name, or it cannot be
/// written. 13 if no file of keys may be so long. 10. No file is changed then.
pub fn make<'w, Y: System, K: Sink>(
    alloc: Global,
    system: &mut Y,
    line: &Line<'w>,
    sink: &mut K,
) -> Result<(), Trouble<'w>>
    ensures done { OnOk result ((Y.state system.old).is_known ≡ true → IsNew line.now
        (Y.state system.old) (Y.state system.new) (K.got sink.old) (K.got sink.new)) }
    ensures refused { IfErr result (λ t. (Y.state system.old).is_known ≡ true → HasNewCause line.now (Y.state system.old)
        (Y.faults system.old) (Y.faults system.new) (K.faults sink.old) (K.faults sink.new) (trouble_status t)) }
    ensures left { OnErr result ((Y.state system.old).is_known ≡ true → LeavesOutAs (new_by line.now (Y.state system.old)) (named line.now.output)
        (K.got sink.old) (K.got sink.new)) }
    ensures kept { OnErr result ((Y.state system.old).is_known ≡ true → KeepsFiles (Y.state system.old) (Y.state system.new)) }
    ensures system { KeepsSystem (Y.state system.old) (Y.state system.new) }
    ensures later { Y.faults system.old ≤ Y.faults system.new }
    ensures sink { K.same sink.old sink.new }
{
    let (Some(template), Some(output)) = (line.first(), line.output()) else {
        return Err(Trouble::Usage);
    };
    match system.draws(alloc, DRAWN) {
        Ok(mut draws) => {
            let made = new_file(
                alloc,
                template,
                prefix_of(line),
                format_of(line),
                &mut draws,
            );
            save_new(alloc, system, made, template, output, sink)
        }
        Err(trouble) => Err(trouble),
    }
}

/// `keys KEYS`: a line for each key, or an array of JSON, without key material.
///
/// # Errors
/// 11 if the file cannot be read; 13, 14, 30 if it is no file of keys; 12 if standard output fails; 10.
pub fn show<'w, Y: System, K: Sink>(
    alloc: Global,
    system: &mut Y,
    line: &Line<'w>,
    sink: &mut K,
) -> Result<(), Trouble<'w>>
    ensures done { OnOk result ((Y.state system.old).is_known ≡ true → AreListed line.now
        (Y.state system.old) (K.got sink.old) (K.got sink.new)) }
    ensures refused { IfErr result (λ t. (Y.state system.old).is_known ≡ true → HasListCause line.now (Y.state system.old)
        (Y.faults system.old) (Y.faults system.new) (K.faults sink.old) (K.faults sink.new) (trouble_status t)) }
    ensures left { OnErr result ((Y.state system.old).is_known ≡ true → LeavesOutAs (listed_by line.now (Y.state system.old)) None
        (K.got sink.old) (K.got sink.new)) }
    ensures state { Y.state system.new ≡ Y.state system.old }
    ensures later { Y.faults system.old ≤ Y.faults system.new }
    ensures sink { K.same sink.old sink.new }
{
    let Some(path) = line.first() else {
        return Err(Trouble::Usage);
    };
    match read_keys(alloc, system, path) {
        Ok(file) => put_lines(alloc, path, file, line.is_json(), sink),
        Err(trouble) => Err(trouble),
    }
}

// Writes the lines of a file's keys.
fn put_lines<'w, K: Sink>(
    alloc: Global,
    path: &'w [u8],
    file: Vec<u8>,
    is_json: bool,
    sink: &mut K,
) -> Result<(), Trouble<'w>>
    ensures done { OnOk result ((before : List ℕ) → K.got sink.old ≡ Some before
        → IsAppended (listed_file is_json file.items) before (K.got sink.new)) }
    ensures refused { (before now : ℕ) → IfErr result (λ t. IsCaused before now (Rose (K.faults sink.old) (K.faults sink.new))
        (listed_file is_json file.items) (trouble_status t)) }
    ensures left { OnErr result (LeavesOut (listed_file is_json file.items) None (K.got sink.old) (K.got sink.new)) }
    ensures sink { K.same sink.old sink.new }
{
    match lines_of(alloc, file, is_json) {
        Ok(lines) => put(sink, lines.as_slice()),
        Err(e) => Err(Trouble::Refused(path, e.kind)),
    }
}

// The lines of a file's keys.
fn lines_of(alloc: Global, file: Vec<u8>, is_json: bool) -> Result<Bytes, TinkError>
    ensures { Answers result (listed_file is_json file.items) }
{
    let keyset = wire_bytes(alloc, file)?;
    list_as(alloc, keyset.as_slice(), is_json)
}

// Those of a keyset in the wire format.
fn list_as(alloc: Global, keyset: &[u8], is_json: bool) -> Result<Bytes, TinkError>
    ensures { Answers result (listed_as is_json keyset.now) }
{
    if is_json {
        list_json(alloc, keyset)
    } else {
        list(alloc, keyset)
    }
}

/// `rotate KEYS TEMPLATE` and `add` with the same words: a new key by a template, which encrypts from now on, or is not used
/// yet.
///
/// # Errors
/// - 11, 13, 14 and 30 as `show`;
/// - 13 also if no file of keys may be as long as that with the new key;
/// - 24 if no template has the name;
/// - 18 if a rotation is to keys of another primitive and the words do not force it;
/// - 25 if no unused id is drawn;
/// - 35 if the system gives no random bytes;
/// - 12 if the file cannot be written, or another change of it is at work;
/// - 10.
///
/// No file is changed then.
pub fn grow<'w, Y: System>(
    alloc: Global,
    system: &mut Y,
    action: Action,
    line: &Line<'w>,
) -> Result<(), Trouble<'w>>
    ensures done { OnOk result ((Y.state system.old).is_known ≡ true → IsGrown action line.now (Y.state system.old) (Y.state system.new)) }
    ensures refused { IfErr result (λ t. (Y.state system.old).is_known ≡ true → HasGrowCause action line.now (Y.state system.old)
        (Y.faults system.old) (Y.faults system.new) (trouble_status t)) }
    ensures kept { OnErr result ((Y.state system.old).is_known ≡ true → KeepsFiles (Y.state system.old) (Y.state system.new)) }
    ensures system { KeepsSystem (Y.state system.old) (Y.state system.new) }
    ensures later { Y.faults system.old ≤ Y.faults system.new }
{
    let (Some(path), Some(template)) = (line.first(), line.second()) else {
        return Err(Trouble::Usage);
    };
    let growth = growth_of(action, line.is_any());
    match system.draws(alloc, DRAWN) {
        Ok(draws) => make_change(alloc, system, path, Change::Grow(growth, template, draws)),
        Err(trouble) => Err(trouble),
    }
}

/// `promote KEYS ID`, and the same of `enable`, `disable`, `destroy` and `delete`: the first key of the id is changed.
///
/// # Errors
/// 11, 13, 14 and 30 as `show`. 13 also if no file of keys may be as long as the changed one. 31 if no key has the id. 32 if it is the primary key, which only `promote` and
/// `enable` take. 33 if its status does not allow the change. 12 if the file cannot be written, or another change of
/// it is at work. 10. No file is changed then.
pub fn edit<'w, Y: System>(
    alloc: Global,
    system: &mut Y,
    action: Action,
    line: &Line<'w>,
) -> Result<(), Trouble<'w>>
    ensures done { OnOk result ((Y.state system.old).is_known ≡ true → IsEdited action line.now (Y.state system.old) (Y.state system.new)) }
    ensures refused { IfErr result (λ t. (Y.state system.old).is_known ≡ true → HasEditCause action line.now (Y.state system.old)
        (Y.faults system.old) (Y.faults system.new) (trouble_status t)) }
    ensures kept { OnErr result ((Y.state system.old).is_known ≡ true → KeepsFiles (Y.state system.old) (Y.state system.new)) }
    ensures system { KeepsSystem (Y.state system.old) (Y.state system.new) }
    ensures random { (Y.state system.new).random ≡ (Y.state system.old).random }
    ensures later { Y.faults system.old ≤ Y.faults system.new }
{
    let (Some(path), Some(id), Some(edit)) = (line.first(), line.id(), edit_of(action)) else {
        return Err(Trouble::Usage);
    };
    make_change(alloc, system, path, Change::Edit(edit, id))
}

/// How a command adds a key: beside the primary one, as the primary one among keys of its primitive, or among any.
#[derive(Clone, Copy)]
pub enum Growth {
    Add,
    Rotate,
    RotateToAny,
}

// What becomes of a file of keys.
#[derive(Drop)]
enum Change<'w> {
    Edit(Edit, u32),
    Grow(Growth, &'w [u8], Draws),
}

// Changes a file of keys, of which there is one change at a time.
fn make_change<'w, Y: System>(
    alloc: Global,
    system: &mut Y,
    path: &'w [u8],
    change: Change<'w>,
) -> Result<(), Trouble<'w>>
    ensures done { OnOk result ((Y.state system.old).is_known ≡ true → IsChanged (changed_file change.entry) path.now
        (Y.state system.old) (Y.state system.new)) }
    ensures refused { IfErr result (λ t. (Y.state system.old).is_known ≡ true → IsCaused (Y.faults system.old) (Y.faults system.new)
        (IsMissing (Y.state system.old) (Some path.now)) (made_of_file (changed_file change.entry) (Y.state system.old) (Some path.now))
        (trouble_status t)) }
    ensures kept { OnErr result ((Y.state system.old).is_known ≡ true → KeepsFiles (Y.state system.old) (Y.state system.new)) }
    ensures system { KeepsSystem (Y.state system.old) (Y.state system.new) }
    ensures random { (Y.state system.new).random ≡ (Y.state system.old).random }
    ensures later { Y.faults system.old ≤ Y.faults system.new }
{
    match system.begin(path, How::Change) {
        Ok(draft) => change_in(alloc, system, path, change, draft),
        Err(trouble) => Err(trouble),
    }
}

// The same in a draft that is begun: the file is read behind it.
fn change_in<'w, Y: System>(
    alloc: Global,
    system: &mut Y,
    path: &'w [u8],
    change: Change<'w>,
    draft: Y::Draft,
) -> Result<(), Trouble<'w>>
    requires { Y.Draft.has_draft draft ≡ true }
    ensures done { OnOk result ((Y.state system.old).is_known ≡ true → Y.Draft.got draft ≡ Some []
        → IsChanged (changed_file change.entry) path.now (Y.state system.old) (Y.state system.new)) }
    ensures refused { IfErr result (λ t. (Y.state system.old).is_known ≡ true → Y.Draft.faults draft ≡ 0
        → IsCaused (Y.faults system.old) (Y.faults system.new) (IsMissing (Y.state system.old) (Some path.now))
        (made_of_file (changed_file change.entry) (Y.state system.old) (Some path.now)) (trouble_status t)) }
    ensures kept { OnErr result (Y.Draft.shown draft ≡ Some ((Y.state system.old).file path.now)
        → KeepsFiles (Y.state system.old) (Y.state system.new)) }
    ensures system { KeepsSystem (Y.state system.old) (Y.state system.new) }
    ensures random { (Y.state system.new).random ≡ (Y.state system.old).random }
    ensures later { Y.faults system.old ≤ Y.faults system.new }
{
    match read_file(alloc, system, path) {
        Ok(file) => {
            let template = template_of(&change);
            let made = change_file(alloc, file, change);
            let blamed = name_to_blame(&made, template, path);
            save_in(alloc, system, readable(made), blamed, path, draft)
        }
        Err(trouble) => Err(give_up(alloc, system, path, draft, trouble)),
    }
}

// The whole of a file of keys. A dash is a name too.
fn read_file<'w, Y: System>(
    alloc: Global,
    system: &mut Y,
    path: &'w [u8],
) -> Result<Vec<u8>, Trouble<'w>>
    ensures content { IfOk result (λ file. HasContent (Y.state system.old) (Some path.now) file.items) }
    ensures read { IfOk result (λ file. Gives (Y.state system.old) (whole_of (Y.state system.old) (Some path.now)) file.items) }
    ensures refused { IfErr result (λ t. Fails (Y.state system.old) (Y.faults system.old) (Y.faults system.new)
        (whole_of (Y.state system.old) (Some path.now)) t) }
    ensures state { Y.state system.new ≡ Y.state system.old }
    ensures later { Y.faults system.old ≤ Y.faults system.new }
{
    system.read_whole(alloc, Some(path), LIMIT)
}

// The template of a change, if it has one.
fn template_of<'w>(change: &Change<'w>) -> Option<&'w [u8]> {
    match change {
        Change::Edit(_, _) => None,
        Change::Grow(_, template, _) => Some(*template),
    }
}

// What an error is of: the template if no template has its name, and else the file.
fn name_to_blame<'w>(
    made: &Result<Bytes, TinkError>,
    template: Option<&'w [u8]>,
    path: &'w [u8],
) -> &'w [u8] {
    match (made, template) {
        (Err(e), Some(template)) if e.kind == Kind::UnknownTemplate => template,
        _ => path,
    }
}

// The file with its change.
fn change_file(alloc: Global, file: Vec<u8>, change: Change<'_>) -> Result<Bytes, TinkError>
    ensures { Answers result (changed_file change.entry file.items) }
{
    match change {
        Change::Edit(edit, id) => edited_file(alloc, file, edit, id),
        Change::Grow(Growth::Add, template, mut draws) => added_file(
            alloc, file, template, &mut draws,
        ),
        Change::Grow(Growth::Rotate, template, mut draws) => rotated_file(
            alloc, file, template, false, &mut draws,
        ),
        Change::Grow(Growth::RotateToAny, template, mut draws) => rotated_file(
            alloc, file, template, true, &mut draws,
        ),
    }
}

/// `convert KEYS -o OUT --format NAME`: a new file has the keyset of a file of keys, in this format.
///
/// # Errors
/// 11, 13, 14 and 30 as `show`. 13 also if no file of keys may be so long. 12 if a file has the name, or it cannot be written. 10.
/// No file is changed then.
pub fn convert<'w, Y: System, K: Sink>(
    alloc: Global,
    system: &mut Y,
    line: &Line<'w>,
    sink: &mut K,
) -> Result<(), Trouble<'w>>
    ensures done { OnOk result ((Y.state system.old).is_known ≡ true → IsConverted line.now
        (Y.state system.old) (Y.state system.new) (K.got sink.old) (K.got sink.new)) }
    ensures refused { IfErr result (λ t. (Y.state system.old).is_known ≡ true → HasConvertCause line.now (Y.state system.old)
        (Y.faults system.old) (Y.faults system.new) (K.faults sink.old) (K.faults sink.new) (trouble_status t)) }
    ensures left { OnErr result ((Y.state system.old).is_known ≡ true → LeavesOutAs (converted_by line.now (Y.state system.old)) (named line.now.output)
        (K.got sink.old) (K.got sink.new)) }
    ensures kept { OnErr result ((Y.state system.old).is_known ≡ true → KeepsFiles (Y.state system.old) (Y.state system.new)) }
    ensures system { KeepsSystem (Y.state system.old) (Y.state system.new) }
    ensures random { (Y.state system.new).random ≡ (Y.state system.old).random }
    ensures later { Y.faults system.old ≤ Y.faults system.new }
    ensures sink { K.same sink.old sink.new }
{
    let (Some(path), Some(output)) = (line.first(), line.output()) else {
        return Err(Trouble::Usage);
    };
    match read_keys(alloc, system, path) {
        Ok(file) => {
            let made = converted_file(alloc, file, format_of(line));
            save_new(alloc, system, made, path, output, sink)
        }
        Err(trouble) => Err(trouble),
    }
}
