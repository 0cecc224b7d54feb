//! What may be shown of a keyset.

ghost use Rattle.std.specs.Prelude.{◌≡◌, Some, IfOk, IfErr, map, flat_map};
ghost use Rattle.std.specs.Fmt.{DisplaysOnOk};
ghost use Rattle.tink_io.specs.declared.error.Kind.TheVariants.{OutOfMemory};
ghost use Rattle.keyset_model.specs.Secrets as secrets;
ghost use Rattle.tink_keyset_rules.specs.ShownTexts.{info_text, keys_text, further_text, key_text, use_text, last_text, url_text, status_text, prefix_text};
ghost use Rattle.std.specs.Char.{is_ascii};
ghost use Rattle.std.specs.List.{list_all};

use std::alloc::{AllocError, Global};
use std::fmt;
use tink_io::TinkError;
use tink_proto::{Key, KeyInfo, Keyset, KeysetInfo, Repeated, Text};

/// The primary id and, for each key, its status, id, prefix type and URL, which is empty where the key
/// has no data.
///
/// # Errors
/// `OutOfMemory` alone.
pub fn keyset_info(alloc: Global, keyset: &Keyset) -> Result<KeysetInfo, TinkError>
    ensures info { IfOk result (λ i. i ≡ secrets.keyset_info keyset.now) }
    ensures err { IfErr result (λ e. e ≡ record { kind = OutOfMemory }) }
{
    let key_info = key_infos(alloc, keyset.key.as_slice())?;
    Ok(KeysetInfo {
        primary_key_id: keyset.primary_key_id,
        key_info,
    })
}

fn key_infos(alloc: Global, keys: &[Key]) -> Result<Repeated<KeyInfo>, AllocError>
    ensures { IfOk result (λ is. is ≡ map secrets.key_info keys.now) }
{
    let mut infos = Repeated::new(alloc);
    for key in keys {
        let info = key_info(alloc, key)?;
        infos.push(info)?;
    }
    Ok(infos)
}

fn key_info(alloc: Global, key: &Key) -> Result<KeyInfo, AllocError>
    ensures { IfOk result (λ i. i ≡ secrets.key_info key.now) }
{
    let type_url = match &key.key_data {
        Some(data) => data.type_url.try_clone(alloc)?,
        None => Text::new(alloc),
    };
    Ok(KeyInfo {
        type_url,
        status: key.status,
        key_id: key.key_id,
        output_prefix_type: key.output_prefix_type,
    })
}

/// A keyset that prints its keyset info, and so no key material. A URL that is not ASCII is not printed.
#[derive(Drop)]
pub struct Shown<'a>(pub &'a Keyset);

impl fmt::Display for Shown<'_> {
    ghost output = { λ s. Some (info_text (secrets.keyset_info s.0.now)) };

    fn fmt<W: fmt::Write>(&self, f: &mut fmt::Formatter<W>) -> fmt::Result {
        f.write_str("KeysetInfo { primary_key_id: ")?;
        write!(f, "{}", self.0.primary_key_id)?;
        f.write_str(", key_info: [")?;
        write_keys(f, self.0.key.as_slice())?;
        f.write_str("] }")
    }
}

// Writes what may be shown of keys.
fn write_keys<W: fmt::Write>(f: &mut fmt::Formatter<W>, keys: &[Key]) -> fmt::Result
    ensures { DisplaysOnOk W.write_str_gives f.old result
        (Some (keys_text (map secrets.key_info keys.now))) f.new }
{
    match keys.split_first() {
        None => Ok(()),
        Some((first, rest)) => {
            write_key(f, first)?;
            write_further(f, rest)
        }
    }
}

// Writes what may be shown of keys that stand behind another.
fn write_further<W: fmt::Write>(f: &mut fmt::Formatter<W>, keys: &[Key]) -> fmt::Result
    ensures { DisplaysOnOk W.write_str_gives f.old result
        (Some (flat_map (λ k. further_text (secrets.key_info k)) keys.now)) f.new }
{
    for key in keys {
        write_next(f, key)?;
    }
    Ok(())
}

// Writes what may be shown of a key that stands behind another.
fn write_next<W: fmt::Write>(f: &mut fmt::Formatter<W>, key: &Key) -> fmt::Result
    ensures { DisplaysOnOk W.write_str_gives f.old result (Some (further_text (secrets.key_info key.now))) f.new }
{
    f.write_str(", ")?;
    write_key(f, key)
}

// Writes what may be shown of a key.
fn write_key<W: fmt::Write>(f: &mut fmt::Formatter<W>, key: &Key) -> fmt::Result
    ensures { DisplaysOnOk W.write_str_gives f.old result (Some (key_text (secrets.key_info key.now))) f.new }
{
    f.write_str("KeyInfo { type_url: ")?;
    write_url(f, url_of(key))?;
    write_use(f, key)
}

// The URL of a key, empty where it has no data.
fn url_of(key: &Key) -> &str
    ensures { result.now ≡ secrets.url_of key.now.key_data }
{
    match &key.key_data {
        Some(data) => data.type_url.as_str(),
        None => "",
    }
}

// Writes a URL in quotes.
fn write_url<W: fmt::Write>(f: &mut fmt::Formatter<W>, url: &str) -> fmt::Result
    ensures { DisplaysOnOk W.write_str_gives f.old result (Some (url_text url.now)) f.new }
{
    if is_ascii(url) {
        write!(f, "{url:?}")
    } else {
        f.write_str("(not ASCII)")
    }
}

fn is_ascii(url: &str) -> bool
    ensures { result ≡ list_all is_ascii url.now }
{
    url.as_bytes().iter().all(|byte| *byte < 128)
}

// Writes the status of a key, and what stands behind it.
fn write_use<W: fmt::Write>(f: &mut fmt::Formatter<W>, key: &Key) -> fmt::Result
    ensures { DisplaysOnOk W.write_str_gives f.old result (Some (use_text (secrets.key_info key.now))) f.new }
{
    f.write_str(", status: ")?;
    write_status(f, key.status)?;
    f.write_str(", key_id: ")?;
    write!(f, "{}", key.key_id)?;
    write_last(f, key)
}

// Writes the prefix type of a key, and what stands behind it.
fn write_last<W: fmt::Write>(f: &mut fmt::Formatter<W>, key: &Key) -> fmt::Result
    ensures { DisplaysOnOk W.write_str_gives f.old result (Some (last_text (secrets.key_info key.now))) f.new }
{
    f.write_str(", output_prefix_type: ")?;
    write_prefix(f, key.output_prefix_type)?;
    f.write_str(" }")
}

// Writes the name of a status, or its number.
fn write_status<W: fmt::Write>(f: &mut fmt::Formatter<W>, number: i32) -> fmt::Result
    ensures { DisplaysOnOk W.write_str_gives f.old result (Some (status_text number)) f.new }
{
    match number {
        0 => f.write_str("UnknownStatus"),
        1 => f.write_str("Enabled"),
        2 => f.write_str("Disabled"),
        3 => f.write_str("Destroyed"),
        _ => write!(f, "{number}"),
    }
}

// Writes the name of a prefix type, or its number.
fn write_prefix<W: fmt::Write>(f: &mut fmt::Formatter<W>, number: i32) -> fmt::Result
    ensures { DisplaysOnOk W.write_str_gives f.old result (Some (prefix_text number)) f.new }
{
    match number {
        0 => f.write_str("UnknownPrefix"),
        1 => f.write_str("Tink"),
        2 => f.write_str("Legacy"),
        3 => f.write_str("Raw"),
        4 => f.write_str("Crunchy"),
        _ => write!(f, "{number}"),
    }
}
