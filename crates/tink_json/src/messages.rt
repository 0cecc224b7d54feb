//! The messages that are read from JSON and written in it.

ghost use Rattle.std.specs.Prelude.{◌≡◌, List, ℕ, IfOk, IfErr, OnOk, codes, false};
ghost use Rattle.std.specs.declared.option.Option.{Option};
ghost use Rattle.serde_json.specs.Data.{Data, no_members, number, object, unsigned, put as with_member};
ghost use Rattle.serde_json.specs.View.{members_view, view};
ghost use Rattle.serde_json.specs.Written.{has_float as holds_float};
ghost use Rattle.tink_json.specs.Messages.{message_of, use_of, value_of as value_of_text};
ghost use Rattle.tink_json.specs.Refusal.{IsRefusal};
ghost use Rattle.tink_json.specs.Written.{enum_value, pretty_text, put_if};
ghost use Rattle.tink_json.specs.Names.{prefixes, statuses};
ghost use Rattle.tink_proto.specs.Outcome.{Reads, ReadsAs};
ghost use Rattle.tink_proto.specs.declared.error.ProtoError.TheVariants.{BadJson, OutOfMemory};

use crate::fields::{bytes_in, enum_in, list_in, message_in, number_in, require_object, text_in};
use crate::values::{Members, put_bytes, put_enum, put_list, put_text};
use crate::whole::has_whole_numbers;
use serde_json::{Error, Map, Value, put};
use std::alloc::{AllocError, Global};
use tink_proto::{
    EncryptedKeyset, Key, KeyData, KeyInfo, KeyMaterialType, KeyStatusType, Keyset, KeysetInfo,
    OutputPrefixType, ProtoError, Text,
};

/// A message in JSON.
///
/// `from_value` and `put_members` are written for each message; the others follow.
pub trait Json: Drop {
    // The message that a value is.
    ghost form: { Data → Option Self };

    // The value that a message is written as.
    ghost value: { Self → Data };

    /// The message that a value is.
    ///
    /// # Errors
    /// `BadJson` exactly where it is none, and `OutOfMemory`.
    fn from_value(alloc: Global, json: &Value) -> Result<Self, ProtoError>
        ensures { Reads BadJson result (form (view json.now)) };

    /// Writes the members of the message, those of defaults too; a message that is absent is left out.
    ///
    /// # Errors
    /// `AllocError` if there is no memory.
    fn put_members(&self, members: &mut Members, alloc: Global) -> Result<(), AllocError>
        ensures { OnOk result (members_view members.old.entries ≡ no_members
            → object (members_view members.new.entries) ≡ value self.now) };

    // Its numbers are whole.
    ghost plain: { (m : Self) → holds_float (value m) ≡ false };

    /// The value of the message, an object of its members.
    ///
    /// # Errors
    /// `AllocError` if there is no memory.
    final fn to_value(&self, alloc: Global) -> Result<Value, AllocError>
        ensures { IfOk result (λ v. view v ≡ value self.now) }
    {
        let mut members = Map::new(alloc);
        self.put_members(&mut members, alloc)?;
        Ok(Value::Object(members))
    }

    /// The message of a text, which is one value.
    ///
    /// # Errors
    /// `OutOfMemory`, or `BadJson` exactly if one of these holds:
    /// - the text is not UTF-8;
    /// - it is not one value of JSON that nests no deeper than 127;
    /// - a number in it is no whole number of 64 bits;
    /// - the value is not the message.
    final fn from_json(alloc: Global, text: &[u8]) -> Result<Self, ProtoError>
        ensures exact { Reads BadJson result (message_of form text.now) }
    {
        from_text(alloc, text)
    }

    /// The pretty text of the message's value.
    ///
    /// # Errors
    /// `OutOfMemory` alone.
    final fn to_json(&self, alloc: Global) -> Result<Text, ProtoError>
        ensures text { IfOk result (λ text. text ≡ pretty_text (value self.now)) }
        ensures err { IfErr result (λ e. e ≡ OutOfMemory) }
    {
        let value = self.to_value(alloc)?;
        Ok(Text::from_string(value.to_string_pretty(alloc)?))
    }
}

// The value of a text.
fn value_of(alloc: Global, text: &[u8]) -> Result<Value, ProtoError>
    ensures { ReadsAs BadJson view result (value_of_text text.now) }
{
    match Value::from_slice(alloc, text) {
        Ok(value) => Ok(value),
        Err(e) => Err(refusal(&e)),
    }
}

// Why a text is no value.
fn refusal(error: &Error) -> ProtoError
    ensures { IsRefusal error.now result }
{
    if error.is_memory() {
        ProtoError::OutOfMemory
    } else {
        ProtoError::BadJson
    }
}

fn from_text<M: Json>(alloc: Global, text: &[u8]) -> Result<M, ProtoError>
    ensures { Reads BadJson result (message_of M.form text.now) }
{
    if !has_whole_numbers(alloc, text)? {
        return Err(ProtoError::BadJson);
    }
    let value = value_of(alloc, text)?;
    M::from_value(alloc, &value)
}

// One more member, where the message is there.
fn put_maybe<M: Json>(
    members: &mut Members,
    alloc: Global,
    name: &str,
    message: &Option<M>,
) -> Result<(), AllocError>
    ensures { OnOk result (members_view members.new.entries
        ≡ put_if name.now M.value message.now (members_view members.old.entries)) }
{
    match message {
        Some(message) => put(members, alloc, name, message.to_value(alloc)?),
        None => Ok(()),
    }
}

// Of which use a key is: its status, id and prefix type.
#[tactic(auto, unfolding(crate::specs::Messages::use_of))]
fn use_in(json: &Value) -> Result<(i32, (u32, i32)), ProtoError>
    ensures { Reads BadJson result (use_of (view json.now)) }
{
    let status = enum_in::<KeyStatusType>(json, "status", "status")?;
    let key_id = number_in(json, "keyId", "key_id")?;
    let prefix_type = enum_in::<OutputPrefixType>(json, "outputPrefixType", "output_prefix_type")?;
    Ok((status, (key_id, prefix_type)))
}

// The members that say of which use a key is.
fn put_use(
    members: &mut Members,
    alloc: Global,
    status: i32,
    key_id: u32,
    prefix_type: i32,
) -> Result<(), AllocError>
    ensures { OnOk result (members_view members.new.entries
        ≡ with_member (codes "outputPrefixType") (enum_value prefixes prefix_type)
        (with_member (codes "keyId") (number (unsigned key_id))
        (with_member (codes "status") (enum_value statuses status) (members_view members.old.entries)))) }
{
    put_enum::<KeyStatusType>(members, alloc, "status", status)?;
    put(members, alloc, "keyId", Value::from(key_id))?;
    put_enum::<OutputPrefixType>(members, alloc, "outputPrefixType", prefix_type)
}

impl Json for KeyData {
    ghost use Rattle.tink_json.specs.Messages.{key_data};
    ghost use Rattle.tink_json.specs.Written.{key_data_value};
    ghost use Rattle.tink_json.specs.Plain.{key_data-plain};

    ghost form = { key_data };

    ghost value = { key_data_value };

    ghost plain = { key_data-plain };

    fn from_value(alloc: Global, json: &Value) -> Result<KeyData, ProtoError> {
        require_object(json)?;
        let type_url = text_in(alloc, json, "typeUrl", "type_url")?;
        let value = bytes_in(alloc, json, "value", "value")?;
        let key_material_type = enum_in::<KeyMaterialType>(
            json,
            "keyMaterialType",
            "key_material_type",
        )?;
        Ok(KeyData {
            type_url,
            value,
            key_material_type,
        })
    }

    fn put_members(&self, members: &mut Members, alloc: Global) -> Result<(), AllocError> {
        put_text(members, alloc, "typeUrl", &self.type_url)?;
        put_bytes(members, alloc, "value", &self.value)?;
        put_enum::<KeyMaterialType>(members, alloc, "keyMaterialType", self.key_material_type)
    }
}

impl Json for Key {
    ghost use Rattle.tink_json.specs.Messages.{key};
    ghost use Rattle.tink_json.specs.Written.{key_value};
    ghost use Rattle.tink_json.specs.Plain.{key-plain};

    ghost form = { key };

    ghost value = { key_value };

    ghost plain = { key-plain };

    fn from_value(alloc: Global, json: &Value) -> Result<Key, ProtoError> {
        require_object(json)?;
        let key_data = message_in(alloc, json, "keyData", "key_data")?;
        let (status, (key_id, output_prefix_type)) = use_in(json)?;
        Ok(Key {
            key_data,
            status,
            key_id,
            output_prefix_type,
        })
    }

    fn put_members(&self, members: &mut Members, alloc: Global) -> Result<(), AllocError> {
        put_maybe(members, alloc, "keyData", &self.key_data)?;
        put_use(
            members,
            alloc,
            self.status,
            self.key_id,
            self.output_prefix_type,
        )
    }
}

impl Json for Keyset {
    ghost use Rattle.tink_json.specs.Messages.{keyset};
    ghost use Rattle.tink_json.specs.Written.{keyset_value};
    ghost use Rattle.tink_json.specs.Plain.{keyset-plain};

    ghost form = { keyset };

    ghost value = { keyset_value };

    ghost plain = { keyset-plain };

    fn from_value(alloc: Global, json: &Value) -> Result<Keyset, ProtoError> {
        require_object(json)?;
        let primary_key_id = number_in(json, "primaryKeyId", "primary_key_id")?;
        let key = list_in(alloc, json, "key", "key")?;
        Ok(Keyset {
            primary_key_id,
            key,
        })
    }

    fn put_members(&self, members: &mut Members, alloc: Global) -> Result<(), AllocError> {
        put(
            members,
            alloc,
            "primaryKeyId",
            Value::from(self.primary_key_id),
        )?;
        put_list(members, alloc, "key", &self.key)
    }
}

impl Json for KeyInfo {
    ghost use Rattle.tink_json.specs.Messages.{key_info};
    ghost use Rattle.tink_json.specs.Written.{key_info_value};
    ghost use Rattle.tink_json.specs.Plain.{key_info-plain};

    ghost form = { key_info };

    ghost value = { key_info_value };

    ghost plain = { key_info-plain };

    fn from_value(alloc: Global, json: &Value) -> Result<KeyInfo, ProtoError> {
        require_object(json)?;
        let type_url = text_in(alloc, json, "typeUrl", "type_url")?;
        let (status, (key_id, output_prefix_type)) = use_in(json)?;
        Ok(KeyInfo {
            type_url,
            status,
            key_id,
            output_prefix_type,
        })
    }

    fn put_members(&self, members: &mut Members, alloc: Global) -> Result<(), AllocError> {
        put_text(members, alloc, "typeUrl", &self.type_url)?;
        put_use(
            members,
            alloc,
            self.status,
            self.key_id,
            self.output_prefix_type,
        )
    }
}

impl Json for KeysetInfo {
    ghost use Rattle.tink_json.specs.Messages.{keyset_info};
    ghost use Rattle.tink_json.specs.Written.{keyset_info_value};
    ghost use Rattle.tink_json.specs.Plain.{keyset_info-plain};

    ghost form = { keyset_info };

    ghost value = { keyset_info_value };

    ghost plain = { keyset_info-plain };

    fn from_value(alloc: Global, json: &Value) -> Result<KeysetInfo, ProtoError> {
        require_object(json)?;
        let primary_key_id = number_in(json, "primaryKeyId", "primary_key_id")?;
        let key_info = list_in(alloc, json, "keyInfo", "key_info")?;
        Ok(KeysetInfo {
            primary_key_id,
            key_info,
        })
    }

    fn put_members(&self, members: &mut Members, alloc: Global) -> Result<(), AllocError> {
        put(
            members,
            alloc,
            "primaryKeyId",
            Value::from(self.primary_key_id),
        )?;
        put_list(members, alloc, "keyInfo", &self.key_info)
    }
}

impl Json for EncryptedKeyset {
    ghost use Rattle.tink_json.specs.Messages.{encrypted_keyset};
    ghost use Rattle.tink_json.specs.Written.{encrypted_keyset_value};
    ghost use Rattle.tink_json.specs.Plain.{encrypted_keyset-plain};

    ghost form = { encrypted_keyset };

    ghost value = { encrypted_keyset_value };

    ghost plain = { encrypted_keyset-plain };

    fn from_value(alloc: Global, json: &Value) -> Result<EncryptedKeyset, ProtoError> {
        require_object(json)?;
        let encrypted_keyset = bytes_in(alloc, json, "encryptedKeyset", "encrypted_keyset")?;
        let keyset_info = message_in(alloc, json, "keysetInfo", "keyset_info")?;
        Ok(EncryptedKeyset {
            encrypted_keyset,
            keyset_info,
        })
    }

    fn put_members(&self, members: &mut Members, alloc: Global) -> Result<(), AllocError> {
        put_bytes(members, alloc, "encryptedKeyset", &self.encrypted_keyset)?;
        put_maybe(members, alloc, "keysetInfo", &self.keyset_info)
    }
}
