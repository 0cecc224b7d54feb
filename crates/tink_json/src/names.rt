//! The names of the enums' numbers.

ghost use Rattle.std.specs.Prelude.{◌≡◌, option_map};
ghost use Rattle.tink_json.specs.Names.{Names, numbered, named};

use tink_proto::{KeyMaterialType, KeyStatusType, OutputPrefixType};

/// An enum whose numbers have names.
pub trait Named {
    ghost names: { Names };

    /// The number of a name.
    fn number(name: &str) -> Option<i32>
        ensures { result ≡ numbered names name.now };

    /// The name of a number.
    fn name(number: i32) -> Option<&'static str>
        ensures { option_map (λ n. n.now) result ≡ named names number };
}

impl Named for KeyStatusType {
    ghost use Rattle.tink_json.specs.Names.{statuses};

    ghost names = { statuses };

    fn number(name: &str) -> Option<i32> {
        match name {
            "UNKNOWN_STATUS" => Some(0),
            "ENABLED" => Some(1),
            "DISABLED" => Some(2),
            "DESTROYED" => Some(3),
            _ => None,
        }
    }

    fn name(number: i32) -> Option<&'static str> {
        match number {
            0 => Some("UNKNOWN_STATUS"),
            1 => Some("ENABLED"),
            2 => Some("DISABLED"),
            3 => Some("DESTROYED"),
            _ => None,
        }
    }
}

impl Named for OutputPrefixType {
    ghost use Rattle.tink_json.specs.Names.{prefixes};

    ghost names = { prefixes };

    fn number(name: &str) -> Option<i32> {
        match name {
            "UNKNOWN_PREFIX" => Some(0),
            "TINK" => Some(1),
            "LEGACY" => Some(2),
            "RAW" => Some(3),
            "CRUNCHY" => Some(4),
            _ => None,
        }
    }

    fn name(number: i32) -> Option<&'static str> {
        match number {
            0 => Some("UNKNOWN_PREFIX"),
            1 => Some("TINK"),
            2 => Some("LEGACY"),
            3 => Some("RAW"),
            4 => Some("CRUNCHY"),
            _ => None,
        }
    }
}

impl Named for KeyMaterialType {
    ghost use Rattle.tink_json.specs.Names.{materials};

    ghost names = { materials };

    fn number(name: &str) -> Option<i32> {
        match name {
            "UNKNOWN_KEYMATERIAL" => Some(0),
            "SYMMETRIC" => Some(1),
            "ASYMMETRIC_PRIVATE" => Some(2),
            "ASYMMETRIC_PUBLIC" => Some(3),
            "REMOTE" => Some(4),
            _ => None,
        }
    }

    fn name(number: i32) -> Option<&'static str> {
        match number {
            0 => Some("UNKNOWN_KEYMATERIAL"),
            1 => Some("SYMMETRIC"),
            2 => Some("ASYMMETRIC_PRIVATE"),
            3 => Some("ASYMMETRIC_PUBLIC"),
            4 => Some("REMOTE"),
            _ => None,
        }
    }
}
