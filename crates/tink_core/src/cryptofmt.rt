//! The output prefixes of keys.

pub use tink_sets::cryptofmt::{
    LEGACY_PREFIX_SIZE, LEGACY_START_BYTE, NON_RAW_PREFIX_SIZE, RAW_PREFIX, RAW_PREFIX_SIZE,
    TINK_PREFIX_SIZE, TINK_START_BYTE, output_prefix,
};
