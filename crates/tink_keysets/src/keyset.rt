//! Keysets: what holds them, what edits them, and what reads and writes them.

mod encrypted;
mod encrypted_laws;
mod handle_type;
pub mod insecure;
mod manager_type;
mod plain;

pub use encrypted_laws::law_written_is_read;
pub use handle_type::Handle;
pub use manager_type::Manager;
pub use tink_keyset_rules::{
    MemReaderWriter, Reader, Writer, law_enabled_keys_stay, law_fresh_id, law_ids_stay_distinct,
    law_keys_stay, law_managers_give_held, law_no_fresh_id, law_primary_stays, law_refused_adding,
    law_refused_command, law_valid_stays, validate, validate_key, validate_key_version,
};
