//! The parts of calls on keysets: validation, adding a key under a fresh id, encryption by a master, keyset
//! info. Readers and writers, and laws over commands.
#![tactic(auto)]

mod adding;
mod copies;
mod enabled_law;
mod fresh_ids;
mod laws;
mod masters;
mod memory;
mod reading;
mod shown;
mod validation;
mod writing;

pub use adding::{new_data, put_new};
pub use copies::{copy, copy_all};
pub use enabled_law::law_enabled_keys_stay;
pub use laws::{
    law_fresh_id, law_ids_stay_distinct, law_keys_stay, law_managers_give_held, law_no_fresh_id,
    law_primary_stays, law_refused_adding, law_refused_command, law_valid_stays,
};
pub use masters::{decrypted_bytes, encrypted_bytes};
pub use memory::MemReaderWriter;
pub use reading::Reader;
pub use shown::{Shown, keyset_info};
pub use validation::{
    are_held, have_secrets, is_validated, validate, validate_key, validate_key_version,
};
pub use writing::Writer;
