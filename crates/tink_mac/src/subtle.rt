//! The MACs, each under a key.

ghost use Rattle.tink_io.specs.Answering.{Tells};
ghost use Rattle.tink_mac.specs.Tags.{own_tag};

mod aes_cmac;
mod hmac;

pub use aes_cmac::{AesCmac, validate_cmac_params};
pub use hmac::{Hmac, validate_hmac_params};
use tink_core_subtle::constant_time_compare;
use tink_io::{Kind, TinkError};

// Ok where a tag is the message's own, and else `MacMismatch`.
fn compare_tags(own: &[u8], tag: &[u8]) -> Result<(), TinkError>
    ensures { Tells result (own_tag own.now tag.now) }
{
    if constant_time_compare(own, tag) {
        Ok(())
    } else {
        Err(TinkError::new(Kind::MacMismatch))
    }
}
