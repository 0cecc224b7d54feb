//! The id of a new key.

ghost use Rattle.std.specs.Prelude.{◌≡◌, Ok, Err, IfOk, IfErr, false};
ghost use Rattle.std.specs.List.{list_any};
ghost use Rattle.keyset_model.specs.Adding as adding;
ghost use Rattle.keyset_model.specs.Keys as key_words;

use keyset_model::places::place_of;
use tink_core_subtle::random::get_random_uint32;
use tink_io::{Draws, Kind, TinkError};
use tink_proto::Key;

// How many ids are drawn at most.
const MOST_IDS: u32 = 128;

// The id is 0, or a key has it.
fn is_taken(keys: &[Key], id: u32) -> bool
    ensures { result ≡ adding.is_taken keys.now id }
{
    id == 0 || some_has_id(keys, id)
}

fn some_has_id(keys: &[Key], id: u32) -> bool
    ensures { result ≡ list_any (key_words.has_id id) keys.now }
{
    place_of(keys, id).is_some()
}

// An id that isn't 0 and that no key has.
#[tactic(auto, using(keyset_model::proofs::FreshIds::no_take, keyset_model::proofs::FreshIds::take_short, keyset_model::proofs::FreshIds::take_taken, keyset_model::proofs::FreshIds::take_fresh))]
pub(crate) fn draw_id(keys: &[Key], draws: &mut Draws) -> Result<u32, TinkError>
    ensures ok { IfOk result (λ id. (adding.fresh_id keys.now 128 draws.old).0 ≡ Ok id) }
    ensures err { IfErr result (λ e. (adding.fresh_id keys.now 128 draws.old).0 ≡ Err e.kind) }
    ensures left { draws.new ≡ (adding.fresh_id keys.now 128 draws.old).1 }
    ensures fresh { IfOk result (λ id. adding.is_taken keys.now id ≡ false) }
{
    for _ in 0..MOST_IDS {
        let id = get_random_uint32(draws)?;
        if !is_taken(keys, id) {
            return Ok(id);
        }
    }
    Err(TinkError::new(Kind::NoFreshId))
}
