//! Lists of managers, looked through by URL.

ghost use Rattle.std.specs.Prelude.{◌≡◌, ◌++◌, None, Some, MatchOption, is_some};
ghost use Rattle.tink_registry.specs.Listed.{manager_of, are_all_fresh};

use crate::KeyManager;

/// The first manager of a URL.
pub fn find_manager<'a, M: KeyManager>(managers: &'a [M], url: &str) -> Option<&'a M>
    ensures value { MatchOption result (manager_of M.url url.now managers.now ≡ None)
        (λ m. manager_of M.url url.now managers.now ≡ Some m.now) }
{
    for m in managers {
        if m.type_url() == url {
            return Some(m);
        }
    }
    None
}

// Whether one of two lists of managers has a URL.
#[tactic(auto, using(crate::proofs::Lists::taken_append))]
fn is_taken<M: KeyManager>(old: &[M], new: &[M], url: &str) -> bool
    ensures value { result ≡ is_some (manager_of M.url url.now (old.now ++ new.now)) }
{
    find_manager(old, url).is_some() || find_manager(new, url).is_some()
}

/// Whether no new manager has the URL of an old one or of a new one before it.
#[tactic(auto, using(crate::proofs::Lists::fresh_step))]
pub fn are_fresh<M: KeyManager>(old: &[M], new: &[M]) -> bool
    ensures value { result ≡ are_all_fresh M.url old.now new.now }
{
    for (i, m) in new.iter().enumerate() {
        if is_taken(old, &new[..i], m.type_url()) {
            return false;
        }
    }
    true
}
