//! Templates by their names, in rising order.

ghost use Rattle.std.specs.Prelude.{◌≡◌, ◌<◌, ◌≤◌, ◌+◌, IfOk, IfErr, fold, insert, length, slice_set};
ghost use Rattle.std.specs.Prelude.{vec_capacity, vec_len};
ghost use Rattle.tink_proto.specs.declared.messages.keys.KeyTemplate.{KeyTemplate};
ghost use Rattle.tink_registry.specs.Listed.{with_template};

use std::cmp::Ordering;
use tink_proto::{KeyTemplate, Text};

// Where a name stands, or is to stand.
#[tactic(auto, using(crate::proofs::Lists::place_equal, crate::proofs::Lists::set_split))]
fn place_of(templates: &[(Text, KeyTemplate)], name: &str) -> Result<usize, usize>
    ensures there { IfOk result (λ i. (i < length templates.now)
        × ((kt : KeyTemplate)
        → with_template templates.now (name.now, kt) ≡ slice_set templates.now i (name.now, kt))) }
    ensures new { IfErr result (λ i. (i ≤ length templates.now)
        × ((kt : KeyTemplate)
        → with_template templates.now (name.now, kt) ≡ insert templates.now i (name.now, kt))) }
{
    for (i, t) in templates.iter().enumerate() {
        match name.cmp(t.0.as_str()) {
            Ordering::Less => return Err(i),
            Ordering::Equal => return Ok(i),
            Ordering::Greater => {}
        }
    }
    Err(templates.len())
}

/// Puts a template into its place in the order of the names. There is memory for it.
pub fn put_template(templates: &mut Vec<(Text, KeyTemplate)>, name: Text, kt: KeyTemplate)
    requires room { vec_len templates.old < vec_capacity templates.old }
    ensures items { templates.new.items ≡ with_template templates.old.items (name, kt) }
    ensures capacity { vec_capacity templates.new ≡ vec_capacity templates.old }
    ensures len { vec_len templates.new ≤ vec_len templates.old + 1 }
{
    match place_of(templates, name.as_str()) {
        Ok(i) => templates[i] = (name, kt),
        Err(i) => match templates.insert(i, (name, kt)) {
            Ok(()) => {}
            Err(_) => unreachable!(),
        },
    }
}

/// Puts templates into their places in the order of the names. There is memory for them.
pub fn put_templates(templates: &mut Vec<(Text, KeyTemplate)>, kts: Vec<(Text, KeyTemplate)>)
    requires room { vec_len templates.old + vec_len kts ≤ vec_capacity templates.old }
    ensures items { templates.new.items ≡ fold with_template templates.old.items kts.items }
{
    for (name, kt) in kts {
        put_template(templates, name, kt);
    }
}
