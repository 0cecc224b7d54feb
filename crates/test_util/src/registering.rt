//! What rows ask of the registration of a family's managers and templates.

use crate::{Ask, Named, TestKinds, succeeds};
use std::alloc::Global;
use tink_io::TinkError;
use tink_proto::{KeyTemplate, Text};
use tink_registry::Registry;

/// A registry of managers by their URLs, of any family.
pub type NamedRegistry = Registry<Named<TestKinds>>;

/// A template's name, its URL, its format and its number of a prefix type.
pub struct Template(
    pub &'static str,
    pub &'static str,
    pub &'static [u8],
    pub i32,
);

/// What is asked of a registry, or of a constant.
pub enum Registered {
    /// A manager of the URL is registered.
    Manage(&'static str),
    /// There are so many templates, of which this name is the first.
    Names(usize, &'static str),
    /// There is no manager of the URL.
    HasNot(&'static str),
    /// A constant has this text, and a version this number.
    Text(&'static str, &'static str),
    Version(u32, u32),
}

fn is_template(kt: &KeyTemplate, template: &Template) -> bool {
    (kt.type_url.as_str() == template.1)
        & (kt.value.as_slice() == template.2)
        & (kt.output_prefix_type == template.3)
}

/// Whether a call made the template, and it stands in a registry under its name beside its manager.
pub fn is_made_and_registered(
    registry: &NamedRegistry,
    template: &Template,
    made: Result<KeyTemplate, TinkError>,
) -> Result<bool, TinkError> {
    let found = match registry.get_template_generator(template.0) {
        Some(kt) => is_template(kt, template),
        None => false,
    };
    match made {
        Ok(kt) => Ok(
            found & is_template(&kt, template) & registry.get_key_manager(template.1).is_ok(),
        ),
        Err(e) => Err(e),
    }
}

// Whether these are so many names, of which this is the first.
fn are_names(
    names: Result<Vec<Text>, TinkError>,
    n: usize,
    first: &str,
) -> Result<bool, TinkError> {
    match names {
        Ok(names) => match names.as_slice() {
            [name, ..] => Ok((names.len() == n) & (name.as_str() == first)),
            [] => Ok(n == 0),
        },
        Err(e) => Err(e),
    }
}

impl Ask<NamedRegistry> for Registered {
    fn answer(&self, alloc: Global, registry: &mut NamedRegistry) -> Result<bool, TinkError> {
        match *self {
            Registered::Manage(url) => succeeds(registry.register_key_manager(
                alloc,
                Named::new(url),
            )),
            Registered::Names(n, first) => are_names(registry.template_names(alloc), n, first),
            Registered::HasNot(url) => Ok(registry.get_key_manager(url).is_err()),
            Registered::Text(found, want) => Ok(found == want),
            Registered::Version(found, want) => Ok(found == want),
        }
    }
}
