//! The registry of key managers and templates.

ghost use Rattle.std.specs.Prelude.{◌≡◌, ◌++◌, ◌∷◌, [], None, Some, true, false, is_some, OnOk, OnErr};
ghost use Rattle.std.specs.Prelude.{IfOk, IfErr, MatchResult, MatchOption};
ghost use Rattle.tink_io.specs.declared.error.Kind.TheVariants.{OutOfMemory, UnsupportedKeyType, AlreadyRegistered};
ghost use Rattle.tink_io.specs.Answering.{Answers, OutOfMemoryOr, Replies};
ghost use Rattle.tink_registry.specs.Listed.{AddsManager, AreRising, PutsTemplate, are_all_fresh, manager_of, names_of};
ghost use Rattle.tink_registry.specs.Listed.{registry_builds, registry_makes, template_of, with_all, with_template};

use crate::KeyManager;
use crate::managers::{are_fresh, find_manager};
use crate::templates::{put_template, put_templates};
use std::alloc::Global;
use std::marker::Model;
use tink_io::{Draws, Kind, TinkError};
use tink_primitives::Primitive;
use tink_proto::{Bytes, KeyData, KeyTemplate, Text};

/// Key managers by their URLs, and templates by their names. A contract sees the managers in the order of registration
/// and the templates in the order of their names.
#[derive(Drop)]
pub struct Registry<M> {
    managers: Vec<M>,
    templates: Vec<(Text, KeyTemplate)>,
}

impl<M> Model for Registry<M> {
    ghost use Rattle.tink_registry.specs.Listed.{Registered, names_of, AreRising};

    ghost Value = { Registered M };

    ghost view = { λ r. record { managers = r.managers.items; templates = r.templates.items } };

    ghost invariant = { λ r. AreRising (names_of r.templates.items) };
}

impl<M> Registry<M> {
    /// A registry of nothing.
    pub fn new(alloc: Global) -> Self
        ensures value { result ≡ record { managers = []; templates = [] } }
    {
        Registry {
            managers: Vec::new(alloc),
            templates: Vec::new(alloc),
        }
    }

    /// Adds a template under its name, in place of the one of that name.
    ///
    /// # Errors
    /// `OutOfMemory`. Nothing is added then.
    pub fn register_template_generator(
        &mut self,
        alloc: Global,
        name: &str,
        kt: KeyTemplate,
    ) -> Result<(), TinkError>
        ensures ok { OnOk result (self.new
            ≡ record self.old { templates = with_template self.old.templates (name.now, kt) }) }
        ensures found { OnOk result (PutsTemplate name.now kt self.old.templates self.new.templates) }
        ensures err { OnErr result (self.new ≡ self.old) }
        ensures cause { IfErr result (λ e. e.kind ≡ OutOfMemory) }
    {
        let name = Text::from_str(alloc, name)?;
        self.templates.reserve(1)?;
        put_template(&mut self.templates, name, kt);
        Ok(())
    }

    /// The template of a name, or `None` exactly where none has it.
    pub fn get_template_generator(&self, name: &str) -> Option<&KeyTemplate>
        ensures value { MatchOption result (template_of name.now self.now.templates ≡ None)
            (λ kt. template_of name.now self.now.templates ≡ Some kt.now) }
    {
        for t in &self.templates {
            if t.0.as_str() == name {
                return Some(&t.1);
            }
        }
        None
    }

    /// The names of the templates, in the order of their bytes, each once.
    ///
    /// # Errors
    /// `OutOfMemory` alone.
    pub fn template_names(&self, alloc: Global) -> Result<Vec<Text>, TinkError>
        ensures names { IfOk result (λ names. names.items ≡ names_of self.now.templates) }
        ensures sorted { IfOk result (λ names. AreRising names.items) }
        ensures cause { IfErr result (λ e. e.kind ≡ OutOfMemory) }
    {
        let mut names = Vec::new(alloc);
        for t in &self.templates {
            names.push(t.0.try_clone(alloc)?)?;
        }
        Ok(names)
    }
}

impl<M: KeyManager> Registry<M> {
    /// Adds a manager under its URL.
    ///
    /// # Errors
    /// `AlreadyRegistered` exactly if a manager of the URL is there, or `OutOfMemory`. Nothing is added then.
    pub fn register_key_manager(&mut self, _alloc: Global, km: M) -> Result<(), TinkError>
    where
        M: Drop,
        ensures ok { OnOk result (self.new ≡ record self.old { managers = self.old.managers ++ km ∷ [] }) }
        ensures fresh { OnOk result (manager_of M.url (M.url km) self.old.managers ≡ None) }
        ensures found { OnOk result (AddsManager M.url km self.old.managers self.new.managers) }
        ensures err { OnErr result (self.new ≡ self.old) }
        ensures cause { IfErr result (λ e. OutOfMemoryOr AlreadyRegistered e.kind
            (is_some (manager_of M.url (M.url km) self.old.managers) ≡ true)) }
    {
        if find_manager(&self.managers, km.type_url()).is_some() {
            return Err(TinkError::new(Kind::AlreadyRegistered));
        }
        self.managers.push(km)?;
        Ok(())
    }

    /// The manager of a URL.
    ///
    /// # Errors
    /// `UnsupportedKeyType` exactly if no manager has it.
    pub fn get_key_manager(&self, type_url: &str) -> Result<&M, TinkError>
        ensures manager { OnOk result (is_some (manager_of M.url type_url.now self.now.managers) ≡ true) }
        ensures value { MatchResult result
            (λ m. manager_of M.url type_url.now self.now.managers ≡ Some m.now)
            (λ e. (e ≡ record { kind = UnsupportedKeyType })
            × (manager_of M.url type_url.now self.now.managers ≡ None)) }
    {
        match find_manager(&self.managers, type_url) {
            Some(m) => Ok(m),
            None => Err(TinkError::new(Kind::UnsupportedKeyType)),
        }
    }

    /// The data of a new key by a template.
    ///
    /// # Errors
    /// `UnsupportedKeyType` if no manager has the template's URL, then what the manager refuses. `OutOfMemory`.
    pub fn new_key_data(
        &self,
        alloc: Global,
        kt: &KeyTemplate,
        draws: &mut Draws,
    ) -> Result<KeyData, TinkError>
        ensures replies { Replies result
            (registry_makes M.url M.makes_data self.now.managers kt.now draws.old) draws.old draws.new }
    {
        let m = self.get_key_manager(kt.type_url.as_str())?;
        m.new_key_data(alloc, kt.value.as_slice(), draws)
    }

    /// The bytes of a new key by a template.
    ///
    /// # Errors
    /// `UnsupportedKeyType` if no manager has the template's URL, then what the manager refuses. `OutOfMemory`.
    pub fn new_key(
        &self,
        alloc: Global,
        kt: &KeyTemplate,
        draws: &mut Draws,
    ) -> Result<Bytes, TinkError>
        ensures replies { Replies result
            (registry_makes M.url M.makes self.now.managers kt.now draws.old) draws.old draws.new }
    {
        let m = self.get_key_manager(kt.type_url.as_str())?;
        m.new_key(alloc, kt.value.as_slice(), draws)
    }

    /// The primitive of a key's bytes.
    ///
    /// # Errors
    /// The first that applies: `InvalidKey` if there are no bytes; `UnsupportedKeyType` if no manager has the URL;
    /// what the manager refuses. `OutOfMemory`.
    pub fn primitive(
        &self,
        alloc: Global,
        type_url: &str,
        serialized_key: &[u8],
    ) -> Result<Primitive<M::Family>, TinkError>
        ensures answer { Answers result
            (registry_builds M.url M.builds self.now.managers type_url.now serialized_key.now) }
    {
        if serialized_key.is_empty() {
            return Err(TinkError::new(Kind::InvalidKey));
        }
        let m = self.get_key_manager(type_url)?;
        m.primitive(alloc, serialized_key)
    }

    /// The primitive of a key's data.
    ///
    /// # Errors
    /// As `primitive`.
    pub fn primitive_from_key_data(
        &self,
        alloc: Global,
        kd: &KeyData,
    ) -> Result<Primitive<M::Family>, TinkError>
        ensures answer { Answers result
            (registry_builds M.url M.builds self.now.managers kd.now.type_url kd.now.value) }
    {
        self.primitive(alloc, kd.type_url.as_str(), kd.value.as_slice())
    }

    /// Adds all of both lists in order, or nothing.
    ///
    /// # Errors
    /// `AlreadyRegistered` exactly if a manager of a URL of `kms` is there, or two of `kms` have one URL; or
    /// `OutOfMemory`. Nothing is added then.
    pub fn register_all(
        &mut self,
        _alloc: Global,
        kms: Vec<M>,
        kts: Vec<(Text, KeyTemplate)>,
    ) -> Result<(), TinkError>
    where
        M: Drop,
        ensures ok { OnOk result (self.new ≡ with_all self.old kms.items kts.items) }
        ensures fresh { OnOk result (are_all_fresh M.url self.old.managers kms.items ≡ true) }
        ensures err { OnErr result (self.new ≡ self.old) }
        ensures cause { IfErr result (λ e. OutOfMemoryOr AlreadyRegistered e.kind
            (are_all_fresh M.url self.old.managers kms.items ≡ false)) }
    {
        self.managers.reserve(kms.len())?;
        self.templates.reserve(kts.len())?;
        if !are_fresh(&self.managers, &kms) {
            return Err(TinkError::new(Kind::AlreadyRegistered));
        }
        let mut kms = kms;
        match self.managers.append(&mut kms) {
            Ok(()) => {}
            Err(_) => unreachable!(),
        }
        put_templates(&mut self.templates, kts);
        Ok(())
    }
}
