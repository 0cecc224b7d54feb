//! A place over memory.

ghost use Rattle.std.specs.Prelude.{◌≡◌, ◌≤◌, ◌<◌, ◌-◌, ℕ, List, Bool, true, false, [], Some, None, IfOk, IfErr, OnOk, OnErr, length, min, option_map, vec_len, vec_capacity};
ghost use Rattle.std.specs.Io.{WritesAtMost};
ghost use Rattle.std.specs.Io.KnownBytes.{WriteAppends};
ghost use Rattle.tink_io.specs.Faults.{CountsFault};
ghost use Rattle.tink_io.specs.declared.error.Kind.TheVariants.{OutOfMemory};
ghost use Rattle.tink_io.specs.Places.{IsShown};

use crate::{Failed, Place, Sink, TinkError};
use std::alloc::Global;
use std::mem;

/// A place over memory, whose draft takes as many bytes as it was made for.
#[derive(Drop)]
pub struct MemPlace {
    alloc: Global,
    /// The bytes of the draft.
    pub draft: Vec<u8>,
    /// Whether the draft is there.
    pub has_draft: bool,
    /// The file under the name.
    pub shown: Option<Vec<u8>>,
    /// Whether a file under the name is replaced.
    pub replaces: bool,
    /// Whether the draft may be shown.
    pub can_show: bool,
    /// The bytes that the draft takes at most.
    pub room: usize,
    /// How often it has failed.
    pub faults: u64,
    ghost fits: { vec_len draft ≤ room },
    ghost reserved: { room ≤ vec_capacity draft },
}

impl MemPlace {
    /// A place with an empty draft that has room for `room` bytes. The file under its name has the bytes `shown`, if
    /// there is one. It is replaced.
    ///
    /// # Errors
    /// `OutOfMemory`.
    pub fn new(alloc: Global, room: usize, shown: Option<Vec<u8>>) -> Result<MemPlace, TinkError>
        ensures draft { IfOk result (λ p. (p.draft.items ≡ []) × (p.has_draft ≡ true) × (p.room ≡ room)) }
        ensures name { IfOk result (λ p. (p.shown ≡ shown) × (p.replaces ≡ true) × (p.can_show ≡ true)) }
        ensures faults { IfOk result (λ p. p.faults ≡ 0) }
        ensures refused { IfErr result (λ e. e ≡ record { kind = OutOfMemory }) }
    {
        let draft = Vec::with_capacity(alloc, room)?;
        Ok(MemPlace {
            alloc,
            draft,
            has_draft: true,
            shown,
            replaces: true,
            can_show: true,
            room,
            faults: 0,
        })
    }
}

impl Sink for MemPlace {
    ghost use Rattle.std.proofs.Common.{refl, ◌∙◌};
    ghost use Rattle.tink_io.specs.MemPlaces.{WritesMore};

    ghost got = { λ p. Some p.draft.items };

    ghost faults = { λ p. p.faults };

    ghost same = { λ p q. (q.shown ≡ p.shown) × (q.has_draft ≡ p.has_draft) × (q.replaces ≡ p.replaces)
        × (q.can_show ≡ p.can_show) };

    fn write(&mut self, buf: &[u8]) -> Result<usize, Failed>
        ensures bound { WritesAtMost result buf.now }
        ensures some { IfOk result (λ n. 0 < length buf.now → 0 < n) }
        ensures bytes { WriteAppends (Some self.old.draft.items) (Some self.new.draft.items) result buf.now }
        ensures cause { CountsFault self.old.faults self.new.faults result }
        ensures same { (self.new.shown ≡ self.old.shown) × (self.new.has_draft ≡ self.old.has_draft)
            × (self.new.replaces ≡ self.old.replaces) × (self.new.can_show ≡ self.old.can_show) }
        ensures taken { IfOk result (λ n. n ≡ min (self.old.room - vec_len self.old.draft) (length buf.now)) }
        ensures full { OnErr result (self.old.room ≤ vec_len self.old.draft) }
        ensures after { WritesMore self.old self.new result }
    {
        let n = (self.room - self.draft.len()).min(buf.len());
        if n < buf.len().min(1) {
            self.faults = self.faults.saturating_add(1);
            return Err(Failed);
        }
        match self.draft.extend_from_slice(&buf[..n]) {
            Ok(()) => Ok(n),
            Err(_) => unreachable!(),
        }
    }

    ghost same_refl = { λ _. (refl, refl, refl, refl) };

    ghost same_trans = { λ _ _ _ p q. (q.0 ∙ p.0, q.1 ∙ p.1, q.2 ∙ p.2, q.3 ∙ p.3) };
}

impl Place for MemPlace {
    ghost use Rattle.tink_io.specs.MemPlaces.{LeavesNone, LeavesShown, LeavesUnshown, cannot_show};

    ghost shown = { λ p. Some (option_map (λ v. v.items) p.shown) };

    ghost has_draft = { λ p. p.has_draft };

    ghost replaces = { λ p. p.replaces };

    ghost rest = { λ p q. (q.replaces ≡ p.replaces) × (q.can_show ≡ p.can_show) };

    fn show(&mut self) -> Result<(), Failed>
        ensures shown { OnOk result (IsShown (Some self.old.draft.items) self.old.replaces
            (Some (option_map (λ v. v.items) self.old.shown)) (Some (option_map (λ v. v.items) self.new.shown))) }
        ensures gone { OnOk result (self.new.has_draft ≡ false) }
        ensures err { OnErr result
            (Some (option_map (λ v. v.items) self.new.shown) ≡ Some (option_map (λ v. v.items) self.old.shown)) }
        ensures cause { CountsFault self.old.faults self.new.faults result }
        ensures rest { (self.new.replaces ≡ self.old.replaces) × (self.new.can_show ≡ self.old.can_show) }
        ensures able { OnOk result (cannot_show self.old ≡ false) }
        ensures unable { OnErr result (cannot_show self.old ≡ true) }
        ensures done { OnOk result (LeavesShown self.old self.new) }
        ensures failed { OnErr result (LeavesUnshown self.old self.new) }
    {
        if !self.can_show || (!self.replaces && self.shown.is_some()) {
            self.faults = self.faults.saturating_add(1);
            return Err(Failed);
        }
        self.shown = Some(mem::replace(&mut self.draft, Vec::new(self.alloc)));
        self.room = 0;
        self.has_draft = false;
        Ok(())
    }

    fn discard(&mut self)
        ensures gone { self.new.has_draft ≡ false }
        ensures shown { Some (option_map (λ v. v.items) self.new.shown)
            ≡ Some (option_map (λ v. v.items) self.old.shown) }
        ensures faults { self.old.faults ≤ self.new.faults }
        ensures rest { (self.new.replaces ≡ self.old.replaces) × (self.new.can_show ≡ self.old.can_show) }
        ensures none { LeavesNone self.old self.new }
    {
        self.draft.clear();
        self.has_draft = false;
    }

    ghost use Rattle.std.proofs.Common.{ap, refl, ◌∙◌};

    ghost same_shown = { λ p q same. ap (λ v. Some (option_map (λ file. file.items) v)) same.0 };

    ghost same_draft = { λ p q same. same.1 };

    ghost same_replaces = { λ p q same. same.2 };

    ghost rest_refl = { λ _. (refl, refl) };

    ghost rest_trans = { λ _ _ _ p q. (q.0 ∙ p.0, q.1 ∙ p.1) };

    ghost same_rest = { λ p q same. (same.2, same.3) };
}
