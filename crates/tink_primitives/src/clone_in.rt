//! Copies where there is memory.

ghost use Rattle.std.specs.Prelude.{◌≡◌, IfOk, IfErr};
ghost use Rattle.tink_io.specs.declared.error.Kind.TheVariants.{OutOfMemory};

use std::alloc::Global;
use tink_io::TinkError;

/// A value that is copied where there is memory for the copy.
pub trait CloneIn: Drop {
    /// An equal value.
    ///
    /// # Errors
    /// `OutOfMemory` alone.
    fn try_clone(&self, alloc: Global) -> Result<Self, TinkError>
        ensures value { IfOk result (λ copy. copy ≡ self.now) }
        ensures cause { IfErr result (λ e. e.kind ≡ OutOfMemory) };

    /// An equal value for many calls. It may keep what each call of another one makes anew, as a key schedule.
    ///
    /// # Errors
    /// `OutOfMemory` alone.
    fn try_prepared(&self, alloc: Global) -> Result<Self, TinkError>
        ensures value { IfOk result (λ copy. copy ≡ self.now) }
        ensures cause { IfErr result (λ e. e.kind ≡ OutOfMemory) }
    {
        self.try_clone(alloc)
    }
}
