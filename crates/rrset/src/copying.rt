//! Values that are copied where there is memory.

ghost use Rattle.std.specs.Prelude.{◌≡◌, IfOk};

use crate::record::{NoMemory, Shown};

/// A value of which a copy may be had.
pub trait Copied: Sized {
    /// The same value.
    fn copied(&self) -> Result<Self, NoMemory>
        ensures { IfOk result (λ value. value ≡ self.now) };
}

impl Copied for Shown {
    fn copied(&self) -> Result<Shown, NoMemory> {
        self.copy()
    }
}
