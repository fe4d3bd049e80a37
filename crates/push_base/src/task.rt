//! Jobs.

ghost use Rattle.std.specs.Prelude.{◌≡◌, ℕ};
ghost use Rattle.push_base.specs.declared.role.Role.{Role};

use crate::Role;

/// One job.
pub trait Task: Drop {
    /// What it answers.
    type Out: Send + Drop + 'static;

    /// What it does.
    ghost role_of: { Self → Role };

    /// The turns of its loop.
    ghost turns_of: { Self → ℕ };

    /// What it does. It takes no memory.
    fn role(&self) -> Role
        ensures { result ≡ role_of self.now };

    /// The turns of its loop. It takes no memory.
    fn turns(&self) -> u64
        ensures { result ≡ turns_of self.now };

    /// Does it. It may wait where its type does.
    fn run(self) -> Self::Out;
}
