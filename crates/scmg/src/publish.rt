//! Where changes of the routing data are published.
use plant_core::Group;
use relay_base::Memory;

/// Publishes groups of changes of the routing data, each whole as the next edition.
pub trait Publish {
    ghost use Rattle.std.specs.Prelude.{◌≡◌, ℕ, ◌+◌, ◌-◌, ◌^◌, ◌<◌, List, [], ◌∷◌, ◌++◌, length, IfOk, OnOk, OnErr};
    ghost use Rattle.plant_core.specs.declared.change.Group.{Group};

    /// The edition at the opening.
    ghost first: { Self → ℕ };

    /// The groups that were published since.
    ghost published: { Self → List Group };

    /// Publishes a group, and gives the number of the new edition. After `Memory` nothing was published.
    fn publish(&mut self, group: &Group) -> Result<u64, Memory>
        requires { first self.old + length (published self.old) < 2 ^ 64 - 1 }
        ensures first { first self.new ≡ first self.old }
        ensures ok { OnOk result (published self.new ≡ published self.old ++ group.now ∷ []) }
        ensures err { OnErr result (published self.new ≡ published self.old) }
        ensures edition { IfOk result (λ x. x ≡ first self.new + length (published self.new)) };
}
