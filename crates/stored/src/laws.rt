//! Laws: calls that run nothing, for what their contracts say.
ghost use Rattle.std.specs.Prelude.{◌↔◌, ◌≡◌};
ghost use Rattle.jtree.specs.Data.{Data, IsTree};
ghost use Rattle.schema.specs.Nodes.Node.{Node};
ghost use Rattle.stored.specs.Objects.Becomes.{IsStored, Becomes, IsCompleted, IsPruned};
ghost use Rattle.stored.specs.Objects.StoredByParts.{StoredByParts};
ghost use Rattle.stored.specs.Objects.Parts.{Leading};
ghost use Rattle.stored.specs.Objects.Fault.{IsValid};
ghost use Rattle.stored.specs.Objects.StrictFaults.{IsStrictlyValid};

/// A value is stored exactly where it passes what its node asks of the value itself and its parts are stored.
pub fn stored_by_parts()
    ensures { (N : Node) (v : Data) → IsStored N v ↔ StoredByParts N v }
{}

/// A value becomes at most one tree, by pruning, by defaulting, and by both.
pub fn becomes_one_tree()
    ensures becomes { (lead : Leading) (N : Node) (v u w : Data) → IsTree u → IsTree w → Becomes lead N v u → Becomes lead N v w → u ≡ w }
    ensures completed { (N : Node) (v u w : Data) → IsTree u → IsTree w → IsCompleted N v u → IsCompleted N v w → u ≡ w }
{}

/// An object has no strict fault exactly where it is valid and pruning leaves it as it is.
pub fn strictly_valid_is_pruned()
    ensures { (N : Node) (v : Data) → IsStrictlyValid N v ↔ (IsValid N v × IsPruned N v v) }
{}
