//! Laws: calls that run nothing, for what their contracts say.
ghost use Rattle.std.specs.Prelude.{◌≡◌, ◌↔◌, ℕ, true, Bool, Some};
ghost use Rattle.schema.specs.Document.Limits.{standard, large};
ghost use Rattle.schema.specs.Document.Raw.{Raw};
ghost use Rattle.schema.specs.Document.Places.{Place};
ghost use Rattle.schema.specs.Rules.Broken.{Broken};
ghost use Rattle.schema.specs.Rules.Reasons.{HasSomeReason, has_reasons};
ghost use Rattle.schema.specs.Rules.ReasonTable.{StandsAt};
ghost use Rattle.schema.specs.declared.violation.Rule.{Rule};
ghost use Rattle.schema.specs.declared.reason.Reason.{Reason};
ghost use Rattle.schema.specs.Nodes.Node.{Node};
ghost use Rattle.schema.specs.Nodes.ByPlace.{AreNodesOf, node_at};
ghost use Rattle.schema.specs.Nodes.Shape.{IsRootOf};
ghost use Rattle.schema.specs.Nodes.Items.{HasSoundItems};
ghost use Rattle.schema.specs.Nodes.Junctors.{HasSoundJunctors};

use crate::limits::Limits;

/// Which limits the two constants are.
pub fn limits_by_name()
    ensures standard { Limits.STANDARD ≡ standard }
    ensures large { Limits.LARGE ≡ large }
{}

/// V03, V05, V11, V12, V16 and V17 are each broken at a place exactly where some reason of the rule holds there. So each violation
/// of them has a reason, and a reason makes a violation.
pub fn broken_for_a_reason()
    ensures { (raw : Raw) (p : Place) (r : Rule) → has_reasons r ≡ true → Broken raw p r ↔ HasSomeReason raw p r }
{}

/// Each reason stands at exactly one place of the table that orders them.
pub fn reasons_stand_once()
    ensures { (c : Reason) → (n : ℕ) × StandsAt c n × ((m : ℕ) → StandsAt c m → m ≡ n) }
{}

/// A schema has at most one tree of nodes, one for each of its places that is in no branch of a junctor and not of the envelope. So
/// the nodes that `shape` answers are the only ones.
pub fn nodes_are_unique()
    ensures { (N M : Node) (raw : Raw) (root : Bool) → AreNodesOf root N raw → AreNodesOf root M raw → N ≡ M }
{}

/// At each node of a schema that breaks no rule the items can be distinguished. Those of a set are scalars that take no null; those
/// of a map list are objects that take no null and have its keys, of which there is at least one and none occurs twice.
pub fn items_are_distinct()
    ensures { (raw : Raw) (root : Node) → IsRootOf root raw → (p : Place) (M : Node) → node_at root p ≡ Some M → HasSoundItems M }
{}

/// At each object of a schema that breaks no rule the junctors name declared fields alone, at most four, and ask nothing but which
/// of them are there, at any depth. At each scalar they name no field.
pub fn junctors_name_fields()
    ensures { (raw : Raw) (root : Node) → IsRootOf root raw → (p : Place) (M : Node) → node_at root p ≡ Some M → HasSoundJunctors M }
{}
