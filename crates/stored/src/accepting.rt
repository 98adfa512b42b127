//! Which schemas are accepted.
ghost use Rattle.std.specs.Prelude.{◌≡◌, [], true, OnOk, IfOk, IfErr, map};
ghost use Rattle.schema.specs.Nodes.View.{node_of};
ghost use Rattle.schema.specs.Nodes.ByPlace.{AreNodesOf};
ghost use Rattle.schema.specs.Rules.Breaks.{BreaksNone, IsUnbroken, AreViolations, reported};
ghost use Rattle.stored.specs.Schemas.Accepted.{IsBroken, IsRootOf, IsSchema, IsRefusal};
ghost use Rattle.stored.specs.Internal.DefaultList.{defaults_of, AreAdded};

use crate::defaults::find_bad;
use schema::{Node, RawSchema, Refused, Shape, Violation, shape, shape_of_unbroken};
use std::alloc::{AllocError, Global};
use std::marker::Model;

/// A schema that breaks none of the rules V01 to V17, which a contract sees as the node of the root.
pub struct Schema {
    shape: Shape,
}

impl Drop for Schema {
    fn drop(self) {
        let Schema { shape: _ } = self;
    }
}

impl Model for Schema {
    ghost use Rattle.schema.specs.Nodes.Node as Nodes;
    ghost use Rattle.schema.specs.Internal.NodeCode.{node_coded};

    ghost Value = { Nodes.Node };

    ghost coded = { node_coded };

    ghost view = { λ a. a.shape };

    ghost use Rattle.stored.specs.Schemas.Accepted.{IsSchema};

    ghost invariant = { λ a. IsSchema a.shape };
}

impl Schema {
    /// The node of the body of a resource.
    pub fn root(&self) -> &Node
        ensures node { node_of result.now ≡ self.now }
        ensures schema { IsSchema self.now }
    {
        self.shape.root()
    }
}

/// All that is broken of the rules V01 to V17 (apiextensions.k8s.io/v1, "specifying a structural schema" and "defaulting", and
/// this project's profile), each once, in path order of the places and then by number. V14 is judged only where none of the
/// other sixteen is broken. `AllocError` where an allocation fails.
pub fn violations(alloc: Global, raw: &RawSchema) -> Result<Vec<Violation>, AllocError>
    ensures { IfOk result (λ vs. AreViolations (IsBroken raw.now) vs.items) }
{
    broken_of(alloc, raw, judge(alloc, raw))
}

/// The violations of V14 of a schema that is known to break none of the other rules, as `violations` answers them.
pub(crate) fn bad_default_violations(
    alloc: Global,
    raw: &RawSchema,
) -> Result<Vec<Violation>, AllocError>
    requires { BreaksNone raw.now }
    ensures { IfOk result (λ vs. AreViolations (IsBroken raw.now) vs.items) }
{
    let shape = shape_of_unbroken(alloc, raw)?;
    broken_of(alloc, raw, judge_defaults(alloc, raw, shape))
}

/// All that is broken in a schema that was judged so.
fn broken_of(
    alloc: Global,
    raw: &RawSchema,
    judged: Result<Shape, Refused>,
) -> Result<Vec<Violation>, AllocError>
    requires accepted { IfOk judged (λ s. IsRootOf s raw.now) }
    requires refused { IfErr judged (IsRefusal raw.now) }
    ensures { IfOk result (λ vs. AreViolations (IsBroken raw.now) vs.items) }
{
    match judged {
        Ok(shape) => {
            drop(shape);
            Ok(Vec::new(alloc))
        }
        Err(Refused::Violations(violations)) => Ok(violations),
        Err(Refused::NoMemory) => Err(AllocError),
    }
}

/// The schema, where it breaks none of the rules V01 to V17 (apiextensions.k8s.io/v1, "specifying a structural schema" and
/// "defaulting", and this project's profile). The raw schema is moved in.
///
/// `Violations` with all that is broken, as `violations` answers it, where some rule is. `NoMemory` where an allocation fails.
pub fn accept(alloc: Global, raw: RawSchema) -> Result<Schema, Refused>
    ensures nodes { IfOk result (λ s. AreNodesOf true s raw) }
    ensures unbroken { OnOk result (IsUnbroken (IsBroken raw)) }
    ensures refused { IfErr result (IsRefusal raw) }
{
    Ok(Schema {
        shape: judge(alloc, &raw)?,
    })
}

/// The shape of a schema that breaks no rule.
fn judge(alloc: Global, raw: &RawSchema) -> Result<Shape, Refused>
    ensures accepted { IfOk result (λ s. IsRootOf s raw.now) }
    ensures refused { IfErr result (IsRefusal raw.now) }
{
    match shape(alloc, raw) {
        Ok(shape) => judge_defaults(alloc, raw, shape),
        Err(refused) => Err(refused),
    }
}

/// The shape, where its defaults are good.
fn judge_defaults(alloc: Global, raw: &RawSchema, shape: Shape) -> Result<Shape, Refused>
    requires unbroken { BreaksNone raw.now }
    requires nodes { AreNodesOf true shape raw.now }
    ensures accepted { IfOk result (λ s. IsRootOf s raw.now) }
    ensures refused { IfErr result (IsRefusal raw.now) }
{
    raw.tree();
    schema::laws::nodes_are_unique();
    let found = match bad_defaults(alloc, shape.root()) {
        Ok(found) => found,
        Err(_) => {
            drop(shape);
            return Err(Refused::NoMemory);
        }
    };
    if found.as_slice().is_empty() {
        Ok(shape)
    } else {
        drop(shape);
        Err(Refused::Violations(found))
    }
}

/// The places below a node whose defaults are not good, as violations.
fn bad_defaults(alloc: Global, node: &Node) -> Result<Vec<Violation>, AllocError>
    ensures { IfOk result (λ found. AreAdded [] (defaults_of (node_of node.now)) [] (map reported found.items)) }
{
    let mut found = Vec::new(alloc);
    find_bad(alloc, node, "", &mut found)?;
    Ok(found)
}
