//! The candidates of a scalar of which nothing is asked but its kind: the values of that kind. They are found once for a plan, since most
//! scalars of a schema are such.
ghost use Rattle.std.specs.Prelude.{◌≡◌, ◌↔◌, [], true, IfOk, IfSome};
ghost use Rattle.jtree.specs.Data.{Data};
ghost use Rattle.jtree.specs.Nodes.{node_count};
ghost use Rattle.jtree.specs.declared.value.Tree.{Tree};
ghost use Rattle.schema.specs.Nodes.Node.{no_branches};
ghost use Rattle.schema.specs.Nodes.Validations.{presence};
ghost use Rattle.schema.specs.Nodes.View.{validations_of, node_of};
ghost use Rattle.schema.specs.declared.node.ScalarKind.{ScalarKind};
ghost use Rattle.stored.specs.Objects.Becomes.{IsStored};
ghost use Rattle.plan.specs.Internal.Values.{trees_of, at_places, AreStored, no_validations, of_kind, places_of, AreKinds};

use crate::leaf::stored_places;
use jtree::Tree;
use schema::{Bounds, Branches, Constraints, Node, ScalarKind, ScalarNode, Sort, Validations};
use std::alloc::{AllocError, Global};

/// The places of the values of each kind: of numbers in one list of trees, of the others in another.
#[derive(Drop)]
pub(crate) struct Kinds {
    pub booleans: Vec<usize>,
    pub integers: Vec<usize>,
    /// Integers and other numbers.
    pub numbers: Vec<usize>,
    pub strings: Vec<usize>,
    pub integers_and_strings: Vec<usize>,
}

impl Kinds {
    /// The places in these lists.
    pub(crate) fn new(alloc: Global, trees: &[Tree], numbers: &[Tree]) -> Result<Kinds, AllocError>
        ensures { IfOk result (λ k. AreKinds trees.now numbers.now k) }
    {
        Ok(Kinds {
            booleans: places_of_kind(alloc, ScalarKind::Boolean, trees)?,
            integers: places_of_kind(alloc, ScalarKind::Integer, trees)?,
            numbers: places_of_kind(alloc, ScalarKind::Number, numbers)?,
            strings: places_of_kind(alloc, ScalarKind::String, trees)?,
            integers_and_strings: places_of_kind(alloc, ScalarKind::IntOrString, trees)?,
        })
    }

    /// The places of the values of a kind.
    pub(crate) fn places(&self, kind: ScalarKind) -> &[usize]
        ensures { result.now ≡ places_of self.now kind }
    {
        match kind {
            ScalarKind::Boolean => &self.booleans,
            ScalarKind::Integer => &self.integers,
            ScalarKind::Number => &self.numbers,
            ScalarKind::String => &self.strings,
            ScalarKind::IntOrString => &self.integers_and_strings,
        }
    }
}

/// The places of the trees that are stored at a scalar of this kind, of which nothing else is asked; each is one node.
fn places_of_kind(alloc: Global, kind: ScalarKind, trees: &[Tree]) -> Result<Vec<usize>, AllocError>
    ensures { IfOk result (λ places. (past : Tree) → AreStored 1 (of_kind kind) (trees_of trees.now) (at_places past trees.now places.items)) }
{
    let node = node_of_kind(alloc, kind);
    stored_places(alloc, 1, &node, trees)
}

/// A scalar of this kind, of which nothing else is asked.
fn node_of_kind(alloc: Global, kind: ScalarKind) -> Node
    ensures { node_of result ≡ of_kind kind }
{
    Node {
        nullable: false,
        description: None,
        sort: Sort::Scalar(ScalarNode {
            kind,
            validations: no_validations(alloc),
        }),
    }
}

fn no_validations(alloc: Global) -> Validations
    ensures { validations_of result ≡ no_validations }
{
    Validations {
        constraints: Constraints::none(alloc),
        all_of: no_branches(alloc),
        any_of: no_branches(alloc),
        one_of: no_branches(alloc),
        negated: no_branches(alloc),
    }
}

fn no_branches(alloc: Global) -> Branches
    ensures { result ≡ no_branches }
{
    Branches {
        branches: Vec::new(alloc),
    }
}

/// The kind of a scalar of which nothing else is asked, and that is not nullable. `None` for any other node.
pub(crate) fn bare_kind(node: &Node) -> Option<ScalarKind>
    ensures alike { IfSome result (λ kind. (v : Data) → IsStored (of_kind kind) v ↔ IsStored (node_of node.now) v) }
    ensures one { IfSome result (λ _. (v : Data) → IsStored (node_of node.now) v → node_count v ≡ 1) }
{
    stored::laws::stored_by_parts();
    match &node.sort {
        Sort::Scalar(scalar) if !node.nullable && asks_nothing(&scalar.validations) => {
            Some(scalar.kind)
        }
        _ => None,
    }
}

fn asks_nothing(validations: &Validations) -> bool
    ensures { result ≡ true → validations_of validations.now ≡ no_validations }
{
    has_no_constraints(&validations.constraints)
        && is_absent(&validations.all_of)
        && is_absent(&validations.any_of)
        && is_absent(&validations.one_of)
        && is_absent(&validations.negated)
}

fn has_no_constraints(constraints: &Constraints) -> bool
    ensures { result ≡ true → constraints.now ≡ presence [] }
{
    match constraints {
        Constraints {
            choices: None,
            minimum: None,
            maximum: None,
            exclusive_minimum: false,
            exclusive_maximum: false,
            lengths: Bounds {
                least: None,
                most: None,
            },
            written: None,
            required,
        } => required.names.is_empty(),
        _ => false,
    }
}

fn is_absent(branches: &Branches) -> bool
    ensures { result ≡ true → branches.now ≡ no_branches }
{
    match branches.branches.as_slice() {
        [] => true,
        _ => false,
    }
}
