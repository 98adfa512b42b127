//! The nodes of a schema that breaks no rule. Not in the module of `shape`: two names that differ only in case cannot be declared in
//! one module.
use crate::node::Node;
use std::marker::Model;

/// The nodes of a schema that breaks no rule, which a contract sees as the node of the root.
pub struct Shape {
    root: Node,
}

impl Drop for Shape {
    fn drop(self) {
        let Shape { root: _ } = self;
    }
}

impl Model for Shape {
    ghost use Rattle.schema.specs.Nodes.Node as Nodes;
    ghost use Rattle.schema.specs.Internal.NodeCode.{node_coded};

    ghost Value = { Nodes.Node };

    ghost coded = { node_coded };

    ghost use Rattle.schema.specs.Nodes.View.{node_of};

    ghost view = { λ a. node_of a.root };

    ghost use Rattle.schema.specs.Nodes.Shape.{IsShape};

    ghost invariant = { λ a. IsShape (node_of a.root) };
}

impl Shape {
    ghost use Rattle.std.specs.Prelude.{◌≡◌};
    ghost use Rattle.schema.specs.Nodes.View.{node_of};
    ghost use Rattle.schema.specs.Nodes.Shape.{IsShape};

    /// The shape with this root.
    pub(crate) fn new(root: Node) -> Shape
        requires { IsShape (node_of root) }
        ensures { result ≡ node_of root }
    {
        Shape { root }
    }

    /// The node of the whole resource.
    pub fn root(&self) -> &Node
        ensures node { node_of result.now ≡ self.now }
        ensures shape { IsShape self.now }
    {
        &self.root
    }
}
