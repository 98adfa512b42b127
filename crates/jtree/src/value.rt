//! Trees: JSON values (RFC 8259).
use crate::number::Number;
use std::marker::Model;

/// A JSON value (RFC 8259). A number is an integer of 64 bits, or another number as its text.
#[cycle(tree)]
#[derive(Drop)]
pub enum Tree {
    Null,
    Bool(bool),
    Int(i64),
    Number(Number),
    Text(Text),
    List(Items),
    Object(Members),
}

/// The trees of a list, in order.
#[cycle(tree)]
#[derive(Drop)]
pub struct Items {
    pub items: Vec<Tree>,
}

/// The members of an object, by the bytes of their names, each name once.
#[cycle(tree)]
#[derive(Drop)]
pub struct Members {
    pub members: Vec<Member>,
}

/// A name and its value.
#[cycle(tree)]
#[derive(Drop)]
pub struct Member {
    pub name: Text,
    pub tree: Tree,
}

/// A text, which a contract sees as its bytes.
pub struct Text {
    pub text: String,
}

impl Drop for Text {
    fn drop(self) {
        let Text { text: _ } = self;
    }
}

impl Model for Text {
    ghost use Rattle.std.specs.Prelude.{ℕ, List, string_bytes};

    ghost Value = { List ℕ };

    ghost view = { λ a. string_bytes a.text };
}

impl Model for Items {
    ghost use Rattle.jtree.specs.Data;
    ghost use Rattle.jtree.specs.Data.{items_depth, AreTrees};
    ghost use Rattle.jtree.specs.Internal.Code.{items_coded};

    ghost Value = { Data.Items };

    ghost coded = { items_coded };

    ghost use Rattle.jtree.specs.View.{items_of};

    ghost view = { λ a. items_of a.items.items };

    ghost invariant = { λ a. AreTrees (items_of a.items.items) };

    ghost size = { items_depth };

    ghost use Rattle.jtree.specs.Internal.Measures.{items_decrease};

    ghost size_decreases = { λ a h. items_decrease a.items.items };
}

impl Model for Members {
    ghost use Rattle.jtree.specs.Data;
    ghost use Rattle.jtree.specs.Data.{members_depth, AreMembers};
    ghost use Rattle.jtree.specs.Internal.Code.{members_coded};

    ghost Value = { Data.Members };

    ghost coded = { members_coded };

    ghost use Rattle.jtree.specs.View.{members_of};

    ghost view = { λ a. members_of a.members.items };

    ghost invariant = { λ a. AreMembers (members_of a.members.items) };

    ghost size = { members_depth };

    ghost use Rattle.jtree.specs.Internal.Measures.{members_decrease};

    ghost size_decreases = { λ a h. members_decrease a.members.items };
}

impl Tree {
    ghost use Rattle.jtree.specs.Data.{IsTree};
    ghost use Rattle.jtree.specs.View.{data_of};

    /// Does nothing: a proof calls it to learn that names are in order, each once, that integers have 64 bits, and that other numbers are
    /// not integers.
    pub fn reveal_invariant(&self)
        ensures { IsTree (data_of self.now) }
    {
        match self {
            Tree::Int(n) => {
                let _value = *n;
            }
            Tree::Number(number) => number.reveal_invariant(),
            Tree::List(items) => items.reveal_invariant(),
            Tree::Object(members) => members.reveal_invariant(),
            _ => {}
        }
    }
}

impl Items {
    ghost use Rattle.jtree.specs.Data.{AreTrees};

    /// Does nothing: a proof calls it to learn that each item is a tree.
    pub fn reveal_invariant(&self)
        ensures { AreTrees self.now }
    {
        // a proof learns what holds of a value where its field is read
        let _ = &self.items;
    }
}

impl Members {
    ghost use Rattle.jtree.specs.Data.{AreMembers};

    /// Does nothing: a proof calls it to learn that names are in order, each once.
    pub fn reveal_invariant(&self)
        ensures { AreMembers self.now }
    {
        let _ = &self.members;
    }
}
