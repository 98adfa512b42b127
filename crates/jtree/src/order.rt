//! The order of trees, and of texts by their bytes.
ghost use Rattle.std.specs.Prelude.{◌≡◌, ◌≢◌, ◌↔◌, ◌+◌, min, refl};
ghost use Rattle.std.specs.Cmp.{IsTotalOrder, on_total, eq_by_cmp_equiv, partial_equiv_from_equiv, partial_order_from_total};
ghost use Rattle.std.specs.Str.{bytes_eq};
ghost use Rattle.std.specs.Cmp.Lexicographic.{texts_po, texts_ties};
ghost use Rattle.std.proofs.lemmas.Cmp.{nat_list_eq_equiv};
ghost use Rattle.std.specs.Ordering.{eq_by_cmp, as_partial_cmp, on, is_eq, nat_cmp, ordering_then};
ghost use Rattle.jtree.specs.Data.{Data, IsTree};
ghost use Rattle.jtree.specs.View.{data_of, items_of, members_of};
ghost use Rattle.jtree.specs.Nodes.{nodes, items_count, members_count, most_nodes};
ghost use Rattle.jtree.specs.Order.{kind, text_cmp, items_cmp, members_cmp, tree_cmp};
ghost use Rattle.jtree.specs.NumberOrder.{number_cmp};
ghost use Rattle.jtree.specs.Internal.OrderLaws.{text_total, tree_total, number_total, number_tied, number_po};
ghost use Rattle.jtree.specs.Before.{IsBefore};
ghost use Rattle.std.specs.declared.cmp.Ordering.TheVariants.{Less, Equal};

use crate::nodes::{items_nodes, members_nodes};
use crate::number::Number;
use crate::value::{Member, Text, Tree};
use std::cmp::{OrderedFloat, Ordering};

impl PartialEq for Text {
    ghost eq = { bytes_eq };

    ghost laws = { partial_equiv_from_equiv nat_list_eq_equiv };

    /// Whether the texts have the same bytes.
    fn eq(&self, other: &Text) -> bool {
        self.text.as_str() == other.text.as_str()
    }
}

impl Eq for Text {
    ghost laws = { nat_list_eq_equiv };
}

impl PartialOrd for Text {
    ghost partial_cmp = { as_partial_cmp text_cmp };

    ghost laws = { texts_po };

    /// The order by bytes.
    fn partial_cmp(&self, other: &Text) -> Option<Ordering> {
        Some(self.cmp(other))
    }
}

impl Ord for Text {
    ghost cmp = { text_cmp };

    ghost total = { text_total };

    ghost matches_partial_cmp = { λ a b. refl };

    ghost matches_eq = { λ a b. texts_ties a b };

    /// The order by bytes.
    fn cmp(&self, other: &Text) -> Ordering {
        self.text.as_str().cmp(other.text.as_str())
    }
}

impl PartialEq for Number {
    ghost eq = { bytes_eq };

    ghost laws = { partial_equiv_from_equiv nat_list_eq_equiv };

    /// Whether the numbers have the same text.
    fn eq(&self, other: &Number) -> bool {
        self.as_str() == other.as_str()
    }
}

impl Eq for Number {
    ghost laws = { nat_list_eq_equiv };
}

impl PartialOrd for Number {
    ghost partial_cmp = { as_partial_cmp number_cmp };

    ghost laws = { number_po };

    /// The order by value, as `cmp` has it.
    fn partial_cmp(&self, other: &Number) -> Option<Ordering> {
        Some(self.cmp(other))
    }
}

impl Ord for Number {
    ghost cmp = { number_cmp };

    ghost total = { number_total };

    ghost matches_partial_cmp = { λ a b. refl };

    ghost matches_eq = { number_tied };

    /// The order by value, which is the nearest float, and then by the bytes of the text.
    fn cmp(&self, other: &Number) -> Ordering {
        let values = OrderedFloat(self.value()).cmp(&OrderedFloat(other.value()));
        values.then(self.as_str().cmp(other.as_str()))
    }
}

impl PartialEq for Tree {
    ghost eq = { eq_by_cmp (on data_of tree_cmp) };

    ghost laws = { partial_equiv_from_equiv (eq_by_cmp_equiv (on_total data_of tree_total)) };

    /// Whether the two are the same tree.
    #[inline(always)]
    fn eq(&self, other: &Tree) -> bool {
        match (self, other) {
            (Tree::Bool(a), Tree::Bool(b)) => a == b,
            (Tree::Int(a), Tree::Int(b)) => a == b,
            (Tree::Text(a), Tree::Text(b)) => a == b,
            _ => is_same(self, other),
        }
    }
}

impl Eq for Tree {
    ghost laws = { eq_by_cmp_equiv (on_total data_of tree_total) };
}

impl PartialOrd for Tree {
    ghost partial_cmp = { as_partial_cmp (on data_of tree_cmp) };

    ghost laws = { partial_order_from_total (on_total data_of tree_total) };

    /// The tree order, as `cmp` has it.
    fn partial_cmp(&self, other: &Tree) -> Option<Ordering> {
        Some(self.cmp(other))
    }
}

impl Ord for Tree {
    ghost cmp = { on data_of tree_cmp };

    ghost total = { on_total data_of tree_total };

    ghost matches_partial_cmp = { λ u v. refl };

    ghost matches_eq = { λ u v. refl };

    /// The tree order: by the count of nodes, then by kind (null, boolean, integer, other number, string, list, object), and then
    /// within the kind. Other numbers are decided by value, and then by the bytes of their texts; strings by their bytes. Lists are
    /// decided at the first index where they differ, and one that ends there comes first. Objects are decided at the least name, by
    /// bytes, where they differ, and one without that name comes first.
    fn cmp(&self, other: &Tree) -> Ordering {
        match (self, other) {
            (Tree::Bool(a), Tree::Bool(b)) => a.cmp(b),
            (Tree::Int(a), Tree::Int(b)) => a.cmp(b),
            (Tree::Text(a), Tree::Text(b)) => a.cmp(b),
            _ => compare(self, other).order,
        }
    }
}

/// The rank of a tree's kind: null, boolean, integer, other number, string, list, object.
pub(crate) fn kind_of(tree: &Tree) -> u8
    ensures { result ≡ kind (data_of tree.now) }
{
    match tree {
        Tree::Null => 0,
        Tree::Bool(_) => 1,
        Tree::Int(_) => 2,
        Tree::Number(_) => 3,
        Tree::Text(_) => 4,
        Tree::List(_) => 5,
        Tree::Object(_) => 6,
    }
}

/// Whether the two are the same tree.
#[cycle(same)]
fn is_same(left: &Tree, right: &Tree) -> bool
    ensures { result ≡ is_eq (tree_cmp (data_of left.now) (data_of right.now)) }
{
    match (left, right) {
        (Tree::Null, Tree::Null) => true,
        (Tree::Bool(a), Tree::Bool(b)) => a == b,
        (Tree::Int(a), Tree::Int(b)) => a == b,
        (Tree::Number(a), Tree::Number(b)) => a == b,
        (Tree::Text(a), Tree::Text(b)) => a == b,
        (Tree::List(a), Tree::List(b)) => are_same_items(&a.items, &b.items),
        (Tree::Object(a), Tree::Object(b)) => are_same_members(&a.members, &b.members),
        _ => false,
    }
}

/// Whether the two have the same items in the same order.
#[cycle(same)]
fn are_same_items(left: &[Tree], right: &[Tree]) -> bool
    ensures { result ≡ is_eq (items_cmp (items_of left.now) (items_of right.now)) }
{
    if left.len() != right.len() {
        return false;
    }
    for i in 0..left.len() {
        if !is_same(&left[i], &right[i]) {
            return false;
        }
    }
    true
}

/// Whether the two have the same names, with the same trees under them.
#[cycle(same)]
fn are_same_members(left: &[Member], right: &[Member]) -> bool
    ensures { result ≡ is_eq (members_cmp (members_of left.now) (members_of right.now)) }
{
    if left.len() != right.len() {
        return false;
    }
    for i in 0..left.len() {
        if !is_same_member(&left[i], &right[i]) {
            return false;
        }
    }
    true
}

/// Whether the two have the same name, with the same tree under it.
#[cycle(same)]
fn is_same_member(left: &Member, right: &Member) -> bool
    ensures { let names = text_cmp right.now.name left.now.name in
        let trees = tree_cmp (data_of left.now.tree) (data_of right.now.tree) in
        result ≡ is_eq (ordering_then names trees) }
{
    left.name == right.name && is_same(&left.tree, &right.tree)
}

/// The result of one walk over two trees, or over the parts of two.
#[derive(Drop)]
struct Compared {
    /// The nodes on the left, at most 2^64 - 1.
    left: u64,
    /// The nodes on the right, at most 2^64 - 1.
    right: u64,
    /// How the left compares with the right.
    order: Ordering,
}

impl Compared {
    /// No parts.
    fn nothing() -> Compared
        ensures left { result.left ≡ 0 }
        ensures right { result.right ≡ 0 }
        ensures order { result.order ≡ Equal }
    {
        Compared {
            left: 0,
            right: 0,
            order: Ordering::Equal,
        }
    }

    /// Two trees of one kind and of one node each, whose contents compare as `order` says.
    fn leaves(order: Ordering) -> Compared
        ensures left { result.left ≡ 1 }
        ensures right { result.right ≡ 1 }
        ensures order { result.order ≡ order }
    {
        Compared {
            left: 1,
            right: 1,
            order,
        }
    }

    /// These parts, and then the next ones: the first order that is not `Equal` decides, and the counts add up.
    fn then(self, next: Compared) -> Compared
        ensures left { result.left ≡ min (self.left + next.left) most_nodes }
        ensures right { result.right ≡ min (self.right + next.right) most_nodes }
        ensures order { result.order ≡ ordering_then self.order next.order }
    {
        Compared {
            left: self.left.saturating_add(next.left),
            right: self.right.saturating_add(next.right),
            order: self.order.then(next.order),
        }
    }

    /// Two lists, or two objects, with these parts: the counts of nodes decide first.
    fn whole(self) -> Compared
        ensures left { result.left ≡ min (1 + self.left) most_nodes }
        ensures right { result.right ≡ min (1 + self.right) most_nodes }
        ensures order { result.order ≡ ordering_then (nat_cmp (min (1 + self.left) most_nodes) (min (1 + self.right) most_nodes)) self.order }
    {
        let left = self.left.saturating_add(1);
        let right = self.right.saturating_add(1);
        Compared {
            left,
            right,
            order: left.cmp(&right).then(self.order),
        }
    }
}

/// Two trees in the tree order, with their counts of nodes. It visits each node once.
#[cycle(compare)]
fn compare(left: &Tree, right: &Tree) -> Compared
    ensures left { result.left ≡ nodes (data_of left.now) }
    ensures right { result.right ≡ nodes (data_of right.now) }
    ensures order { result.order ≡ tree_cmp (data_of left.now) (data_of right.now) }
{
    match (left, right) {
        (Tree::Null, Tree::Null) => Compared::leaves(Ordering::Equal),
        (Tree::Bool(a), Tree::Bool(b)) => Compared::leaves(a.cmp(b)),
        (Tree::Int(a), Tree::Int(b)) => Compared::leaves(a.cmp(b)),
        (Tree::Number(a), Tree::Number(b)) => Compared::leaves(a.cmp(b)),
        (Tree::Text(a), Tree::Text(b)) => Compared::leaves(a.cmp(b)),
        (Tree::List(a), Tree::List(b)) => compare_items(&a.items, &b.items).whole(),
        (Tree::Object(a), Tree::Object(b)) => compare_members(&a.members, &b.members).whole(),
        _ => compare_kinds(left, right),
    }
}

/// Two trees of different kinds.
fn compare_kinds(left: &Tree, right: &Tree) -> Compared
    requires { kind (data_of left.now) ≢ kind (data_of right.now) }
    ensures left { result.left ≡ nodes (data_of left.now) }
    ensures right { result.right ≡ nodes (data_of right.now) }
    ensures order { result.order ≡ tree_cmp (data_of left.now) (data_of right.now) }
{
    let nodes_left = left.nodes();
    let nodes_right = right.nodes();
    let by_count = nodes_left.cmp(&nodes_right);
    let by_kind = kind_of(left).cmp(&kind_of(right));
    Compared {
        left: nodes_left,
        right: nodes_right,
        order: by_count.then(by_kind),
    }
}

/// The items of two lists, in order, with their counts of nodes.
#[cycle(compare)]
fn compare_items(left: &[Tree], right: &[Tree]) -> Compared
    ensures left { result.left ≡ min (items_count (items_of left.now)) most_nodes }
    ensures right { result.right ≡ min (items_count (items_of right.now)) most_nodes }
    ensures order { result.order ≡ items_cmp (items_of left.now) (items_of right.now) }
{
    let both = left.len().min(right.len());
    let mut found = Compared::nothing();
    for i in 0..both {
        found = found.then(compare(&left[i], &right[i]));
    }
    found.then(Compared {
        left: items_nodes(&left[both..]),
        right: items_nodes(&right[both..]),
        order: left.len().cmp(&right.len()),
    })
}

/// The members of two objects, by name, with their counts of nodes.
#[cycle(compare)]
fn compare_members(left: &[Member], right: &[Member]) -> Compared
    ensures left { result.left ≡ min (members_count (members_of left.now)) most_nodes }
    ensures right { result.right ≡ min (members_count (members_of right.now)) most_nodes }
    ensures order { result.order ≡ members_cmp (members_of left.now) (members_of right.now) }
{
    let both = left.len().min(right.len());
    let shorter_first = left.len().cmp(&right.len());
    let mut found = Compared::nothing();
    for i in 0..both {
        let before = &left[i];
        let after = &right[i];
        found.order = found.order.then(after.name.cmp(&before.name));
        found = found.then(compare(&before.tree, &after.tree));
    }
    found.then(Compared {
        left: members_nodes(&left[both..]),
        right: members_nodes(&right[both..]),
        order: shorter_first,
    })
}
