//! Which trees count as the same, and an order in which just these tie.
ghost use Rattle.std.specs.Prelude.{◌≡◌, ◌≢◌, refl};
ghost use Rattle.std.specs.Cmp.{on_total, eq_by_cmp_equiv, partial_equiv_from_equiv, partial_order_from_total};
ghost use Rattle.std.specs.Ordering.{eq_by_cmp, as_partial_cmp, on, ordering_then};
ghost use Rattle.jtree.specs.NumberOrder.{value_cmp};
ghost use Rattle.jtree.specs.Order.{kind, text_cmp};
ghost use Rattle.jtree.specs.OrderBy.{items_by, members_by};
ghost use Rattle.jtree.specs.Equality.{equal_by, kind_cmp, value_order, order_by, rank, keyed_cmp, keyed};
ghost use Rattle.jtree.specs.Internal.EqualityLaws.{keyed_total};
ghost use Rattle.jtree.specs.View.{data_of, items_of, members_of};

use crate::number::Number;
use crate::order::kind_of;
use crate::value::{Member, Tree};
use std::cmp::{OrderedFloat, Ordering};

/// Which trees count as the same.
#[derive(Clone, Copy, Debug, PartialEq, Eq, Drop)]
pub enum Equality {
    /// The same trees, as `==` has it: of `0.5` and `0.50` each is another one.
    Exact,
    /// Those that `has_value_of` takes for the same, where numbers compare by their values.
    ByValue,
}

impl Tree {
    /// Whether the two count as the same.
    pub fn is_equal_by(&self, other: &Tree, equality: Equality) -> bool
        ensures { result ≡ equal_by equality (data_of self.now) (data_of other.now) }
    {
        match equality {
            Equality::Exact => self == other,
            Equality::ByValue => self.has_value_of(other),
        }
    }

    /// A total order in which those tie that count as the same: the tree order, or that by kind and then within it, where numbers
    /// compare by their values alone.
    pub fn compare_by(&self, other: &Tree, equality: Equality) -> Ordering
        ensures { result ≡ order_by equality (data_of self.now) (data_of other.now) }
    {
        match equality {
            Equality::Exact => self.cmp(other),
            Equality::ByValue => compare_values(self, other),
        }
    }
}

/// A tree as a key of an ordered set or map, by what counts as the same.
#[derive(Clone, Copy, Drop)]
pub struct TreeKey<'a> {
    pub tree: &'a Tree,
    pub equality: Equality,
}

impl PartialEq for TreeKey<'_> {
    ghost eq = { eq_by_cmp (on keyed keyed_cmp) };

    ghost laws = { partial_equiv_from_equiv (eq_by_cmp_equiv (on_total keyed keyed_total)) };

    /// Whether the keys tie.
    fn eq(&self, other: &TreeKey<'_>) -> bool {
        self.cmp(other).is_eq()
    }
}

impl Eq for TreeKey<'_> {
    ghost laws = { eq_by_cmp_equiv (on_total keyed keyed_total) };
}

impl PartialOrd for TreeKey<'_> {
    ghost partial_cmp = { as_partial_cmp (on keyed keyed_cmp) };

    ghost laws = { partial_order_from_total (on_total keyed keyed_total) };

    /// The order of keys, as `cmp` has it.
    fn partial_cmp(&self, other: &TreeKey<'_>) -> Option<Ordering> {
        Some(self.cmp(other))
    }
}

impl Ord for TreeKey<'_> {
    ghost cmp = { on keyed keyed_cmp };

    ghost total = { on_total keyed keyed_total };

    ghost matches_partial_cmp = { λ k l. refl };

    ghost matches_eq = { λ k l. refl };

    /// The order by `compare_by`; keys that are compared exactly come before the others.
    fn cmp(&self, other: &TreeKey<'_>) -> Ordering {
        let ranks = rank_of(self.equality).cmp(&rank_of(other.equality));
        ranks.then(self.tree.compare_by(other.tree, self.equality))
    }
}

fn rank_of(equality: Equality) -> u8
    ensures { result ≡ rank equality }
{
    match equality {
        Equality::Exact => 0,
        Equality::ByValue => 1,
    }
}

/// Two trees in the order by values.
#[cycle(values)]
fn compare_values(left: &Tree, right: &Tree) -> Ordering
    ensures { result ≡ value_order (data_of left.now) (data_of right.now) }
{
    match (left, right) {
        (Tree::Null, Tree::Null) => Ordering::Equal,
        (Tree::Bool(a), Tree::Bool(b)) => a.cmp(b),
        (Tree::Int(a), Tree::Int(b)) => a.cmp(b),
        (Tree::Number(a), Tree::Number(b)) => compare_numbers(a, b),
        (Tree::Text(a), Tree::Text(b)) => a.cmp(b),
        (Tree::List(a), Tree::List(b)) => compare_item_values(&a.items, &b.items),
        (Tree::Object(a), Tree::Object(b)) => compare_member_values(&a.members, &b.members),
        _ => compare_kinds(left, right),
    }
}

/// Two numbers by their values alone.
fn compare_numbers(left: &Number, right: &Number) -> Ordering
    ensures { result ≡ value_cmp left.now right.now }
{
    OrderedFloat(left.value()).cmp(&OrderedFloat(right.value()))
}

/// Two trees of different kinds.
fn compare_kinds(left: &Tree, right: &Tree) -> Ordering
    requires { kind (data_of left.now) ≢ kind (data_of right.now) }
    ensures { result ≡ value_order (data_of left.now) (data_of right.now) }
{
    kind_of(left).cmp(&kind_of(right))
}

/// The items of two lists, in order.
#[cycle(values)]
fn compare_item_values(left: &[Tree], right: &[Tree]) -> Ordering
    ensures { result ≡ items_by kind_cmp value_cmp (items_of left.now) (items_of right.now) }
{
    for i in 0..left.len().min(right.len()) {
        let order = compare_values(&left[i], &right[i]);
        if order.is_ne() {
            return order;
        }
    }
    left.len().cmp(&right.len())
}

/// The members of two objects, by name.
#[cycle(values)]
fn compare_member_values(left: &[Member], right: &[Member]) -> Ordering
    ensures { result ≡ members_by kind_cmp value_cmp (members_of left.now) (members_of right.now) }
{
    for i in 0..left.len().min(right.len()) {
        let order = compare_member(&left[i], &right[i]);
        if order.is_ne() {
            return order;
        }
    }
    left.len().cmp(&right.len())
}

/// Two members by their names, the later name first, and then by the values under them.
#[cycle(values)]
fn compare_member(left: &Member, right: &Member) -> Ordering
    ensures { result ≡ ordering_then (text_cmp right.now.name left.now.name) (value_order (data_of left.now.tree) (data_of right.now.tree)) }
{
    let names = right.name.cmp(&left.name);
    if names.is_ne() {
        return names;
    }
    compare_values(&left.tree, &right.tree)
}
