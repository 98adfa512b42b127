//! What is stored at a node, by the rules alone: what is valid there, and is left as it is by pruning and by defaulting. It uses nothing
//! of `stored`.
use jtree::{Equality, Items, Members, Text, Tree};
use judge::{is_long, is_short, passes_enum, passes_maximum, passes_minimum};
use schema::{
    Bounds, Branches, Constraints, Fields, ListNode, ListType, Node, ObjectNode, ScalarKind, Sort,
    Validations,
};

/// Whether a value is stored at a node. Of a null nothing is asked but that the node is nullable, and that no `enum` which is kept as written
/// lists anything; of the value of an open node nothing.
#[cycle(plainly)]
pub fn is_plainly_stored(node: &Node, value: &Tree) -> bool {
    match (value, &node.sort) {
        (Tree::Null, sort) => node.nullable && !lists_choices(sort),
        (_, Sort::Open) => true,
        (_, Sort::Scalar(scalar)) => {
            is_of_kind(scalar.kind, value) && meets(&scalar.validations, Judged::Scalar(value))
        }
        (Tree::Object(members), Sort::Object(object)) => is_object_stored(object, members),
        (Tree::Object(members), Sort::Map(map)) => {
            is_within(map.bounds, members.members.len() as u64)
                && are_values_stored(&map.value.node, members)
        }
        (Tree::List(items), Sort::List(list)) => {
            is_within(list.bounds, items.items.len() as u64)
                && are_apart(list, &items.items)
                && are_items_stored(&list.item.node, items)
        }
        _ => false,
    }
}

fn lists_choices(sort: &Sort) -> bool {
    match sort {
        Sort::Scalar(scalar) => match &scalar.validations.constraints.written {
            Some(schema) => match schema.get("enum") {
                Some(Tree::List(choices)) => !choices.items.is_empty(),
                _ => false,
            },
            None => false,
        },
        _ => false,
    }
}

#[cycle(plainly)]
fn is_object_stored(object: &ObjectNode, members: &Members) -> bool {
    let nothing = Before {
        taken: 0,
        named: &[],
        seen: 0,
    };
    is_within(object.bounds, members.members.len() as u64)
        && meets_junctors(&object.junctors, Judged::Fields(members, nothing))
        && (object.preserves || are_declared(&object.fields, members))
        && are_fields_stored(&object.fields, members)
}

/// Whether pruning drops no member.
fn are_declared(fields: &Fields, members: &Members) -> bool {
    for member in &members.members {
        if !is_declared(fields, &member.name) {
            return false;
        }
    }
    true
}

fn is_declared(fields: &Fields, name: &Text) -> bool {
    for field in &fields.fields {
        if field.name == *name {
            return true;
        }
    }
    false
}

/// Whether no field is absent that is required or that defaulting would add, and each that is there is stored.
#[cycle(plainly)]
fn are_fields_stored(fields: &Fields, members: &Members) -> bool {
    for field in &fields.fields {
        let is_stored = match members.get(field.name.as_str()) {
            Some(value) => is_plainly_stored(&field.node, value),
            None => !field.required && field.default.is_none(),
        };
        if !is_stored {
            return false;
        }
    }
    true
}

#[cycle(plainly)]
fn are_values_stored(node: &Node, members: &Members) -> bool {
    for member in &members.members {
        if !is_plainly_stored(node, &member.tree) {
            return false;
        }
    }
    true
}

#[cycle(plainly)]
fn are_items_stored(node: &Node, items: &Items) -> bool {
    for item in &items.items {
        if !is_plainly_stored(node, item) {
            return false;
        }
    }
    true
}

/// Whether no item repeats an earlier one.
fn are_apart(list: &ListNode, items: &[Tree]) -> bool {
    for (place, item) in items.iter().enumerate() {
        let (earlier, _) = items.split_at(place);
        if repeats_any(list, earlier, item) {
            return false;
        }
    }
    true
}

fn repeats_any(list: &ListNode, earlier: &[Tree], item: &Tree) -> bool {
    for other in earlier {
        if repeats(list, other, item) {
            return true;
        }
    }
    false
}

/// In a set equal items repeat, in a map list objects that have the same under each key.
fn repeats(list: &ListNode, item: &Tree, other: &Tree) -> bool {
    match (list.list_type, item, other) {
        (ListType::Set(equality), _, _) => are_equal(item, other, equality),
        (ListType::Map(equality), Tree::Object(members), Tree::Object(others)) => {
            have_same_keys(&list.keys, members, others, equality)
        }
        _ => false,
    }
}

/// Whether the two are the same, or numbers of the same value where values are compared: items of sets and keys are scalars.
fn are_equal(value: &Tree, other: &Tree, equality: Equality) -> bool {
    match (equality, value, other) {
        (Equality::ByValue, Tree::Number(number), Tree::Number(second)) => {
            number.has_value_of(second)
        }
        _ => *value == *other,
    }
}

fn have_same_keys(keys: &[Text], members: &Members, others: &Members, equality: Equality) -> bool {
    for key in keys {
        let is_same = match (members.get(key.as_str()), others.get(key.as_str())) {
            (Some(value), Some(other)) => are_equal(value, other, equality),
            (None, None) => true,
            _ => false,
        };
        if !is_same {
            return false;
        }
    }
    true
}

fn is_of_kind(kind: ScalarKind, value: &Tree) -> bool {
    match kind {
        ScalarKind::Boolean => matches!(value, Tree::Bool(_)),
        ScalarKind::Integer => matches!(value, Tree::Int(_)),
        ScalarKind::Number => matches!(value, Tree::Int(_) | Tree::Number(_)),
        ScalarKind::String => matches!(value, Tree::Text(_)),
        ScalarKind::IntOrString => matches!(value, Tree::Int(_) | Tree::Text(_)),
    }
}

/// Whether there are neither fewer nor more than the bounds say.
pub fn is_within(bounds: Bounds, count: u64) -> bool {
    bounds.least.unwrap_or(0) <= count && count <= bounds.most.unwrap_or(u64::MAX)
}

/// What is before a place: how many members, and which of the named fields, the first of them at the lowest bit.
#[derive(Clone, Copy)]
pub struct Before<'a> {
    pub taken: u64,
    pub named: &'a [Text],
    pub seen: u8,
}

/// What junctors judge: a scalar, or which fields there are among these members and before them.
#[derive(Clone, Copy)]
pub enum Judged<'a> {
    Scalar(&'a Tree),
    Fields(&'a Members, Before<'a>),
}

/// Whether what is asked beside the junctors is met, and the junctors are.
#[cycle(meets)]
fn meets(validations: &Validations, judged: Judged<'_>) -> bool {
    let constraints = &validations.constraints;
    let is_met = match judged {
        Judged::Scalar(value) => meets_constraints(constraints, value),
        Judged::Fields(members, before) => has_names(&constraints.required.names, members, before),
    };
    is_met && meets_junctors(validations, judged)
}

/// Whether junctors are met, by how many of their branches are.
#[cycle(meets)]
pub fn meets_junctors(validations: &Validations, judged: Judged<'_>) -> bool {
    let all = &validations.all_of;
    let any = &validations.any_of;
    let one = &validations.one_of;
    met_branches(all, judged) == all.branches.len()
        && (any.branches.is_empty() || met_branches(any, judged) > 0)
        && (one.branches.is_empty() || met_branches(one, judged) == 1)
        && met_branches(&validations.negated, judged) == 0
}

#[cycle(meets)]
fn met_branches(branches: &Branches, judged: Judged<'_>) -> usize {
    let mut count: usize = 0;
    for branch in &branches.branches {
        if meets(branch, judged) {
            count = count.saturating_add(1);
        }
    }
    count
}

fn has_names(names: &[Text], members: &Members, before: Before<'_>) -> bool {
    for name in names {
        if members.get(name.as_str()).is_none() && !is_seen(name, before) {
            return false;
        }
    }
    true
}

fn is_seen(name: &Text, before: Before<'_>) -> bool {
    let mut seen = before.seen;
    for other in before.named {
        if *other == *name {
            return seen % 2 == 1;
        }
        seen /= 2;
    }
    false
}

/// A schema that is kept as it is written is asked by `judge`. By the others bounds are asked of integers alone, and lengths of texts alone, in
/// Unicode scalar values.
fn meets_constraints(constraints: &Constraints, value: &Tree) -> bool {
    if let Some(schema) = &constraints.written {
        return meets_written(schema, value);
    }
    let is_within_bounds = match value {
        Tree::Int(number) => is_at_least(constraints, *number) && is_at_most(constraints, *number),
        Tree::Text(text) => is_within(constraints.lengths, text.as_str().chars().count() as u64),
        Tree::Null | Tree::Bool(_) | Tree::Number(_) | Tree::List(_) | Tree::Object(_) => true,
    };
    is_within_bounds && is_choice(constraints, value)
}

fn meets_written(schema: &Members, value: &Tree) -> bool {
    passes_enum(schema.get("enum"), value)
        && passes_minimum(schema, value)
        && passes_maximum(schema, value)
        && is_long(schema, value)
        && is_short(schema, value)
}

fn is_at_least(constraints: &Constraints, number: i64) -> bool {
    match constraints.minimum {
        Some(least) if constraints.exclusive_minimum => number > least,
        Some(least) => number >= least,
        None => true,
    }
}

fn is_at_most(constraints: &Constraints, number: i64) -> bool {
    match constraints.maximum {
        Some(most) if constraints.exclusive_maximum => number < most,
        Some(most) => number <= most,
        None => true,
    }
}

fn is_choice(constraints: &Constraints, value: &Tree) -> bool {
    match &constraints.choices {
        Some(choices) => choices.items.contains(value),
        None => true,
    }
}
