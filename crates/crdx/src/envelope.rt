//! The envelope of a resource, which no schema has a say in: it is taken off an object, and put back.
ghost use Rattle.std.specs.Prelude.{◌≡◌, ◌+◌, ◌<◌, ◌≤◌, ℕ, List, IfOk, OnOk, OnErr};
ghost use Rattle.std.specs.Vec.{vec_len, vec_capacity};
ghost use Rattle.jtree.specs.Data.{Data, text, Members as MembersData, no_members, IsTree, AreMembers};
ghost use Rattle.jtree.specs.MemberPlace.{without_member};
ghost use Rattle.jtree.specs.Path.{member_at};
ghost use Rattle.jtree.specs.View.{data_of, members_of};
ghost use Rattle.crdx.specs.Output.Envelope.{members_of_envelope};
ghost use Rattle.crdx.specs.Program.Envelope.{body_of, envelope_in, first_of, IsJoined, onto};
ghost use Rattle.crdx.specs.Internal.Members.{in_front};

use crate::walk::Envelope;
use jtree::{Member, Members, Text, Tree, search};
use std::alloc::{AllocError, Global};
use std::marker::Model;

/// The envelope of a resource: its members `apiVersion`, `kind` and `metadata`, as far as they were there.
#[derive(Drop)]
pub struct Parts {
    api_version: Option<Member>,
    kind: Option<Member>,
    metadata: Option<Member>,
}

impl Model for Parts {
    ghost use Rattle.jtree.specs.Data.{Members as MembersData, no_members};
    ghost use Rattle.jtree.specs.Internal.Code.{members_coded};

    ghost Value = { MembersData };

    ghost coded = { members_coded };

    ghost use Rattle.crdx.specs.Program.Envelope.{onto};

    ghost view = { λ a. onto a.api_version (onto a.kind (onto a.metadata no_members)) };
}

/// Takes the envelope, names and values, off an object; nothing off another tree. Takes no memory.
pub fn split(tree: &mut Tree) -> Parts
    ensures body { data_of tree.new ≡ body_of (data_of tree.old) }
    ensures parts { result ≡ envelope_in (data_of tree.old) }
{
    match tree {
        Tree::Object(members) => {
            members.reveal_invariant();
            Parts {
                api_version: take(members, "apiVersion"),
                kind: take(members, "kind"),
                metadata: take(members, "metadata"),
            }
        }
        _ => Parts {
            api_version: None,
            kind: None,
            metadata: None,
        },
    }
}

/// Puts an envelope into an object, in place of what it has under the same names; another tree stays as it is. So a tree
/// that was split is joined to what it was. `AllocError` where an allocation fails, and the tree is then as it was.
pub fn join(tree: &mut Tree, parts: Parts) -> Result<(), AllocError>
    ensures joined { OnOk result (IsJoined (data_of tree.old) parts (data_of tree.new)) }
    ensures again { OnOk result ((v : Data) → IsTree v → body_of v ≡ data_of tree.old → envelope_in v ≡ parts → data_of tree.new ≡ v) }
    ensures refused { OnErr result (data_of tree.new ≡ data_of tree.old) }
{
    if let Tree::Object(members) = tree {
        members.reveal_invariant();
        if let Err(error) = members.members.reserve(3) {
            drop(parts);
            return Err(error);
        }
        put(&mut members.members, parts.metadata);
        put(&mut members.members, parts.kind);
        put(&mut members.members, parts.api_version);
    } else {
        drop(parts);
    }
    Ok(())
}

/// The members of an envelope.
pub(crate) fn parts_of(alloc: Global, envelope: &Envelope) -> Result<Parts, AllocError>
    ensures { IfOk result (λ parts. parts ≡ members_of_envelope envelope.now) }
{
    let mut metadata = Vec::with_capacity(alloc, 1)?;
    metadata.push(text_member(alloc, "name", &envelope.name)?)?;
    Ok(Parts {
        api_version: Some(text_member(alloc, "apiVersion", &envelope.api_version)?),
        kind: Some(text_member(alloc, "kind", &envelope.kind)?),
        metadata: Some(Member {
            name: Text::from_str(alloc, "metadata")?,
            tree: Tree::Object(Members { members: metadata }),
        }),
    })
}

/// The member of a name, with a text.
fn text_member(alloc: Global, name: &str, value: &Text) -> Result<Member, AllocError>
    ensures { IfOk result (λ m. (m.name ≡ name.now) × (data_of m.tree ≡ text value.now)) }
{
    Ok(Member {
        name: Text::from_str(alloc, name)?,
        tree: Tree::Text(value.copy(alloc)?),
    })
}

/// Takes the member of a name off.
fn take(members: &mut Members, name: &str) -> Option<Member>
    ensures rest { members.new ≡ without_member name.now members.old }
    ensures taken { (ms : MembersData) → onto result ms ≡ in_front name.now (member_at name.now members.old) ms }
{
    members.reveal_invariant();
    match search(&members.members, name) {
        Ok(at) => Some(members.members.remove(at)),
        Err(_) => None,
    }
}

/// Puts a member in, in place of the one of its name. There is room for one more.
fn put(members: &mut Vec<Member>, part: Option<Member>)
    requires { vec_len members.old < vec_capacity members.old }
    ensures put { (k : List ℕ) → member_at k (members_of members.new.items) ≡ first_of (member_at k (onto part no_members)) (member_at k (members_of members.old.items)) }
    ensures sorted { AreMembers (members_of members.old.items) → AreMembers (members_of members.new.items) }
    ensures len { vec_len members.new ≤ vec_len members.old + 1 }
    ensures capacity { vec_capacity members.old ≤ vec_capacity members.new }
{
    if let Some(member) = part {
        member.tree.reveal_invariant();
        match search(members, member.name.as_str()) {
            Ok(at) => members[at] = member,
            Err(at) => {
                let _ = members.insert(at, member);
            }
        }
    }
}
