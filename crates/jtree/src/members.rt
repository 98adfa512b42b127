//! Members by their names: where one belongs, and one that is put in or taken off.
ghost use Rattle.std.specs.Prelude.{◌≡◌, ◌≤◌, ◌<◌, true, false, length, IfOk, IfErr, OnOk, OnErr, option_map};
ghost use Rattle.jtree.specs.MemberPlace.{IsPlace, with_member, without_member};
ghost use Rattle.jtree.specs.Path.{member_at};
ghost use Rattle.jtree.specs.View.{data_of};

use crate::value::{Member, Members, Text, Tree};
use std::alloc::AllocError;
use std::cmp::Ordering;
use std::mem;

/// The index of the member of a name, or else, as `Err`, the one at which it belongs. It looks at each member at most once, from the
/// first one on.
pub fn search(members: &[Member], name: &str) -> Result<usize, usize>
    ensures found { IfOk result (λ i. IsPlace true name.now members.now i) }
    ensures absent { IfErr result (λ i. IsPlace false name.now members.now i) }
    ensures within { IfOk result (λ i. i < length members.now) }
    ensures belongs { IfErr result (λ i. i ≤ length members.now) }
{
    for (i, member) in members.iter().enumerate() {
        match name.cmp(member.name.as_str()) {
            Ordering::Less => return Err(i),
            Ordering::Equal => return Ok(i),
            Ordering::Greater => {}
        }
    }
    Err(members.len())
}

impl Members {
    /// Puts a member in where its name belongs, in place of the one of its name, whose tree is the answer. `AllocError` where an
    /// allocation fails, and the members are then as they were.
    pub fn insert(&mut self, name: Text, tree: Tree) -> Result<Option<Tree>, AllocError>
        ensures put { OnOk result (self.new ≡ with_member name (data_of tree) self.old) }
        ensures was { IfOk result (λ t. option_map data_of t ≡ member_at name self.old) }
        ensures err { OnErr result (self.new ≡ self.old) }
    {
        self.reveal_invariant();
        tree.reveal_invariant();
        match search(&self.members, name.as_str()) {
            Ok(at) => {
                let old = mem::replace(&mut self.members[at], Member { name, tree });
                Ok(Some(old.tree))
            }
            Err(at) => {
                self.members.insert(at, Member { name, tree })?;
                Ok(None)
            }
        }
    }

    /// Takes the member of a name off, and answers its tree. `None` where no member has the name.
    pub fn remove(&mut self, name: &str) -> Option<Tree>
        ensures rest { self.new ≡ without_member name.now self.old }
        ensures was { option_map data_of result ≡ member_at name.now self.old }
    {
        self.reveal_invariant();
        match search(&self.members, name) {
            Ok(at) => {
                let old = self.members.remove(at);
                Some(old.tree)
            }
            Err(_) => None,
        }
    }
}
