//! The value under a name.
ghost use Rattle.std.specs.Prelude.{◌≡◌, ◌↔◌, ℕ, List, None, Some, IfSome, IsTrue, option_map};
ghost use Rattle.jtree.specs.Data;
ghost use Rattle.jtree.specs.Path.{member_at, under};
ghost use Rattle.jtree.specs.View.{data_of};

use crate::value::{Members, Tree};

impl Members {
    /// The tree under a name, by the bytes of the name, and `None` where no member has the name. It looks at each member
    /// at most once.
    #[inline(always)]
    pub fn get(&self, name: &str) -> Option<&Tree>
        ensures { option_map (λ t. data_of t.now) result ≡ member_at name.now self.now }
    {
        for member in &self.members {
            if name == member.name.as_str() {
                return Some(&member.tree);
            }
        }
        None
    }
}

impl Tree {
    /// The tree under a name of an object, by the bytes of the name. `None` where no member has the name, and for a
    /// tree that is not an object.
    #[inline(always)]
    pub fn get(&self, name: &str) -> Option<&Tree>
        ensures { option_map (λ t. data_of t.now) result ≡ under (data_of self.now) name.now }
    {
        match self {
            Tree::Object(members) => members.get(name),
            _ => None,
        }
    }
    /// The text under a name of an object. `None` where there is none.
    pub fn get_text(&self, name: &str) -> Option<&str>
        ensures some { IfSome result (λ s. under (data_of self.now) name.now ≡ Some (Data.text s.now)) }
        ensures none { result ≡ None → (s : List ℕ) → under (data_of self.now) name.now ≡ Some (Data.text s) → ⊥ }
    {
        match self.get(name) {
            Some(Tree::Text(text)) => Some(text.as_str()),
            _ => None,
        }
    }

    /// Whether an object has this text under the name.
    pub fn has_text(&self, name: &str, text: &str) -> bool
        ensures { IsTrue result ↔ (under (data_of self.now) name.now ≡ Some (Data.text text.now)) }
    {
        match self.get_text(name) {
            Some(found) => found == text,
            None => false,
        }
    }
}
