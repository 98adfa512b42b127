//! What an enumeration lends its samples to, one after the other.
use jtree::Tree;
use std::alloc::AllocError;

/// The last node of a sample, in the place of another one.
#[derive(Clone, Copy)]
pub struct Replaced<'a> {
    /// What the sample before had in its place.
    pub before: &'a Tree,
    pub node: &'a Tree,
    /// How many levels down it is, by the last item or member of each level, at most 2^64 - 1.
    pub depth: usize,
}

/// Where a sample differs from the one before it; all else is the same.
#[derive(Clone, Copy)]
pub enum Change<'a> {
    /// In its last node.
    Node(Replaced<'a>),
    /// In the part so many levels down, at least one, by the last item or member of each level.
    Part(usize),
}

/// Takes the samples that it is lent.
pub trait Taker {
    ghost use Rattle.std.specs.Prelude.{◌∷◌, ◌++◌, [], List, IfSome, OnOk, OnErr};
    ghost use Rattle.jtree.specs.Data.{Data};
    ghost use Rattle.enumerate.specs.Change.{Changes};
    ghost use Rattle.jtree.specs.View.{data_of};

    // From the first of these states to the second it has taken these samples, in order.
    ghost has_taken: { Self → Self → List Data → Type 0 };

    ghost none_taken: { (now : Self) → has_taken now now [] };

    /// Takes the sample. A `change` says where it differs from the one that was taken before it. It fails where an allocation
    /// fails, and has then taken nothing of it.
    fn take(&mut self, sample: &Tree, change: Option<Change<'_>>) -> Result<(), AllocError>
        requires { IfSome change (λ c. (first : Self) × (items : List Data) × (old : Data) × has_taken first self.old (items ++ old ∷ []) × Changes c old (data_of sample.now)) }
        ensures ok { OnOk result ((first : Self) (items : List Data) → has_taken first self.old items → has_taken first self.new (items ++ data_of sample.now ∷ [])) }
        ensures err { OnErr result ((first : Self) (items : List Data) → has_taken first self.old items → has_taken first self.new items) };
}
