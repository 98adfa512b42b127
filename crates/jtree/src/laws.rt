//! Laws: calls that run nothing, for what their contracts say.
ghost use Rattle.std.specs.Prelude.{◌≡◌, ◌≢◌, ◌↔◌, ℕ, List, ◌+◌, ◌≤◌, ◌++◌, length};
ghost use Rattle.jtree.specs.Data.{Data, IsTree};
ghost use Rattle.jtree.specs.Order.{tree_cmp};
ghost use Rattle.jtree.specs.Before.{IsBefore};
ghost use Rattle.std.specs.declared.cmp.Ordering.TheVariants.{Less, Equal};
ghost use Rattle.std.specs.Cmp.{IsTotalOrder};
ghost use Rattle.std.specs.Ordering.{is_eq};
ghost use Rattle.jtree.specs.Equality.{equal_by, order_by};
ghost use Rattle.jtree.specs.declared.equality.Equality.{Equality};
ghost use Rattle.jtree.specs.OnlyIntegers.{HasOnlyIntegers};
ghost use Rattle.jtree.specs.Reads.{Reads, IsNoDocument};
ghost use Rattle.jtree.specs.ReadsAll.{ReadsAll, IsNoDocumentAll};
ghost use Rattle.jtree.specs.declared.fault.JFault.{JFault};
ghost use Rattle.jtree.specs.declared.fault.JFault.TheVariants.{NotAnInteger};
ghost use Rattle.jtree.specs.Text.{compact};
ghost use Rattle.jtree.specs.Lines.{AreLines};
ghost use Rattle.jtree.specs.Last.{last_depth, with_last, with_part, last_of};
ghost use Rattle.jtree.specs.PartText.{front_text, part_text};
ghost use Rattle.jtree.specs.Nodes.{node_count};
ghost use Rattle.jtree.specs.Internal.LastText.{count};

/// Of two trees, `cmp` answers `Less` exactly where the first is before the second by `IsBefore`.
pub fn order_in_words()
    ensures in_words { (u v : Data) → IsTree u → IsTree v → ((tree_cmp u v ≡ Less) ↔ IsBefore u v) }
{}

/// `cmp` is a total order of trees, and it answers `Equal` only for the same tree.
pub fn order_is_total()
    ensures total { IsTotalOrder tree_cmp }
    ensures same { (u v : Data) → (tree_cmp u v ≡ Equal) ↔ (u ≡ v) }
{}

/// By each equality `compare_by` is a total order of trees, and it answers `Equal` just for those that count as the same.
pub fn orders_by_equality()
    ensures total { (e : Equality) → IsTotalOrder (order_by e) }
    ensures same { (e : Equality) (u v : Data) → is_eq (order_by e u v) ≡ equal_by e u v }
{}

/// Trees with the same compact text are the same tree, however long and deep it is.
pub fn texts_are_unique()
    ensures { (u v : Data) → IsTree u → IsTree v → compact u ≡ compact v → u ≡ v }
{}

/// Bytes that the default reading reads are the same tree where all numbers are read, and it has only integers. The two readings
/// refuse the same bytes, but for those that the default reading refuses for a number.
pub fn readings_agree()
    ensures same { (bytes : List ℕ) (d : Data) → Reads bytes d → ReadsAll bytes d × HasOnlyIntegers d }
    ensures refused { (bytes : List ℕ) (e : JFault) → e ≢ NotAnInteger → (IsNoDocument bytes e ↔ IsNoDocumentAll bytes e) }
    ensures number { (bytes : List ℕ) → IsNoDocument bytes NotAnInteger → (d : Data) × ReadsAll bytes d }
{}

/// Bytes have one list of lines at most.
pub fn lines_are_unique()
    ensures { (bytes : List ℕ) (lines others : List (List ℕ)) → AreLines bytes lines → AreLines bytes others → lines ≡ others }
{}

/// A tree's text is the text before a part followed by the text from the part on, and the text before it depends neither on the
/// part nor on what is deeper. The text around the last node does not depend on that node, and after it is one bracket for each
/// step to it.
pub fn parts_have_their_text()
    ensures whole { (n : ℕ) (d : Data) → compact d ≡ front_text n d ++ part_text n d }
    ensures front { (m n : ℕ) (d v : Data) → m ≤ n → front_text m (with_part n d v) ≡ front_text m d }
    ensures last { (n : ℕ) (d v : Data) → n ≤ last_depth d → front_text n (with_last d v) ≡ front_text n d }
    ensures around { (d : Data) → (front : List ℕ) × (rest : List ℕ) × (length rest ≡ last_depth d) × ((v : Data) → compact (with_last d v) ≡ front ++ (compact v ++ rest)) }
{}

/// A node of count 1 that replaces the last node is itself the last node; to replace the last node by itself changes nothing; and a
/// tree in its place adds its count to that of the other nodes.
pub fn last_node_is_replaced()
    ensures again { (d v w : Data) → node_count v ≡ 1 → with_last (with_last d v) w ≡ with_last d w }
    ensures own { (d : Data) → with_last d (last_of d) ≡ d }
    ensures count { (d v : Data) → node_count (with_last d v) + 1 ≡ node_count d + node_count v }
    ensures last { (d v : Data) → node_count v ≡ 1 → last_of (with_last d v) ≡ v }
    ensures depth { (d v : Data) → node_count v ≡ 1 → last_depth (with_last d v) ≡ last_depth d }
{}
