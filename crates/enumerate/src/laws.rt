//! Laws: calls that run nothing, for what their contracts say.
ghost use Rattle.std.specs.Prelude.{◌≡◌, ◌<◌, ◌≤◌, ◌↔◌, ℕ, List, Bool, Option, Some};
ghost use Rattle.jtree.specs.Data.{Data};
ghost use Rattle.jtree.specs.Nodes.{nodes};
ghost use Rattle.plan.specs.Samples.Question.{Question};
ghost use Rattle.enumerate.specs.Limit.{at_limit, IsLastSample};
ghost use Rattle.enumerate.specs.Page.{IsPage, IsPastSample, IsSampleOf};

/// A question has one page past a place with a count, so two such pages have the same items and the same end. A sample stays one at
/// every larger limit, and there the samples past the last one of the smaller limit are exactly those of more nodes than that
/// limit.
pub fn pages_agree()
    ensures items { (q : Question) (after : Option Data) (count : ℕ) (xs ys : List Data) (d e : Bool)
        → IsPage q after count xs d → IsPage q after count ys e → xs ≡ ys }
    ensures end { (q : Question) (after : Option Data) (count : ℕ) (xs ys : List Data) (d e : Bool)
        → IsPage q after count xs d → IsPage q after count ys e → d ≡ e }
    ensures stays { (q : Question) (larger : ℕ) (v : Data)
        → q.limit ≤ larger → IsSampleOf q v → IsSampleOf (at_limit q larger) v }
    ensures past_last { (q : Question) (larger : ℕ) (last v : Data) → q.limit ≤ larger → IsLastSample q last
        → (IsPastSample (at_limit q larger) (Some last) v ↔ (IsSampleOf (at_limit q larger) v × (q.limit < nodes v))) }
{}
