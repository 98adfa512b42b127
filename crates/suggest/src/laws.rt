//! Laws: calls that run nothing, for what their contracts say.
ghost use Rattle.std.specs.Prelude.{◌≡◌, Some};
ghost use Rattle.jtree.specs.Data.{Data, IsTree};
ghost use Rattle.schema.specs.Nodes.Node.{Node, IsNode};
ghost use Rattle.schema.specs.Nodes.ByPlace.{node_at};
ghost use Rattle.stored.specs.Objects.Becomes.{IsStored};
ghost use Rattle.explain.specs.Paths.FieldPath.{FieldPath, place_of};
ghost use Rattle.suggest.specs.Suggested.Reached.{IsBounded, IsWithinReach, HasCandidateLike};
ghost use Rattle.suggest.specs.Suggested.FromObjects.{WhatStandsThereIsACandidate};
ghost use Rattle.suggest.specs.Suggested.LeftOut.{NoSampleHasALeftOutPath};
ghost use Rattle.suggest.specs.Suggested.VariedSamples.{SamplesAreTheObjectOutside, TheObjectIsASample, IntegersAreLeast};

/// Where a scalar without `enum` and junctors accepts some boolean, some integer, or some string of at most 64 characters, a
/// value of that kind is a candidate for its node over the suggested pools. For integers and texts this holds where the suggested
/// document was not cut after 64 of them. Nothing is said of a scalar that is asked by its schema as it is written, as each is where the
/// schema is read by `Profile::Cluster`.
pub fn suggested_values_reach_scalars()
    ensures { (raw : Data) (root : Node) (p : FieldPath) (N : Node) (v : Data) → IsNode root → node_at root (place_of p) ≡ Some N → IsBounded N → IsTree v → IsStored N v → IsWithinReach root v → HasCandidateLike raw root p N v }
{
    stored::laws::stored_by_parts();
    explain::laws::paths_have_one_text();
}

/// Outside of the varied paths each sample over the pools around an object is as the object. Where the object has a value there the
/// sample has the same value, and where it has none the sample has none.
pub fn samples_are_the_object_outside()
    ensures { SamplesAreTheObjectOutside }
{
    stored::laws::stored_by_parts();
    explain::laws::paths_have_one_text();
}

/// An object that is stored and within the limit is itself a sample over the pools around it, where these cut nothing and where, on
/// the way to varied paths, at these and below, objects have members of declared names alone. Where the schema is read by
/// `Profile::Cluster`, scalars with `enum` have to be there as that lists them, and of numbers of one value that are listed for a path,
/// as 0.5 and 0.50, only the least is in samples, so the object has to have that one. Of integers nothing is asked.
pub fn the_object_is_a_sample()
    ensures sample { TheObjectIsASample }
    ensures integers { IntegersAreLeast }
{
    stored::laws::stored_by_parts();
    explain::laws::paths_have_one_text();
}

/// No sample over the suggested pools has a path that is left out.
pub fn no_sample_has_a_left_out_path()
    ensures { NoSampleHasALeftOutPath }
{
    explain::laws::paths_have_one_text();
}

/// What stands in an object at a scalar or an open node, and is stored there, is a candidate there over the pools that are suggested
/// from objects, within any limit that its nodes are within, where the document has a list for its path that is not full. Of numbers of
/// one value in that list, as 0.5 and 0.50, the least alone is a candidate. Paths that are left out count as absent.
pub fn what_stands_there_is_a_candidate()
    ensures { WhatStandsThereIsACandidate }
{
    stored::laws::stored_by_parts();
    explain::laws::paths_have_one_text();
}
