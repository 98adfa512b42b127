//! Profiles by their names, and how documents are read under each.
ghost use Rattle.std.specs.Prelude.{◌≡◌};
ghost use Rattle.crdx.specs.Program.Profiles as spec;

use jtree::Numbers;
use schema::Profile;

/// The profile of this name: `Cluster` for `cluster`, and else `Core`.
pub(crate) fn named(name: &str) -> Profile
    ensures { result ≡ spec.named name.now }
{
    match name {
        "cluster" => Profile::Cluster,
        _ => Profile::Core,
    }
}

/// The numbers that documents may have: integers of 64 bits, or, as a cluster reads them, each number of JSON within the range of floats.
pub(crate) fn numbers_by(profile: Profile) -> Numbers
    ensures { result ≡ spec.numbers_by profile }
{
    match profile {
        Profile::Core => Numbers::Integers,
        Profile::Cluster => Numbers::All,
    }
}
