//! The versions of a CustomResourceDefinition by their names.
ghost use Rattle.std.specs.Prelude.{◌≡◌, option_map, OnOk, IfOk, IfErr};
ghost use Rattle.jtree.specs.View.{data_of};
ghost use Rattle.schema.specs.Internal.Faults.{IsVersionsFault};
ghost use Rattle.schema.specs.Document.Crd.{AreVersions};
ghost use Rattle.schema.specs.Internal.Versions.{IsSelected};

use crate::fault::SFault;
use jtree::{Items, Tree};
use std::alloc::Global;
use std::collections::BTreeMap;

/// The version of a name, where each version has a string `name` and no name occurs twice. `NotACrd` where this is not so.
pub(crate) fn select<'a>(
    alloc: Global,
    versions: &'a Items,
    version: &str,
) -> Result<Option<&'a Tree>, SFault>
    ensures versions { OnOk result (AreVersions versions.now) }
    ensures selected { IfOk result (λ found. IsSelected versions.now version.now (option_map (λ t. data_of t.now) found)) }
    ensures err { IfErr result (IsVersionsFault versions.now) }
{
    let mut by_name: BTreeMap<&str, &Tree> = BTreeMap::new(alloc);
    for item in &versions.items {
        let Some(name) = item.get_text("name") else {
            return Err(SFault::NotACrd);
        };
        if by_name.insert(name, item)?.is_some() {
            return Err(SFault::NotACrd); // the name occurs twice
        }
    }
    Ok(by_name.get(version).copied())
}
