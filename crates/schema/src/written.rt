//! Reads a CustomResourceDefinition with the forms that a cluster reads (apiextensions.k8s.io/v1, JSONSchemaProps).
ghost use Rattle.std.specs.Prelude.{◌≡◌, IfOk, IfErr};
ghost use Rattle.jtree.specs.View.{data_of};
ghost use Rattle.schema.specs.Document.Crd.{IsRead};
ghost use Rattle.schema.specs.Document.Forms.{HasWrittenForms};
ghost use Rattle.schema.specs.Document.Limits.{IsWithinLimits};
ghost use Rattle.schema.specs.Document.ReadFault.{IsWrittenFault};

use crate::definition::checked_definition;
use crate::fault::SFault;
use crate::forms::Form;
use crate::limits::Limits;
use jtree::{Text, Tree};
use std::alloc::Global;

/// What is read of a CustomResourceDefinition whose schema is taken as it is written.
#[derive(Drop)]
pub struct Written {
    /// The API group of the resources.
    pub group: Text,
    /// The kind of the resources.
    pub kind: Text,
    /// The name of the version that was asked for.
    pub version: Text,
    /// The schema of that version.
    pub schema: Tree,
}

/// As `read_crd_within`, but the keywords have the forms that a cluster reads (apiextensions.k8s.io/v1, JSONSchemaProps):
/// `minimum`, `maximum` and `multipleOf` may be fractions, the lists of `allOf`, `anyOf` and `oneOf` may be empty, and `pattern`,
/// `id`, `$ref`, `$schema`, `x-kubernetes-embedded-resource`, `patternProperties` and `definitions` have forms too.
///
/// The faults are those of `read_crd`, in the same order: `KeywordForm` where a keyword has not one of these forms.
pub fn read_written(
    alloc: Global,
    document: &Tree,
    version: &str,
    limits: Limits,
) -> Result<Written, SFault>
    ensures ok { IfOk result (λ w. IsRead (data_of document.now) version.now w.group w.kind (data_of w.schema)) }
    ensures version { IfOk result (λ w. w.version ≡ version.now) }
    ensures forms { IfOk result (λ w. HasWrittenForms (data_of w.schema)) }
    ensures within { IfOk result (λ w. IsWithinLimits limits (data_of w.schema)) }
    ensures err { IfErr result (IsWrittenFault limits (data_of document.now) version.now) }
{
    let definition = match checked_definition(
        alloc,
        Form::WrittenSchema,
        document,
        version,
        limits,
    ) {
        Ok(definition) => definition,
        Err(fault) => return Err(fault),
    };
    Ok(Written {
        group: Text::from_str(alloc, definition.group)?,
        kind: Text::from_str(alloc, definition.kind)?,
        version: Text::from_str(alloc, version)?,
        schema: definition.schema.try_clone(alloc)?,
    })
}
