//! The fields of a schema.
use crate::fault::XFault;
use crate::field::Field;
use crate::reading::is_path_text;
use crate::walk::{Walk, list_below};
use std::alloc::{AllocError, Global};
use std::marker::Model;
use stored::Schema;

/// The fields that a schema declares, which a contract sees as plain data: each path once, a path before those that
/// continue it, and siblings by the bytes of their names.
pub struct Listing {
    fields: Vec<Field>,
}

impl Drop for Listing {
    fn drop(self) {
        let Listing { fields: _ } = self;
    }
}

impl Model for Listing {
    ghost use Rattle.std.specs.Prelude.{List, map};
    ghost use Rattle.explain.specs.Fields.Field as FieldSpec;
    ghost use Rattle.explain.specs.Internal.FieldCode.{fields_coded};

    ghost Value = { List FieldSpec.Field };

    ghost coded = { fields_coded };

    ghost use Rattle.explain.specs.Fields.View.{field_of};

    ghost view = { λ a. map field_of a.fields.items };
}

impl Listing {
    ghost use Rattle.std.specs.Prelude.{◌≡◌, Some, IfOk, IfErr, map};
    ghost use Rattle.schema.specs.Nodes.Node.{Node};
    ghost use Rattle.explain.specs.Fields.Declared.{IsDeclared, AreFields};
    ghost use Rattle.explain.specs.Fields.Field.{field_at};
    ghost use Rattle.explain.specs.Fields.PathFault.{IsTextOf, IsPathFault};
    ghost use Rattle.explain.specs.Fields.View.{field_of};

    /// The fields that a schema declares (OpenAPI 3.0, Schema Object; apiextensions.k8s.io/v1, JSONSchemaProps): the fields of
    /// objects, the items of lists and the values of maps, outside junctors. Each path is listed once, before those that
    /// continue it, and siblings by the bytes of their names. `AllocError` where an allocation fails. Work is linear in the size of
    /// the schema and of the listing.
    pub fn new(alloc: Global, schema: &Schema) -> Result<Listing, AllocError>
        ensures { IfOk result (λ l. AreFields schema.now l) }
    {
        let root = schema.root();
        root.reveal_invariant();
        let mut walk = Walk {
            path: String::new(alloc),
            fields: Vec::new(alloc),
        };
        list_below(&mut walk, root)?;
        Ok(Listing {
            fields: walk.fields,
        })
    }

    /// The fields, in order.
    pub fn fields(&self) -> &[Field]
        ensures { map field_of result.now ≡ self.now }
    {
        self.fields.as_slice()
    }

    /// The field at the path of this text, which is written as the paths of the fields are. It does not allocate.
    ///
    /// `BadPath` where the text is not that of a path. `NoSuchField` where it is, but the schema declares no field there, as for
    /// the empty text, which is the path of the root.
    pub fn field(&self, path: &str) -> Result<&Field, XFault>
        ensures found { IfOk result (λ f. (root : Node) → AreFields root self.now → IsTextOf (λ p. IsDeclared root p × (field_at root p ≡ Some (field_of f.now))) path.now) }
        ensures fault { IfErr result (λ e. (root : Node) → AreFields root self.now → IsPathFault (IsDeclared root) path.now e) }
    {
        if !is_path_text(path) {
            return Err(XFault::BadPath);
        }
        for field in &self.fields {
            if field.path.as_str() == path {
                return Ok(field);
            }
        }
        Err(XFault::NoSuchField)
    }
}
