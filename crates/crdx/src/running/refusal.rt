//! Why a run has no answer, with what explains it.
ghost use Rattle.std.specs.Prelude.{◌≡◌};

use crate::inputs::InputName;
use crate::running::causes::Cause;
use jtree::Tree;
use std::alloc::AllocError;
use stored::Schema;

/// Why a run has no answer, with what `--why` explains it by.
#[derive(Drop)]
pub(crate) struct Refusal<'a> {
    pub cause: Cause,
    pub subject: Subject<'a>,
}

/// What a refusal is about.
#[derive(Drop)]
pub(crate) enum Subject<'a> {
    /// Nothing of which more could be said.
    Nothing,
    /// The input of this name.
    Input(InputName<'a>),
    /// The bytes of a document, as far as they were read.
    Bytes(Vec<u8>),
    /// The text of an argument.
    Text(&'a str),
    /// A CustomResourceDefinition.
    Definition(Tree),
    /// A pools document.
    Pools(Tree),
    /// A CustomResourceDefinition, and the pools document for its schema.
    Paths {
        definition: Tree,
        pools: Option<Tree>,
    },
    /// A path into a schema.
    Field {
        schema: Schema,
        path: Option<&'a str>,
    },
    /// The body of an object of a schema.
    Object {
        schema: Schema,
        body: Tree,
    },
    /// The object to go on from, where samples have at most so many nodes.
    After {
        limit: u32,
        body: Option<Tree>,
    },
    /// So many objects, for which pools are to be suggested.
    Objects {
        schema: Schema,
        count: usize,
    },
}

impl<'a> Refusal<'a> {
    /// This refusal, about the subject where it is about nothing.
    pub fn about(self, subject: Subject<'a>) -> Refusal<'a>
        ensures { result.cause ≡ self.entry.cause }
    {
        let Refusal {
            cause,
            subject: known,
        } = self;
        match known {
            Subject::Nothing => Refusal { cause, subject },
            known => {
                drop(subject);
                Refusal {
                    cause,
                    subject: known,
                }
            }
        }
    }
}

impl From<Cause> for Refusal<'_> {
    ghost use Rattle.std.specs.Prelude.{◌≡◌};

    ghost from_gives = { λ cause refusal. refusal.cause ≡ cause };

    fn from(cause: Cause) -> Self {
        Refusal {
            cause,
            subject: Subject::Nothing,
        }
    }
}

impl From<AllocError> for Refusal<'_> {
    ghost use Rattle.std.specs.Prelude.{◌≡◌};
    ghost use Rattle.crdx.specs.declared.running.causes.Cause.TheVariants.{NoMemory};

    ghost from_gives = { λ _ refusal. refusal.cause ≡ NoMemory };

    fn from(_refused: AllocError) -> Self {
        Refusal {
            cause: Cause::NoMemory,
            subject: Subject::Nothing,
        }
    }
}
