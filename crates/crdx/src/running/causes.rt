//! Why a run has no answer.
ghost use Rattle.std.specs.Prelude.{◌≡◌};
ghost use Rattle.crdx.specs.Internal.ExitStatus.{status};

use crate::running::exit_status::{FAILED, NO, NO_MEMORY, REFUSED};
use crate::running::schema_patterns::RefusedPattern;
use crate::walk::WFault;
use explain::XFault;
use jtree::JFault;
use plan::PFault;
use schema::{Refused, SFault, Violation};
use std::alloc::AllocError;
use std::fmt;
use stored::LFault;
use suggest::SuggestFault;

/// An input of the program.
#[derive(Clone, Copy, Drop)]
pub(crate) enum Input {
    Crd,
    Object,
    Pools,
    After,
}

impl fmt::Display for Input {
    ghost use Rattle.std.specs.Prelude.{Some};
    ghost use Rattle.crdx.specs.Internal.ExitStatus.{input_name};

    ghost output = { λ i. Some (input_name i) };

    fn fmt<W: fmt::Write>(&self, f: &mut fmt::Formatter<W>) -> fmt::Result {
        match self {
            Input::Crd => write!(f, "crd"),
            Input::Object => write!(f, "object"),
            Input::Pools => write!(f, "pools"),
            Input::After => write!(f, "after"),
        }
    }
}

/// The code of a refusal that names a place.
#[derive(Clone, Copy, Drop)]
pub(crate) enum PlaceCode {
    KeywordForm,
    TooLarge,
    Form,
    BadPath,
    NotInObject,
}

impl fmt::Display for PlaceCode {
    ghost use Rattle.std.specs.Prelude.{Some};
    ghost use Rattle.crdx.specs.Internal.ExitStatus.{code_name};

    ghost output = { λ c. Some (code_name c) };

    fn fmt<W: fmt::Write>(&self, f: &mut fmt::Formatter<W>) -> fmt::Result {
        match self {
            PlaceCode::KeywordForm => write!(f, "S3"),
            PlaceCode::TooLarge => write!(f, "S4"),
            PlaceCode::Form => write!(f, "P1"),
            PlaceCode::BadPath => write!(f, "P5"),
            PlaceCode::NotInObject => write!(f, "P6"),
        }
    }
}

/// Why a run has no answer.
#[derive(Drop)]
pub(crate) enum Cause {
    /// An input could not be opened or read.
    Read(Input),
    /// An input is no document.
    Document(Input, JFault),
    /// The line of this number is no document.
    Line(u64, JFault),
    /// The CustomResourceDefinition has no such version or schema.
    Crd(SFault),
    /// The pools or the limit are refused.
    Pools(PFault),
    /// An input is refused with this code, at a pointer or at the path of a field.
    Place(Input, PlaceCode, String),
    /// The schema breaks rules.
    Violations(Vec<Violation>),
    /// These patterns of the schema are refused.
    Patterns(Vec<RefusedPattern>),
    /// The path leads to no field.
    NoField(XFault),
    /// The object has no leaves, since it is not stored.
    NotStored,
    /// The object to go on from is no sample.
    NotASample,
    /// Standard output took so many whole lines, and then failed.
    Write(u64),
    /// An allocation failed.
    NoMemory,
}

impl Cause {
    /// The exit status: 1 the answer is no, 3 an input is refused, 4 a read or a write failed, 5 out of memory.
    pub fn status(&self) -> u8
        ensures { result ≡ status self.now }
    {
        match self {
            Cause::Violations(_) | Cause::Patterns(_) => NO,
            Cause::NoField(_) | Cause::NotStored | Cause::NotASample => NO,
            Cause::Document(_, _) | Cause::Line(_, _) => REFUSED,
            Cause::Crd(_) | Cause::Pools(_) | Cause::Place(_, _, _) => REFUSED,
            Cause::Read(_) | Cause::Write(_) => FAILED,
            Cause::NoMemory => NO_MEMORY,
        }
    }
}

impl From<AllocError> for Cause {
    ghost use Rattle.std.specs.Prelude.{◌≡◌};
    ghost use Rattle.crdx.specs.declared.running.causes.Cause.TheVariants.{NoMemory};

    ghost from_gives = { λ _ cause. cause ≡ NoMemory };

    fn from(_refused: AllocError) -> Cause {
        Cause::NoMemory
    }
}

impl From<SFault> for Cause {
    ghost use Rattle.std.specs.Prelude.{◌≡◌};
    ghost use Rattle.crdx.specs.Internal.ExitStatus.{cause_of_reading};

    ghost from_gives = { λ fault cause. cause ≡ cause_of_reading fault };

    fn from(fault: SFault) -> Cause {
        match fault {
            SFault::KeywordForm(pointer) => {
                Cause::Place(Input::Crd, PlaceCode::KeywordForm, pointer)
            }
            SFault::TooLarge(pointer) => Cause::Place(Input::Crd, PlaceCode::TooLarge, pointer),
            SFault::NoMemory => Cause::NoMemory,
            other => Cause::Crd(other),
        }
    }
}

impl From<Refused> for Cause {
    ghost use Rattle.std.specs.Prelude.{◌≡◌};
    ghost use Rattle.crdx.specs.Internal.ExitStatus.{cause_of_refusal};

    ghost from_gives = { λ refused cause. cause ≡ cause_of_refusal refused };

    fn from(refused: Refused) -> Cause {
        match refused {
            Refused::Violations(violations) => Cause::Violations(violations),
            Refused::NoMemory => Cause::NoMemory,
        }
    }
}

impl From<XFault> for Cause {
    ghost use Rattle.std.specs.Prelude.{◌≡◌};
    ghost use Rattle.crdx.specs.declared.running.causes.Cause.TheVariants.{NoField};

    ghost from_gives = { λ fault cause. cause ≡ NoField fault };

    fn from(fault: XFault) -> Cause {
        Cause::NoField(fault)
    }
}

impl From<LFault> for Cause {
    ghost use Rattle.std.specs.Prelude.{◌≡◌};
    ghost use Rattle.crdx.specs.Internal.ExitStatus.{cause_of_leaves};

    ghost from_gives = { λ fault cause. cause ≡ cause_of_leaves fault };

    fn from(fault: LFault) -> Cause {
        match fault {
            LFault::NotStored => Cause::NotStored,
            LFault::NoMemory => Cause::NoMemory,
        }
    }
}

impl From<PFault> for Cause {
    ghost use Rattle.std.specs.Prelude.{◌≡◌};
    ghost use Rattle.crdx.specs.Internal.ExitStatus.{cause_of_pools};

    ghost from_gives = { λ fault cause. cause ≡ cause_of_pools fault };

    fn from(fault: PFault) -> Cause {
        match fault {
            PFault::Form(pointer) => Cause::Place(Input::Pools, PlaceCode::Form, pointer),
            PFault::BadPath(path) => Cause::Place(Input::Pools, PlaceCode::BadPath, path),
            PFault::NoMemory => Cause::NoMemory,
            other => Cause::Pools(other),
        }
    }
}

impl From<SuggestFault> for Cause {
    ghost use Rattle.std.specs.Prelude.{◌≡◌};
    ghost use Rattle.crdx.specs.Internal.ExitStatus.{cause_of_suggestion};

    ghost from_gives = { λ fault cause. cause ≡ cause_of_suggestion fault };

    fn from(fault: SuggestFault) -> Cause {
        match fault {
            SuggestFault::BadPath(path) => Cause::Place(Input::Pools, PlaceCode::BadPath, path),
            SuggestFault::NotInObject(path) => {
                Cause::Place(Input::Pools, PlaceCode::NotInObject, path)
            }
            SuggestFault::TooLarge => Cause::Pools(PFault::TooLarge),
            SuggestFault::NoMemory => Cause::NoMemory,
        }
    }
}

impl From<WFault> for Cause {
    ghost use Rattle.std.specs.Prelude.{◌≡◌};
    ghost use Rattle.crdx.specs.Internal.ExitStatus.{cause_of_walk};

    ghost from_gives = { λ fault cause. cause ≡ cause_of_walk fault };

    fn from(fault: WFault) -> Cause {
        match fault {
            WFault::NotASample => Cause::NotASample,
            WFault::NoMemory(_) => Cause::NoMemory,
            WFault::Write(lines) => Cause::Write(lines),
        }
    }
}
