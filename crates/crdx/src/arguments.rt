//! The arguments of the command line.

mod command;
mod conflicts;
mod help;
mod reading;
mod request;

pub use command::{MOST_COUNT, MOST_LIMIT};
pub(crate) use reading::input_named;
pub use reading::parse_arguments;
pub use request::{
    CommonArguments, CoverArguments, ExplainArguments, ObjectArguments, ObjectCommand,
    PlanArguments, PoolsArguments, Request, SampleArguments,
};
