//! Values of the Common Expression Language.
//!
//! A [`Value`] is plain data: contracts see it as `Value` of the specs. Values of types that crdx does not know (timestamps, bytes, unsigned and
//! floating-point numbers) are none.
//!
//! ```
//! let one = cel_value::Value::Int(1);
//! assert!(rt; one.is_same(&cel_value::Value::Int(1)));
//! assert!(rt; !one.is_same(&cel_value::Value::Null));
//! ```
#![tactic(auto)]

mod copy;
mod key;
mod same;
pub mod texts;
mod value;

pub use key::BorrowedKey;
pub use value::{Entries, Entry, Key, Value, Values};
