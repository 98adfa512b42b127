//! Names and their values.
ghost use Rattle.std.specs.Prelude.{◌≡◌};
ghost use Rattle.cel_eval.specs.Outcome.{bound};
ghost use Rattle.cel_eval.specs.View.{outcome_of, bindings_of};

use crate::answer::{Answer, not_judged};
use crate::stop::Reason;
use cel_ast::Text;
use cel_value::{Value, texts};

/// Names with their values, the innermost first. A name with a leading dot is another one than that without.
#[derive(Clone, Copy)]
pub enum Env<'a> {
    Empty,
    Bound(&'a Text, &'a Value, &'a Env<'a>),
}

impl<'a> Env<'a> {
    /// The value of the name, lent. It is not judged where nothing is bound to it.
    pub(crate) fn find(&self, name: &Text) -> Answer<'a>
        ensures { outcome_of result ≡ bound name.now (bindings_of self.now) }
    {
        match self {
            Env::Empty => not_judged(Reason::Name),
            Env::Bound(bound, value, rest) => {
                if texts::is_same(name, bound) {
                    Answer::Lent(value)
                } else {
                    rest.find(name)
                }
            }
        }
    }
}
