//! Names that a schema lists.
ghost use Rattle.std.specs.Prelude.{◌≡◌};
ghost use Rattle.schema.specs.Document.Texts.{is_among};

use jtree::Text;
use std::marker::Model;

/// The names under `required`, as written.
#[derive(Drop)]
pub struct Names {
    pub names: Vec<Text>,
}

impl Model for Names {
    ghost use Rattle.std.specs.Prelude.{ℕ, List};

    ghost Value = { List (List ℕ) };

    ghost view = { λ a. a.names.items };
}

/// Whether a text is one of these, by its bytes.
pub fn is_among(text: &str, texts: &[Text]) -> bool
    ensures { result ≡ is_among text.now texts.now }
{
    for other in texts {
        if text == other.as_str() {
            return true;
        }
    }
    false
}
