//! Texts.
use std::marker::Model;

/// A text. Contracts see its code points.
pub struct Text {
    pub text: String,
}

impl Drop for Text {
    fn drop(self) {
        let Text { text: _ } = self;
    }
}

impl Model for Text {
    ghost use Rattle.std.specs.Prelude.{ℕ, List, chars, string_bytes};

    ghost Value = { List ℕ };

    ghost view = { λ a. chars (string_bytes a.text) };
}
