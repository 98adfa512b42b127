//! Fixed texts.
ghost use Rattle.std.specs.Prelude.{IsTrue};
ghost use Rattle.std.specs.List.{list_all};
ghost use Rattle.std.specs.Char.{is_ascii};

/// A fixed text of ASCII.
#[derive(Clone, Copy, Drop)]
pub(crate) struct Ascii {
    pub(crate) text: &'static str,
    ghost ascii: { IsTrue (list_all is_ascii text.now) },
}
