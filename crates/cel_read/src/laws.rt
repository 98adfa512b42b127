//! Laws of the tokens of a text.
ghost use Rattle.std.specs.Prelude.{◌≡◌, List};
ghost use Rattle.cel_read.specs.Lexemes as lexemes;
ghost use Rattle.cel_read.specs.Tokens.{AreTokens};

/// A text has one list of tokens at most.
pub fn tokens_are_unique()
    ensures { (text : lexemes.Text) (some others : List lexemes.Lexeme) → AreTokens text some → AreTokens text others → some ≡ others }
{}
