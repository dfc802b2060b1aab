//! Tokens and what they hold.
ghost use Rattle.std.specs.Prelude.{◌≡◌};
ghost use Rattle.sql_lexer.specs.Kinds as kinds;

use crate::kind::Kind;
use base_decimal::Scale;
use base_text::Text;

/// What a token holds beside its kind.
#[derive(Drop)]
pub enum Content {
    /// A symbol or a reserved word.
    Nothing,
    /// A name in lower case, or a text without its quotes.
    Text(Text),
    /// A number's coefficient and how many of its digits stand after the point.
    Number(i128, Scale),
}

/// A token: its kind, its content, and its bytes in the script, `len` of them from byte `start` on.
#[derive(Drop)]
pub struct Token {
    /// A name, a number, a text, a symbol or a reserved word.
    pub kind: Kind,
    /// What its bytes mean beside that.
    pub content: Content,
    /// The place of its first byte in the script, counted from 0.
    pub start: usize,
    /// How many bytes it has.
    pub len: usize,
}

impl Token {
    /// Whether the token is of this kind.
    #[tactic(auto, unfolding(crate::specs::Kinds::is))]
    pub fn is(&self, kind: Kind) -> bool
        ensures { result ≡ kinds.is kind self.now }
    {
        self.kind == kind
    }
}
