//! The kinds of tokens, and how the reserved words are spelled.
ghost use Rattle.std.specs.Prelude.{◌≡◌, List, ℕ};
ghost use Rattle.sql_lexer.specs.Words.{spelling_of, reserved_kind};

/// What a token is. A reserved word has a kind of its own, named as the word is spelled, as each
/// symbol has.
#[derive(Clone, Copy, Debug, PartialEq, Eq)]
pub enum Kind {
    /// A word that is not reserved.
    Name,
    /// `9`, `9.9` or `.9`.
    Number,
    /// Bytes between quotes.
    Text,
    /// `(`.
    OpenParen,
    /// `)`.
    CloseParen,
    /// `,`.
    Comma,
    /// `;`.
    Semicolon,
    /// `.`.
    Point,
    /// `*`.
    Star,
    /// `+`.
    Plus,
    /// `-`.
    Minus,
    /// `/`.
    Slash,
    /// `=`.
    Equal,
    /// `<>`.
    NotEqual,
    /// `<`.
    Less,
    /// `<=`.
    LessOrEqual,
    /// `>`.
    Greater,
    /// `>=`.
    GreaterOrEqual,
    All,
    And,
    Any,
    As,
    Asc,
    At,
    Avg,
    Between,
    By,
    Case,
    Count,
    Create,
    Date,
    Day,
    Delete,
    Desc,
    Distinct,
    Drop,
    Else,
    End,
    Except,
    Exists,
    Extract,
    Fetch,
    First,
    For,
    From,
    Full,
    Group,
    Having,
    In,
    Inner,
    Insert,
    Intersect,
    Interval,
    Is,
    Join,
    Lateral,
    Left,
    Like,
    Limit,
    Max,
    Min,
    Month,
    Natural,
    Not,
    Null,
    On,
    Only,
    Or,
    Order,
    Outer,
    Refresh,
    Right,
    Rows,
    Run,
    Select,
    Some,
    Substring,
    Sum,
    Then,
    Union,
    Version,
    View,
    When,
    Where,
    With,
    Year,
}

/// The reserved words, which are never names.
const RESERVED: [Kind; 68] = [
    Kind::All,
    Kind::And,
    Kind::Any,
    Kind::As,
    Kind::Asc,
    Kind::At,
    Kind::Avg,
    Kind::Between,
    Kind::By,
    Kind::Case,
    Kind::Count,
    Kind::Create,
    Kind::Date,
    Kind::Day,
    Kind::Delete,
    Kind::Desc,
    Kind::Distinct,
    Kind::Drop,
    Kind::Else,
    Kind::End,
    Kind::Except,
    Kind::Exists,
    Kind::Extract,
    Kind::Fetch,
    Kind::First,
    Kind::For,
    Kind::From,
    Kind::Full,
    Kind::Group,
    Kind::Having,
    Kind::In,
    Kind::Inner,
    Kind::Insert,
    Kind::Intersect,
    Kind::Interval,
    Kind::Is,
    Kind::Join,
    Kind::Lateral,
    Kind::Left,
    Kind::Like,
    Kind::Limit,
    Kind::Max,
    Kind::Min,
    Kind::Month,
    Kind::Natural,
    Kind::Not,
    Kind::Null,
    Kind::On,
    Kind::Only,
    Kind::Or,
    Kind::Order,
    Kind::Outer,
    Kind::Refresh,
    Kind::Right,
    Kind::Rows,
    Kind::Run,
    Kind::Select,
    Kind::Some,
    Kind::Substring,
    Kind::Sum,
    Kind::Then,
    Kind::Union,
    Kind::Version,
    Kind::View,
    Kind::When,
    Kind::Where,
    Kind::With,
    Kind::Year,
];

impl Kind {
    /// A reserved word in lower case; nothing for another kind.
    fn spelling(self) -> &'static [u8]
        ensures { result.now ≡ spelling_of self }
    {
        match self {
            Kind::All => b"all",
            Kind::And => b"and",
            Kind::Any => b"any",
            Kind::As => b"as",
            Kind::Asc => b"asc",
            Kind::At => b"at",
            Kind::Avg => b"avg",
            Kind::Between => b"between",
            Kind::By => b"by",
            Kind::Case => b"case",
            Kind::Count => b"count",
            Kind::Create => b"create",
            Kind::Date => b"date",
            Kind::Day => b"day",
            Kind::Delete => b"delete",
            Kind::Desc => b"desc",
            Kind::Distinct => b"distinct",
            Kind::Drop => b"drop",
            Kind::Else => b"else",
            Kind::End => b"end",
            Kind::Except => b"except",
            Kind::Exists => b"exists",
            Kind::Extract => b"extract",
            Kind::Fetch => b"fetch",
            Kind::First => b"first",
            Kind::For => b"for",
            Kind::From => b"from",
            Kind::Full => b"full",
            Kind::Group => b"group",
            Kind::Having => b"having",
            Kind::In => b"in",
            Kind::Inner => b"inner",
            Kind::Insert => b"insert",
            Kind::Intersect => b"intersect",
            Kind::Interval => b"interval",
            Kind::Is => b"is",
            Kind::Join => b"join",
            Kind::Lateral => b"lateral",
            Kind::Left => b"left",
            Kind::Like => b"like",
            Kind::Limit => b"limit",
            Kind::Max => b"max",
            Kind::Min => b"min",
            Kind::Month => b"month",
            Kind::Natural => b"natural",
            Kind::Not => b"not",
            Kind::Null => b"null",
            Kind::On => b"on",
            Kind::Only => b"only",
            Kind::Or => b"or",
            Kind::Order => b"order",
            Kind::Outer => b"outer",
            Kind::Refresh => b"refresh",
            Kind::Right => b"right",
            Kind::Rows => b"rows",
            Kind::Run => b"run",
            Kind::Select => b"select",
            Kind::Some => b"some",
            Kind::Substring => b"substring",
            Kind::Sum => b"sum",
            Kind::Then => b"then",
            Kind::Union => b"union",
            Kind::Version => b"version",
            Kind::View => b"view",
            Kind::When => b"when",
            Kind::Where => b"where",
            Kind::With => b"with",
            Kind::Year => b"year",
            Kind::Name
            | Kind::Number
            | Kind::Text
            | Kind::OpenParen
            | Kind::CloseParen
            | Kind::Comma
            | Kind::Semicolon
            | Kind::Point
            | Kind::Star
            | Kind::Plus
            | Kind::Minus
            | Kind::Slash
            | Kind::Equal
            | Kind::NotEqual
            | Kind::Less
            | Kind::LessOrEqual
            | Kind::Greater
            | Kind::GreaterOrEqual => b"",
        }
    }
}

/// The reserved word that these bytes are, in lower case.
pub(crate) fn reserved(word: &[u8]) -> Option<Kind>
    ensures { result ≡ reserved_kind word.now }
{
    RESERVED
        .iter()
        .copied()
        .find(|kind| kind.spelling() == word)
}
