//! What the places of templates take.
ghost use Rattle.std.specs.Prelude.{◌≡◌, ◌≤◌, IsTrue, is_some, length};
ghost use Rattle.base_date.specs.Date.{date_of};
ghost use Rattle.sql_ast.specs.declared.statement.TemplateValue.TheVariants as value;
ghost use Rattle.sql_templates.specs.Templates.{fits, is_query, template_of};
ghost use Rattle.sql_templates.specs.Writable.{IsWritable};

use base_date::CivilDate;
use sql_ast::TemplateValue;

/// What the most bytes of a text are that is put into a template.
pub const MAX_TEXT: usize = 1000;

/// What the greatest whole number is that is put into a template.
pub const MAX_WHOLE: i128 = 999_999;

/// What a place of a template takes.
#[derive(Clone, Copy, Debug, PartialEq, Eq)]
pub enum ValueKind {
    /// A text of at most 1000 bytes.
    Text,
    /// A text that is a date of the years 1 to 9999.
    Date,
    /// A number at or above 0.
    Number,
    /// A number without a point of at most 999999.
    Whole,
}

/// Whether the bytes spell a date of the years 1 to 9999.
#[tactic(auto, using(crate::proofs::Dates::spelled, crate::proofs::Dates::misspelled))]
fn is_date(text: &[u8]) -> bool
    ensures { result ≡ is_some (date_of text.now) }
{
    match CivilDate::read(text) {
        Ok(_) => true,
        Err(_) => false,
    }
}

impl ValueKind {
    /// Whether a place of this kind takes the text.
    fn fits_text(self, text: &[u8]) -> bool
        ensures { result ≡ fits self (value.Text text.now) }
    {
        match self {
            ValueKind::Text => text.len() <= MAX_TEXT,
            ValueKind::Date => is_date(text),
            ValueKind::Number | ValueKind::Whole => false,
        }
    }

    /// Whether a place of this kind takes a number with `places` digits after the point.
    fn fits_number(self, number: i128, places: u8) -> bool
        ensures { result ≡ fits self (value.Number number places) }
    {
        match self {
            ValueKind::Number => number >= 0,
            ValueKind::Whole => places == 0 && (0..=MAX_WHOLE).contains(&number),
            ValueKind::Text | ValueKind::Date => false,
        }
    }

    /// Whether a place of this kind takes the value.
    #[tactic(auto, using(crate::proofs::WritableValues::number_writable))]
    pub fn fits(self, value: &TemplateValue) -> bool
        ensures takes { result ≡ fits self value.now }
        // Each value can be put into a script.
        ensures writable { IsWritable value.now }
    {
        match value {
            TemplateValue::Text(text) => self.fits_text(text.bytes()),
            TemplateValue::Number(number, scale) => self.fits_number(*number, scale.places()),
        }
    }
}

/// What the places of a query's template take, in the order of their numbers.
pub fn kinds(number: u64) -> &'static [ValueKind]
    requires { IsTrue (is_query number) }
    ensures kinds { result.now ≡ (template_of number).kinds }
    ensures few { length result.now ≤ 10 }
{
    match number {
        1 => &[ValueKind::Whole],
        2 => &[ValueKind::Whole, ValueKind::Text, ValueKind::Text],
        3 => &[ValueKind::Text, ValueKind::Date],
        4 => &[ValueKind::Date],
        5 => &[ValueKind::Text, ValueKind::Date],
        6 => &[ValueKind::Date, ValueKind::Number, ValueKind::Number],
        7 => &[ValueKind::Text, ValueKind::Text],
        8 => &[ValueKind::Text, ValueKind::Text, ValueKind::Text],
        9 => &[ValueKind::Text],
        10 => &[ValueKind::Date],
        11 => &[ValueKind::Text, ValueKind::Number],
        12 => &[ValueKind::Text, ValueKind::Text, ValueKind::Date],
        13 => &[ValueKind::Text, ValueKind::Text],
        14 => &[ValueKind::Date],
        15 => &[ValueKind::Date],
        16 => &[
            ValueKind::Text,
            ValueKind::Text,
            ValueKind::Whole,
            ValueKind::Whole,
            ValueKind::Whole,
            ValueKind::Whole,
            ValueKind::Whole,
            ValueKind::Whole,
            ValueKind::Whole,
            ValueKind::Whole,
        ],
        17 => &[ValueKind::Text, ValueKind::Text],
        18 => &[ValueKind::Number],
        19 => &[
            ValueKind::Number,
            ValueKind::Number,
            ValueKind::Number,
            ValueKind::Text,
            ValueKind::Text,
            ValueKind::Text,
        ],
        20 => &[ValueKind::Text, ValueKind::Date, ValueKind::Text],
        21 => &[ValueKind::Text],
        22 => &[
            ValueKind::Text,
            ValueKind::Text,
            ValueKind::Text,
            ValueKind::Text,
            ValueKind::Text,
            ValueKind::Text,
            ValueKind::Text,
        ],
        _ => &[],
    }
}
