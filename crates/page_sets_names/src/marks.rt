//! The marks around enclosed words (mdoc(7), "MACRO REFERENCE").

ghost use Rattle.std.specs.Prelude.{◌≡◌};
ghost use Rattle.page_sets_names.specs.Marks as marks;

use crate::generated_texts::GeneratedText;

/// The marks around the words of an enclosure.
#[derive(Clone, Copy, PartialEq, Eq)]
pub enum Marks {
    /// `Aq`: `<` and `>`.
    Angle,
    /// `Bq` and `Op`: `[` and `]`.
    Square,
    /// `Brq`: `{` and `}`.
    Curly,
    /// `Pq`: `(` and `)`.
    Round,
    /// `Dq`: double quotation marks.
    Double,
    /// `Sq` and `Ql`: single quotation marks.
    Single,
    /// `Qq`: straight quotation marks.
    Straight,
}

/// An enclosure that one macro begins and another ends; its name is that of the first.
#[derive(Clone, Copy, PartialEq, Eq)]
pub enum Quotation {
    /// `Ao` and `Ac`: `<` and `>`.
    Ao,
    /// `Bo` and `Bc`: `[` and `]`.
    Bo,
    /// `Bro` and `Brc`: `{` and `}`.
    Bro,
    /// `Do` and `Dc`: double quotation marks.
    Do,
    /// `Oo` and `Oc`: `[` and `]`.
    Oo,
    /// `Po` and `Pc`: `(` and `)`.
    Po,
    /// `Qo` and `Qc`: straight quotation marks.
    Qo,
    /// `So` and `Sc`: single quotation marks.
    So,
}

impl Marks {
    /// The mark before the words.
    pub fn opening(self) -> GeneratedText
        ensures { result ≡ marks.opening self }
    {
        MARKS[self as usize].0
    }

    /// The mark after the words.
    pub fn closing(self) -> GeneratedText
        ensures { result ≡ marks.closing self }
    {
        MARKS[self as usize].1
    }

    /// The name of the first macro that has these marks.
    pub fn name(self) -> &'static str
        ensures { result.now ≡ (marks.row_of_marks self).name }
    {
        MARKS[self as usize].2
    }
}

impl Quotation {
    /// The marks around its words.
    pub fn marks(self) -> Marks
        ensures { result ≡ marks.quotation_marks self }
    {
        QUOTATIONS[self as usize].0
    }

    /// The name of the macro that opens it.
    pub fn name(self) -> &'static str
        ensures { result.now ≡ (marks.row_of_quotation self).opener }
    {
        QUOTATIONS[self as usize].1
    }

    /// The name of the macro that closes it.
    pub fn closer_name(self) -> &'static str
        ensures { result.now ≡ (marks.row_of_quotation self).closer }
    {
        QUOTATIONS[self as usize].2
    }
}

// The marks, in the order of `Marks`: the one before the words, the one after them, and the first macro that has them.
static MARKS: [(GeneratedText, GeneratedText, &str); 7] = [
    (GeneratedText::OpenAngle, GeneratedText::CloseAngle, "Aq"),
    (
        GeneratedText::OpenBracket,
        GeneratedText::CloseBracket,
        "Bq",
    ),
    (GeneratedText::OpenBrace, GeneratedText::CloseBrace, "Brq"),
    (
        GeneratedText::OpenParenthesis,
        GeneratedText::CloseParenthesis,
        "Pq",
    ),
    (GeneratedText::OpenDouble, GeneratedText::CloseDouble, "Dq"),
    (GeneratedText::OpenSingle, GeneratedText::CloseSingle, "Sq"),
    (GeneratedText::Straight, GeneratedText::Straight, "Qq"),
];

// The enclosures, in the order of `Quotation`: their marks, the macro that opens each, and the one that closes it.
static QUOTATIONS: [(Marks, &str, &str); 8] = [
    (Marks::Angle, "Ao", "Ac"),
    (Marks::Square, "Bo", "Bc"),
    (Marks::Curly, "Bro", "Brc"),
    (Marks::Double, "Do", "Dc"),
    (Marks::Square, "Oo", "Oc"),
    (Marks::Round, "Po", "Pc"),
    (Marks::Straight, "Qo", "Qc"),
    (Marks::Single, "So", "Sc"),
];
