//! Texts that macros print themselves (mdoc(7), "MACRO REFERENCE"; man(7)).

ghost use Rattle.std.specs.Prelude.{◌≡◌};
ghost use Rattle.page_sets_names.specs.Names as texts;

/// A text that a macro prints itself.
#[derive(Clone, Copy, PartialEq, Eq)]
pub enum GeneratedText {
    /// `(`
    OpenParenthesis,
    /// `)`
    CloseParenthesis,
    /// `[`
    OpenBracket,
    /// `]`
    CloseBracket,
    /// `<`
    OpenAngle,
    /// `>`
    CloseAngle,
    /// `{`
    OpenBrace,
    /// `}`
    CloseBrace,
    /// `\(lq`
    OpenDouble,
    /// `\(rq`
    CloseDouble,
    /// `\(oq`
    OpenSingle,
    /// `\(cq`
    CloseSingle,
    /// `"`, before and after.
    Straight,
    /// `,`
    Comma,
    /// `.`
    FullStop,
    /// `:`
    Colon,
    /// `'`
    Apostrophe,
    /// `-`
    Dash,
    /// `-`, where it stands for a flag.
    Flag,
    /// `Flag`, glued to what a macro after it in its line prints.
    JoinedFlag,
    /// `file ...`
    Files,
    /// `file...`, where there are no blanks between words.
    JoinedFiles,
    /// `~`
    Home,
    /// `BSD`
    Bsd,
    /// `BSD/OS`
    BsdOs,
    /// `DragonFly`
    DragonFly,
    /// `FreeBSD`
    FreeBsd,
    /// `NetBSD`
    NetBsd,
    /// `OpenBSD`
    OpenBsd,
    /// `UNIX`
    Unix,
    /// `()`
    Call,
    /// `(),`
    CallComma,
    /// `;`
    Semicolon,
    /// `#include`
    Include,
    /// `The`
    The,
    /// `and`
    And,
    /// The sentence of `Ex` about one program, from `utility` on.
    UtilityExits,
    /// The sentence of `Ex` about several, from `utilities` on.
    UtilitiesExit,
    /// The sentence of `Rv` about one function, from `function` on.
    FunctionReturns,
    /// The sentence of `Rv` about several, from `functions` on.
    FunctionsReturn,
}

/// What such a text is in a sentence.
#[derive(Clone, Copy)]
pub(crate) enum TextRole {
    /// A mark, which does not go on with the sentence.
    Mark,
    /// A word.
    Word,
    /// A word that ends the sentence, as those of `Ex` and `Rv`.
    Sentence,
}

impl GeneratedText {
    /// The text.
    pub fn text(self) -> &'static str
        ensures { result.now ≡ texts.generated_text self }
    {
        GENERATED_TEXTS[self as usize].0
    }

    /// Whether it is a word, which a sentence can go on after; the others are marks.
    pub fn is_word(self) -> bool
        ensures { result ≡ texts.generated_is_word self }
    {
        !matches!(GENERATED_TEXTS[self as usize].1, TextRole::Mark)
    }

    /// Whether it is glued to what comes after it in its line.
    pub fn joins_next(self) -> bool
        ensures { result ≡ texts.generated_joins_next self }
    {
        matches!(self, GeneratedText::JoinedFlag)
    }

    /// The text that is in its place where there are blanks between words, or where there are none.
    pub fn spaced(self, has_spacing: bool) -> GeneratedText
        ensures { result ≡ texts.generated_spaced has_spacing self }
    {
        match self {
            GeneratedText::Files if !has_spacing => GeneratedText::JoinedFiles,
            _ => self,
        }
    }

    /// Whether it is a word that ends a sentence.
    pub fn ends_sentence(self) -> bool
        ensures { result ≡ texts.generated_ends_sentence self }
    {
        matches!(GENERATED_TEXTS[self as usize].1, TextRole::Sentence)
    }
}

// The texts, in the order of `GeneratedText`.
static GENERATED_TEXTS: [(&str, TextRole); 40] = [
    ("(", TextRole::Mark),
    (")", TextRole::Mark),
    ("[", TextRole::Mark),
    ("]", TextRole::Mark),
    ("<", TextRole::Mark),
    (">", TextRole::Mark),
    ("{", TextRole::Mark),
    ("}", TextRole::Mark),
    ("\\(lq", TextRole::Mark),
    ("\\(rq", TextRole::Mark),
    ("\\(oq", TextRole::Mark),
    ("\\(cq", TextRole::Mark),
    ("\"", TextRole::Mark),
    (",", TextRole::Mark),
    (".", TextRole::Mark),
    (":", TextRole::Mark),
    ("'", TextRole::Mark),
    ("-", TextRole::Mark),
    ("-", TextRole::Word),
    ("-", TextRole::Word),
    ("file ...", TextRole::Word),
    ("file...", TextRole::Word),
    ("~", TextRole::Word),
    ("BSD", TextRole::Word),
    ("BSD/OS", TextRole::Word),
    ("DragonFly", TextRole::Word),
    ("FreeBSD", TextRole::Word),
    ("NetBSD", TextRole::Word),
    ("OpenBSD", TextRole::Word),
    ("UNIX", TextRole::Word),
    ("()", TextRole::Mark),
    ("(),", TextRole::Mark),
    (";", TextRole::Mark),
    ("#include", TextRole::Word),
    ("The", TextRole::Word),
    ("and", TextRole::Word),
    (
        "utility exits 0 on success, and >0 if an error occurs.",
        TextRole::Sentence,
    ),
    (
        "utilities exit 0 on success, and >0 if an error occurs.",
        TextRole::Sentence,
    ),
    (
        "function returns the value 0 if successful; otherwise the value -1 is returned and the global variable errno is set to indicate the error.",
        TextRole::Sentence,
    ),
    (
        "functions return the value 0 if successful; otherwise the value -1 is returned and the global variable errno is set to indicate the error.",
        TextRole::Sentence,
    ),
];
