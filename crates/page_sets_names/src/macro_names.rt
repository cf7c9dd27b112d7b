//! Macros that messages and headings know by name (man(7), mdoc(7)).

ghost use Rattle.std.specs.Prelude.{◌≡◌};
ghost use Rattle.page_sets_names.specs.Names as names;

/// A paragraph.
#[derive(Clone, Copy, PartialEq, Eq)]
pub enum ParagraphName {
    PP,
    LP,
    P,
}

/// A link: of an address of the web, or of mail.
#[derive(Clone, Copy, PartialEq, Eq)]
pub enum Link {
    UR,
    MT,
}

/// The heading of a section or subsection.
#[derive(Clone, Copy, PartialEq, Eq)]
pub enum HeadingName {
    SH,
    SS,
    Sh,
    Ss,
}

/// A paragraph of mdoc(7).
#[derive(Clone, Copy, PartialEq, Eq)]
pub enum BodyParagraphName {
    Pp,
    Lp,
}

/// A row that is alone (mdoc(7)).
#[derive(Clone, Copy, PartialEq, Eq)]
pub enum OneLineName {
    D1,
    Dl,
}

/// A tag in the next line.
#[derive(Clone, Copy, PartialEq, Eq)]
pub enum TagName {
    TP,
    TQ,
}

/// Words in one font.
#[derive(Clone, Copy, PartialEq, Eq)]
pub enum FontMacro {
    B,
    I,
    SM,
    SB,
}

/// What sets the fields of header and footer.
#[derive(Clone, Copy, PartialEq, Eq)]
pub enum Prologue {
    TH,
    Dd,
    Dt,
    Os,
}

impl ParagraphName {
    /// The macro's name.
    pub fn name(self) -> &'static str
        ensures { result.now ≡ names.paragraph_name self }
    {
        match self {
            ParagraphName::PP => "PP",
            ParagraphName::LP => "LP",
            ParagraphName::P => "P",
        }
    }
}

impl Link {
    /// The name of the macro that opens it.
    pub fn name(self) -> &'static str
        ensures { result.now ≡ names.link_name self }
    {
        match self {
            Link::UR => "UR",
            Link::MT => "MT",
        }
    }

    /// The name of the macro that closes it.
    pub fn closer_name(self) -> &'static str
        ensures { result.now ≡ names.link_closer_name self }
    {
        match self {
            Link::UR => "UE",
            Link::MT => "ME",
        }
    }
}

impl HeadingName {
    /// The macro's name.
    pub fn name(self) -> &'static str
        ensures { result.now ≡ names.heading_name self }
    {
        match self {
            HeadingName::SH => "SH",
            HeadingName::SS => "SS",
            HeadingName::Sh => "Sh",
            HeadingName::Ss => "Ss",
        }
    }
}

impl BodyParagraphName {
    /// The macro's name.
    pub fn name(self) -> &'static str
        ensures { result.now ≡ names.body_paragraph_name self }
    {
        match self {
            BodyParagraphName::Pp => "Pp",
            BodyParagraphName::Lp => "Lp",
        }
    }
}

impl OneLineName {
    /// The macro's name.
    pub fn name(self) -> &'static str
        ensures { result.now ≡ names.one_line_name self }
    {
        match self {
            OneLineName::D1 => "D1",
            OneLineName::Dl => "Dl",
        }
    }
}

impl TagName {
    /// The macro's name.
    pub fn name(self) -> &'static str
        ensures { result.now ≡ names.tag_name self }
    {
        match self {
            TagName::TP => "TP",
            TagName::TQ => "TQ",
        }
    }
}

impl FontMacro {
    /// The macro's name.
    pub fn name(self) -> &'static str
        ensures { result.now ≡ names.font_macro_name self }
    {
        match self {
            FontMacro::B => "B",
            FontMacro::I => "I",
            FontMacro::SM => "SM",
            FontMacro::SB => "SB",
        }
    }
}

impl Prologue {
    /// The macro's name.
    pub fn name(self) -> &'static str
        ensures { result.now ≡ names.prologue_name self }
    {
        match self {
            Prologue::TH => "TH",
            Prologue::Dd => "Dd",
            Prologue::Dt => "Dt",
            Prologue::Os => "Os",
        }
    }
}
