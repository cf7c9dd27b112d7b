//! The escapes by the character after the backslash, their letter.
ghost use Rattle.std.specs.Prelude.{◌≡◌};
ghost use Rattle.page_core_escapes.specs.Lengths.{letter_of};

/// What follows an escape's letter.
#[derive(Clone, Copy)]
pub(crate) enum Shape {
    /// Nothing.
    Alone,
    /// A glyph's name, which the letter begins.
    Glyph,
    /// A name.
    Name,
    /// A size of type.
    Size,
    /// An argument between two delimiters.
    Quoted,
}

/// What an escape means, with its argument.
#[derive(Clone, Copy)]
pub(crate) enum LetterKind {
    /// The glyph that the argument names.
    Glyph,
    /// The character whose code point the argument names, or the glyph.
    CodePoint,
    Char(char),
    Tab,
    Blank,
    /// As many blanks as the argument says.
    Blanks,
    Nothing,
    /// Nothing is printed; without a size it is another character.
    Size,
    Glue,
    /// The font that the argument names.
    Font,
    /// There is no such escape.
    Undefined,
    Unsupported,
}

/// What an escape's letter says.
#[derive(Clone, Copy)]
pub(crate) struct Letter {
    pub(crate) shape: Shape,
    pub(crate) kind: LetterKind,
}

fn entry(shape: Shape, kind: LetterKind) -> Letter
    ensures { result ≡ record { shape = shape; kind = kind } }
{
    Letter { shape, kind }
}

/// What a letter says: the one table of escapes.
#[tactic(auto, unfolding(crate::specs::Lengths::letter_of))]
pub(crate) fn letter_of(key: u8) -> Letter
    ensures { result ≡ letter_of key }
{
    match key {
        b'(' => entry(Shape::Glyph, LetterKind::Glyph),
        b'[' => entry(Shape::Glyph, LetterKind::CodePoint),
        b'C' => entry(Shape::Quoted, LetterKind::Glyph),
        b'e' | b'\\' => entry(Shape::Alone, LetterKind::Char('\\')),
        b'-' => entry(Shape::Alone, LetterKind::Char('-')),
        b'\'' => entry(Shape::Alone, LetterKind::Char('\u{B4}')),
        b'`' => entry(Shape::Alone, LetterKind::Char('`')),
        b'.' => entry(Shape::Alone, LetterKind::Char('.')),
        b't' => entry(Shape::Alone, LetterKind::Tab),
        b' ' | b'~' | b'0' => entry(Shape::Alone, LetterKind::Blank),
        b'h' => entry(Shape::Quoted, LetterKind::Blanks),
        b'c' => entry(Shape::Alone, LetterKind::Glue),
        b'f' => entry(Shape::Name, LetterKind::Font),
        b'&'
        | b')'
        | b'|'
        | b'^'
        | b'%'
        | b'/'
        | b','
        | b':'
        | b'a'
        | b'u'
        | b'r'
        | b'd'
        | b'z'
        | b'{' => entry(Shape::Alone, LetterKind::Nothing),
        b'm' | b'M' | b'k' | b'F' => entry(Shape::Name, LetterKind::Nothing),
        b'v' | b'x' => entry(Shape::Quoted, LetterKind::Nothing),
        b's' => entry(Shape::Size, LetterKind::Size),
        b'p' => entry(Shape::Alone, LetterKind::Unsupported),
        b'g' | b'V' | b'Y' => entry(Shape::Name, LetterKind::Unsupported),
        b'b' | b'o' | b'l' | b'L' | b'D' | b'N' | b'X' | b'A' | b'B' | b'H' | b'S' | b'R' | b'Z' =>
            entry(Shape::Quoted, LetterKind::Unsupported),
        _ => entry(Shape::Alone, LetterKind::Undefined),
    }
}
