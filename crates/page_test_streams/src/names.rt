//! The short texts of fonts and of kinds of messages.

use page_core_base::{Font, NoteKind};

/// What is before a text in a font.
pub(crate) fn font_mark(font: Font) -> &'static str {
    match font {
        Font::R => "",
        Font::B => "B",
        Font::I => "I",
        Font::BI => "BI",
    }
}

/// The name of a kind of messages that scopes and their words give.
pub(crate) fn kind_name(kind: NoteKind) -> &'static str {
    match kind {
        NoteKind::UndefEscape => "UndefEscape",
        NoteKind::BadEscape => "BadEscape",
        NoteKind::UnsuppEscape => "UnsuppEscape",
        NoteKind::UnknownFont => "UnknownFont",
        NoteKind::NotNumeric => "NotNumeric",
        NoteKind::DivZero => "DivZero",
        NoteKind::Unterminated => "Unterminated",
        NoteKind::BlankFill => "BlankFill",
        NoteKind::EmptyMacro => "EmptyMacro",
        NoteKind::UnknownMacro => "UnknownMacro",
        NoteKind::SkipPara => "SkipPara",
        NoteKind::BeforeSection => "BeforeSection",
        NoteKind::BadNest => "BadNest",
        NoteKind::MissingEnd => "MissingEnd",
        NoteKind::LineScope => "LineScope",
        NoteKind::NotOpen => "NotOpen",
        NoteKind::FewerRs => "FewerRs",
        NoteKind::Limit => "Limit",
        _ => "?",
    }
}
