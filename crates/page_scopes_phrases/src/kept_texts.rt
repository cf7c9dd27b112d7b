//! Texts that are kept of an argument and printed later: the target of a link and the name of the manual (man(7), `UR`, `MT`; mdoc(7), `Nm`).
ghost use Rattle.std.specs.Prelude.{◌≡◌, ◌≤◌, List, ℕ, length};
ghost use Rattle.page_core_base.specs.Limits.{FIELD};
ghost use Rattle.page_core_base.specs.Messages.{text_front};

use arrayvec::ArrayVec;
use page_core_base::FIELD;
use page_roff_syntax::Argument;
use std::marker::Model;

/// A text of at most [`FIELD`] bytes.
#[derive(Drop)]
pub struct FieldText {
    bytes: ArrayVec<u8, 256>,
}

impl Model for FieldText {
    ghost use Rattle.std.specs.Prelude.{List, ℕ};

    ghost Value = { List ℕ };

    ghost view = { λ t. t.bytes.items };
}

impl FieldText {
    // A text of at most 256 bytes.
    fn of(text: &[u8]) -> FieldText
        requires { length text.now ≤ 256 }
        ensures { result ≡ text.now }
    {
        let mut bytes = ArrayVec::new();
        let _ = bytes.try_extend_from_slice(text);
        FieldText { bytes }
    }

    // The same text.
    fn copy(&self) -> FieldText
        ensures { result ≡ self.now }
    {
        FieldText::of(self.bytes.as_slice())
    }

    /// The bytes of the text.
    pub fn text(&self) -> &[u8]
        ensures text { result.now ≡ self.now }
        ensures within { length result.now ≤ 256 }
    {
        self.bytes.as_slice()
    }
}

/// What is kept of what an argument says, up to [`FIELD`] bytes: a pair of quotes in a quoted argument is one quote of it.
#[derive(Drop)]
pub struct KeptText {
    pub text: FieldText,
    pub ghost is_front: { ∥ ((whole : List ℕ) × (text ≡ text_front FIELD whole)) ∥₁ },
}

impl KeptText {
    ghost use Rattle.page_roff_syntax.specs.laws.Views.{argument_view};
    ghost use Rattle.page_scopes_phrases.specs.Names.{kept_of};

    /// The same text.
    pub fn copy(&self) -> KeptText
        ensures { result ≡ self.now }
    {
        KeptText {
            text: self.text.copy(),
        }
    }

    /// What is kept of an argument.
    pub fn of(argument: Argument<&[u8]>) -> KeptText
        ensures { result ≡ kept_of (argument_view argument.entry) }
    {
        KeptText {
            text: FieldText {
                bytes: argument.value_front(FIELD),
            },
        }
    }
}
