//! The parts of words: a row may end after a hyphen between two letters (roff(7), "Filling and adjusting").

ghost use Rattle.std.specs.Prelude.{◌≡◌, ◌<◌, ◌==◌, false, length};
ghost use Rattle.page_core_base.specs.laws.Views.{Came, CameUpTo};
ghost use Rattle.page_core_escapes.specs.Tokens.{is_space, plain};
ghost use Rattle.page_core_escapes.specs.laws.Views.{token_view};
ghost use Rattle.page_scopes_text.specs.machine.Letters.{later_items};
ghost use Rattle.page_scopes_text.specs.Texts as words;

use page_core_base::{Font, Piece, PieceOut, Place, first_part_len};
use page_core_escapes::Token;
use page_scopes_words::{give_letters, give_token};

// Gives the first part of bytes that print themselves; what is left of them.
#[inline(always)]
fn give_first<'a, O: PieceOut>(out: &mut O, font: Font, place: Place, bytes: &'a [u8]) -> &'a [u8]
    requires { (length bytes.now == 0) ≡ false }
    ensures came { CameUpTo O.left out.old
        (words.parts_items font place bytes.now) (later_items font place result.now) out.new }
    ensures less { length result.now < length bytes.now }
{
    let (part, rest) = bytes.split_at(first_part_len(bytes));
    give_letters(out, font, place, part);
    rest
}

// Gives what is left of bytes that print themselves after one of their parts. It is a call, since few words have a second part.
#[inline(never)]
fn give_later<O: PieceOut>(out: &mut O, font: Font, place: Place, bytes: &[u8])
    ensures { Came O.left out.old (later_items font place bytes.now) out.new }
{
    let mut rest = bytes;
    while !rest.is_empty() {
        out.give(Piece::Split);
        rest = give_first(out, font, place, rest);
    }
}

/// Gives bytes that print themselves, at whose hyphens a row may end.
pub(crate) fn give_parts<O: PieceOut>(out: &mut O, font: Font, place: Place, bytes: &[u8])
    ensures { Came O.left out.old (words.parts_items font place bytes.now) out.new }
{
    if bytes.is_empty() {
        return;
    }
    let rest = give_first(out, font, place, bytes);
    if !rest.is_empty() {
        give_later(out, font, place, rest);
    }
}

/// Gives bytes that print themselves, and are parted or not.
#[inline(always)]
pub(crate) fn give_plain_token<O: PieceOut>(
    out: &mut O,
    splits: bool,
    font: Font,
    place: Place,
    bytes: &[u8],
)
    ensures { Came O.left out.old
        (words.printed_items false splits font place (plain bytes.now)) out.new }
{
    if splits {
        give_parts(out, font, place, bytes);
    } else {
        give_letters(out, font, place, bytes);
    }
}

/// Gives what a token of a word prints; `quoted` says whether it is that of a quoted argument.
#[inline(always)]
pub(crate) fn give_printed<O: PieceOut>(
    out: &mut O,
    quoted: bool,
    splits: bool,
    font: Font,
    place: Place,
    token: &Token<'_>,
)
    requires { is_space (token_view token.now) ≡ false }
    ensures { Came O.left out.old
        (words.printed_items quoted splits font place (token_view token.now)) out.new }
{
    if let Token::Plain(bytes) = *token {
        give_plain_token(out, splits, font, place, bytes);
    } else {
        give_token(out, quoted, font, place, token);
    }
}
