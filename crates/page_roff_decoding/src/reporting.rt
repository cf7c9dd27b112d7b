//! The messages about a line that is cut (mandoc(1), "DIAGNOSTICS").
ghost use Rattle.std.specs.Prelude.{◌≡◌, ℕ, ◌+◌, ◌<◌, List, ◌++◌};
ghost use Rattle.std.specs.Char.{digit_char};
ghost use Rattle.page_core_base.specs.laws.Views.{Gives, FailsAs, message_of};
ghost use Rattle.page_roff_decoding.specs.machine.Fronts.{as_character};
ghost use Rattle.page_roff_decoding.specs.Decoding.{bad_character as spec_bad_character, notes_of, bad_notes, limit_notes, line_characters};
ghost use Rattle.page_core_base.specs.declared.note_kinds.NoteKind.TheVariants.{Limit as spec_Limit};
ghost use Rattle.page_core_base.specs.Limits.{name_of};
ghost use Rattle.page_core_base.specs.declared.limits.Limit.TheVariants.{Line as LineLimit};

use crate::characters::Front;
use crate::texts::text_within;
use page_core_base::{Encoding, Fault, LINE, Limit, Note, NoteKind, NoteSink, Place};

// A hexadecimal digit.
fn hex_digit(value: u8) -> u8
    requires { value < 16 }
    ensures { result ≡ digit_char value }
{
    if value < 10 {
        b'0' + value
    } else {
        b'a' + (value - 10)
    }
}

// The message about a byte that is no character.
fn bad_character(number: u32, column: u32, byte: u8) -> Note
    ensures { message_of result ≡ spec_bad_character number column byte }
{
    let place = Place {
        line: number,
        column,
    };
    let detail = [b'0', b'x', hex_digit(byte / 16), hex_digit(byte % 16)];
    Note::about(NoteKind::BadChar, place, &detail)
}

// The message about a line that has more than its limit.
fn limit_note(number: u32) -> Note
    ensures { message_of result ≡ record { kind = spec_Limit; line = number; column = 1; detail = name_of LineLimit } }
{
    let place = Place {
        line: number,
        column: 1,
    };
    Note::about(NoteKind::Limit, place, Limit::Line.name().as_bytes())
}

// Reports a character where it is none.
fn report_front<N: NoteSink>(
    front: Front,
    number: u32,
    column: u32,
    notes: &mut N,
) -> Result<(), Fault>
    ensures gives { (text : List ℕ) → Gives result N.gave N.within notes.old
        (notes_of number column (as_character front text)) notes.new }
    ensures fault { FailsAs Fault.WriteNotes result (N.failed notes.old) (N.failed notes.new) }
    ensures same { N.loans notes.new ≡ N.loans notes.old }
{
    match front {
        Front::Bad(byte) => notes.note(&bad_character(number, column, byte)),
        Front::Same(_) | Front::Latin1(_) => Ok(()),
    }
}

// Reports the bytes that are no characters, of what fits of a text.
#[inline(never)]
fn report_bad<N: NoteSink>(
    text: &[u8],
    encoding: Encoding,
    number: u32,
    notes: &mut N,
) -> Result<(), Fault>
    ensures gives { Gives result N.gave N.within notes.old
        (bad_notes number 1 (line_characters encoding text.now)) notes.new }
    ensures fault { FailsAs Fault.WriteNotes result (N.failed notes.old) (N.failed notes.new) }
    ensures same { N.loans notes.new ≡ N.loans notes.old }
{
    let mut at = 0;
    let mut room = LINE;
    while at < text.len() {
        let passed = text_within(&text[at..], room);
        room -= passed;
        at += passed;
        if at < text.len() {
            let front = Front::of(&text[at..], encoding);
            let size = front.size();
            if size > room {
                break;
            }
            let column = (LINE - room + 1) as u32;
            if let Err(fault) = report_front(front, number, column, notes) {
                return Err(fault);
            }
            room -= size;
            at += front.width();
        }
    }
    Ok(())
}

/// Reports a line of which less than all stays, where it is one. Its fault is [`Fault::WriteNotes`].
#[inline(always)]
pub fn report_limit<N: NoteSink>(passed: bool, number: u32, notes: &mut N) -> Result<(), Fault>
    ensures gives { Gives result N.gave N.within notes.old (limit_notes passed number) notes.new }
    ensures fault { FailsAs Fault.WriteNotes result (N.failed notes.old) (N.failed notes.new) }
    ensures same { N.loans notes.new ≡ N.loans notes.old }
{
    if passed {
        notes.note(&limit_note(number))
    } else {
        Ok(())
    }
}

/// Reports what is to be said of a line's cutting: that less than all of it stays, and then each byte that is no
/// character, where the sink takes such messages. Its fault is [`Fault::WriteNotes`].
pub fn report<N: NoteSink>(
    text: &[u8],
    encoding: Encoding,
    number: u32,
    passed: bool,
    notes: &mut N,
) -> Result<(), Fault>
    ensures gives { Gives result N.gave N.within notes.old
        (limit_notes passed number ++ bad_notes number 1 (line_characters encoding text.now)) notes.new }
    ensures fault { FailsAs Fault.WriteNotes result (N.failed notes.old) (N.failed notes.new) }
    ensures same { N.loans notes.new ≡ N.loans notes.old }
{
    if let Err(fault) = report_limit(passed, number, notes) {
        return Err(fault);
    }
    if !notes.takes(NoteKind::BadChar) {
        return Ok(());
    }
    report_bad(text, encoding, number, notes)
}
