//! Systems and their versions (mdoc(7), "Bsx", "Bx", "Dx", "Fx", "Nx", "Ox" and "Ux").

ghost use Rattle.std.specs.Prelude.{◌≡◌, ◌≤◌, None, length};
ghost use Rattle.page_core_base.specs.laws.Views.{Came};
ghost use Rattle.page_sets_lines.specs.laws.Events.{event_view};
ghost use Rattle.page_sets_mdoc_lines.specs.machine.Cursors.{IsCursorOf};
ghost use Rattle.page_sets_mdoc_lines.specs.laws.Views.{words_view};
ghost use Rattle.page_sets_mdoc_words.specs.Inlines as inlines;
ghost use Rattle.page_sets_lines.specs.Lines.{generated_word as spec_generated_word};
ghost use Rattle.page_sets_lines.specs.declared.events.Join.TheVariants.{Apart};

use crate::plain::give_printed;
use crate::printed::{give_generated, give_word, is_opening};
use page_core_base::{LINE, Place};
use page_sets_lines::{Event, EventTaker, GeneratedText, Join, generated_word};
use page_sets_mdoc_lines::{System, Words, is_real};

// The text of a system.
fn system_text(system: System) -> GeneratedText
    ensures { result ≡ inlines.system_text system }
{
    match system {
        System::BsdOs => GeneratedText::BsdOs,
        System::DragonFly => GeneratedText::DragonFly,
        System::FreeBsd => GeneratedText::FreeBsd,
        System::NetBsd => GeneratedText::NetBsd,
        System::OpenBsd => GeneratedText::OpenBsd,
        System::Unix => GeneratedText::Unix,
    }
}

/// The name of a system.
pub(crate) fn system_word<'a>(place: Place, system: System) -> Event<&'a [u8]>
    ensures { event_view result ≡ spec_generated_word place (inlines.system_text system) None Apart Apart }
{
    generated_word(place, system_text(system), None, Join::Apart, Join::Apart)
}

/// `Bx`: a version, after opening delimiters, and then the name; without a version the name is alone.
pub(crate) fn give_bsd<'a, O: EventTaker<'a>>(
    out: &mut O,
    place: Place,
    text: &'a [u8],
    words: Words,
)
    requires short { length text.now ≤ LINE }
    requires within { IsCursorOf text.now words.cursor }
    ensures { Came O.left out.old (inlines.bsd place (words_view text.now words)) out.new }
{
    let bsd = GeneratedText::Bsd;
    let mut left = words;
    while let Some(word) = left.read(text) {
        if is_real(word) {
            give_word(out, place.line, None, word);
            give_generated(out, place, bsd, None, Join::Glued, Join::Apart);
            give_printed(out, place.line, None, text, left);
            return;
        }
        if !is_opening(word) {
            give_generated(out, place, bsd, None, Join::Apart, Join::Apart);
            give_word(out, place.line, None, word);
            give_printed(out, place.line, None, text, left);
            return;
        }
        give_word(out, place.line, None, word);
    }
    give_generated(out, place, bsd, None, Join::Apart, Join::Apart);
}
