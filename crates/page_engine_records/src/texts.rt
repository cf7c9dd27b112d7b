//! What is kept of the texts of a record, in reserved memory.

ghost use Rattle.std.specs.Prelude.{◌≡◌, ◌≤◌, ◌+◌, length};
ghost use Rattle.page_engine_records.specs.NameTexts as texts;
ghost use Rattle.page_engine_records.specs.machine.NameTexts.{with_byte};
ghost use Rattle.page_engine_records.specs.Records.{with_name};

use page_core_base::BoundedText;

/// The bytes of a section's text at most, and of the number of a manual's section.
pub const TEXT: usize = 4_096;

/// The bytes of names at most, with a comma and a blank between them: twice those of a text, and two.
pub(crate) const NAMES: usize = 8_194;

/// The bytes of a text at most are those of the definition.
pub fn text_law()
    ensures { TEXT ≡ texts.TEXT }
{}

/// Adds a byte to a text, where there is room for it.
pub(crate) fn add_byte(text: &mut BoundedText<TEXT>, byte: u8)
    ensures { text.new ≡ with_byte text.old byte }
{
    let _has_room = text.add_byte(byte);
}

/// Adds a name to others, with a comma and a blank between them, unless it is empty.
pub(crate) fn add_name(names: &mut BoundedText<NAMES>, name: &[u8])
    requires { length names.old + 2 + length name.now ≤ NAMES }
    ensures { names.new ≡ with_name names.old name.now }
{
    if name.is_empty() {
        return;
    }
    if !names.bytes().is_empty() {
        let _has_room = names.add(b", ");
    }
    let _has_room = names.add(name);
}
