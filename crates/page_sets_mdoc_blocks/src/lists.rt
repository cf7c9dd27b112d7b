//! The list that `Bl` opens, and what its arguments lack (mdoc(7), `Bl`).

ghost use Rattle.std.specs.Prelude.{◌≡◌, unwrap_or};
ghost use Rattle.page_sets_lines.specs.Lines.{rest_of};
ghost use Rattle.page_sets_lines.specs.laws.Events.{block_opener_view};
ghost use Rattle.page_sets_lines.specs.Blocks.{list_options};
ghost use Rattle.page_sets_lines.specs.laws.Views.{options_view};
ghost use Rattle.page_sets_mdoc_blocks.specs.Fronts.{line_arguments};
ghost use Rattle.page_sets_mdoc_blocks.specs.Displays as lists;
ghost use Rattle.page_sets_lines.specs.declared.blocks.BlockOpener.TheVariants as openers;
ghost use Rattle.page_sets_lines.specs.declared.lists.ListKind.TheVariants as kinds;

use page_core_base::NoteKind;
use page_sets_lines::{BlockOpener, ControlLine, ListKind, ListOptions, read_list_options};

// What the arguments of a line say of a list.
fn options_of<'a>(line: &ControlLine<'a>) -> ListOptions<&'a [u8]>
    ensures { options_view result ≡ list_options (line_arguments line.now) }
{
    read_list_options(line.text(), line.name_end())
}

/// The list that `Bl` opens in a line.
pub(crate) fn list_of<'a>(line: &ControlLine<'a>) -> BlockOpener<&'a [u8]>
    ensures { block_opener_view result ≡ (let options = list_options (line_arguments line.now) in
        openers.List (unwrap_or options.kind kinds.Item) options.is_compact (rest_of line.now)) }
{
    let options = options_of(line);
    BlockOpener::List {
        kind: options.kind.unwrap_or(ListKind::Item),
        is_compact: options.is_compact,
        options: line.rest(),
    }
}

/// The message about what a list lacks: a type, or the width of its tags.
pub(crate) fn list_note(line: &ControlLine<'_>) -> Option<NoteKind>
    ensures { result ≡ lists.list_note (list_options (line_arguments line.now)) }
{
    let options = options_of(line);
    match options.kind {
        None => Some(NoteKind::NoListType),
        Some(ListKind::Tag) if options.width.is_none() => Some(NoteKind::MissingWidth),
        Some(_) => None,
    }
}
