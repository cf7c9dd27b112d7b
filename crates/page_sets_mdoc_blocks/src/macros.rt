//! Which macros begin a line that goes on in words (mdoc(7), "MACRO REFERENCE").

ghost use Rattle.std.specs.Prelude.{◌≡◌};
ghost use Rattle.page_sets_mdoc_blocks.specs.Fronts as macros;

use page_sets_mdoc_lines::LineMacro;

/// Whether the words after a macro are its title, its description or its row: `Sh Ss Nd D1 Dl`, which need one.
pub fn has_phrase(begins: LineMacro) -> bool
    ensures { result ≡ macros.has_phrase begins }
{
    matches!(
        begins,
        LineMacro::Heading(_) | LineMacro::Description | LineMacro::OneLine(_)
    )
}
