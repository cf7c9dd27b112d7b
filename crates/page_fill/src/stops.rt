//! Where tags and tabs end, in columns (man(7), "HP"; roff(7), "ta").

ghost use Rattle.std.specs.Prelude.{◌≡◌};
ghost use Rattle.page_fill.specs.Filling as filling;

/// The greatest hang of a tag, in columns.
pub const HANG_MAX: u32 = 1000;

/// The columns from one tab stop to the next.
pub const TAB_STOP: u32 = 8;

/// The constants are those of the definitions.
pub fn stops_law()
    ensures { (HANG_MAX ≡ filling.HANG_MAX) × (TAB_STOP ≡ filling.TAB_STOP) }
{}
