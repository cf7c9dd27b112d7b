//! The limits of a page: each with its value, and the name that its message shows (mandoc(1), "DIAGNOSTICS").

ghost use Rattle.std.specs.Prelude.{◌≡◌};
ghost use Rattle.page_core_base.specs.Limits as limits;
ghost use Rattle.page_core_base.specs.laws.Views as limits_laws;

/// The bytes of a line.
pub const LINE: usize = 65_536;

/// The bytes of a title, section, date, source, volume, manual name or link target; a pair of quotes in a quoted argument counts as one.
pub const FIELD: usize = 256;

/// The cells of a row, its margin not counted.
pub const CELLS: usize = 4096;

/// The blank rows of one `sp` or `PD`.
pub const BLANKS: u32 = 100;

/// The scopes that are open.
pub const SCOPES: usize = 64;

/// The widths of a list of columns.
pub const COLUMNS: usize = 16;

/// The open parentheses of an expression.
pub const PARENS: u32 = 16;

/// The bytes of the name of a string, macro or register.
pub const NAME: usize = 64;

/// The names of strings, macros and registers.
pub const NAMES: usize = 1_024;

/// The bytes of a string, or of the lines of a macro's body, each with its end.
pub const BODY: usize = 16_384;

/// The bytes of all names, strings and bodies.
pub const DEFS: usize = 65_536;

/// The open true blocks of a source: a page or a running macro.
pub const CONDS: usize = 64;

/// The macros that run inside one another.
pub const CALLS: usize = 16;

/// The bytes of a call's arguments, each with its end.
pub const ARGS: usize = 4_096;

/// The re-read lines of one source line: lines of running macros, and remainders that are run.
pub const REREAD: usize = 1_000;

/// The interpolations of a line.
pub const EXPAND: u32 = 1_000;

/// The interpolations inside one another.
pub const NEST: usize = 16;

/// A limit of a page that has a message of its own where it is passed.
#[derive(Clone, Copy)]
pub enum Limit {
    Line,
    Field,
    Cells,
    Blanks,
    Scopes,
    Columns,
    Parens,
    Name,
    Names,
    Body,
    Defs,
    Conds,
    Calls,
    Args,
    Reread,
    Expand,
    Nest,
}

/// The constants are the limits of the definitions.
pub fn limits_law()
    ensures { (LINE ≡ limits.LINE) × (FIELD ≡ limits.FIELD) × (CELLS ≡ limits.CELLS)
        × (BLANKS ≡ limits.BLANKS) × (SCOPES ≡ limits.SCOPES) × (COLUMNS ≡ limits.COLUMNS)
        × (PARENS ≡ limits_laws.PARENS) × (NAME ≡ limits.NAME) × (NAMES ≡ limits.NAMES) × (BODY ≡ limits.BODY)
        × (DEFS ≡ limits.DEFS) × (CONDS ≡ limits.CONDS) × (CALLS ≡ limits.CALLS) × (ARGS ≡ limits.ARGS)
        × (REREAD ≡ limits.REREAD) × (EXPAND ≡ limits.EXPAND) × (NEST ≡ limits_laws.NEST) }
{}

impl Limit {
    /// The name that the message shows where the limit is passed.
    pub fn name(self) -> &'static str
        ensures { result.now ≡ limits.name_of self }
    {
        match self {
            Limit::Line => "LINE",
            Limit::Field => "FIELD",
            Limit::Cells => "CELLS",
            Limit::Blanks => "BLANKS",
            Limit::Scopes => "SCOPES",
            Limit::Columns => "COLUMNS",
            Limit::Parens => "PARENS",
            Limit::Name => "NAME",
            Limit::Names => "NAMES",
            Limit::Body => "BODY",
            Limit::Defs => "DEFS",
            Limit::Conds => "CONDS",
            Limit::Calls => "CALLS",
            Limit::Args => "ARGS",
            Limit::Reread => "REREAD",
            Limit::Expand => "EXPAND",
            Limit::Nest => "NEST",
        }
    }
}
