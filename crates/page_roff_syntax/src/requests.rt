//! The table of requests (roff(7), "REQUEST REFERENCE").

ghost use Rattle.std.specs.Prelude.{◌≡◌};
ghost use Rattle.page_roff_syntax.specs.Requests as requests;

use crate::regions::RegionKind;
use page_core_base::{list_for, row_named};

/// A request that defines strings or number registers, or takes definitions away.
#[derive(Clone, Copy)]
pub enum DefinitionRequest {
    /// `ds`
    DefineString,
    /// `as`
    AppendString,
    /// `nr`
    SetRegister,
    /// `rm`
    Remove,
    /// `rn`
    Rename,
    /// `rr`
    RemoveRegisters,
}

/// A request that changes rows. All sets of macros know them.
#[derive(Clone, Copy)]
pub enum LayoutRequest {
    /// `br`
    Break,
    /// `sp`
    Space,
    /// `ft`
    Font,
    /// `in`
    Shift,
    /// `nf` (true) and `fi` (false)
    Literal(bool),
}

/// What a name is that roff knows.
#[derive(Clone, Copy)]
pub enum Request {
    /// `if`
    If,
    /// `ie`
    IfElse,
    /// `el`
    Else,
    /// `while`
    While,
    /// It begins a region.
    Region(RegionKind),
    /// It defines, or takes definitions away.
    Definition(DefinitionRequest),
    /// It changes rows, and is left to the set of macros.
    Layout(LayoutRequest),
    /// It has no effect.
    Ignored,
    /// It is not supported.
    Unsupported,
}

impl Request {
    /// The request of this name: the one table of the names that roff knows.
    pub fn of(name: &[u8]) -> Option<Request>
        ensures { result ≡ requests.request_of name.now }
    {
        row_named(list_for(&REQUESTS, name), name)
    }
}

// The table: the names by their first letter. The place of a list is its letter's number: from 1 for `A`, and from 33 for `a`.
static REQUESTS: [&[(&[u8], Request)]; 59] = [
    &[],
    &[],
    &[],
    &[],
    &[],
    &[(b"EQ", Request::Region(RegionKind::Equation))],
    &[],
    &[],
    &[],
    &[],
    &[],
    &[],
    &[],
    &[],
    &[],
    &[],
    &[(b"PS", Request::Region(RegionKind::Picture))],
    &[],
    &[],
    &[],
    &[(b"TS", Request::Region(RegionKind::Table))],
    &[],
    &[],
    &[],
    &[],
    &[],
    &[],
    &[],
    &[],
    &[],
    &[],
    &[],
    &[],
    &[
        (b"am", Request::Region(RegionKind::Append)),
        (b"as", Request::Definition(DefinitionRequest::AppendString)),
        (b"ad", Request::Ignored),
        (b"af", Request::Ignored),
        (b"als", Request::Unsupported),
    ],
    &[
        (b"br", Request::Layout(LayoutRequest::Break)),
        (b"bp", Request::Ignored),
        (b"break", Request::Unsupported),
    ],
    &[
        (b"cs", Request::Ignored),
        (b"c2", Request::Unsupported),
        (b"cc", Request::Unsupported),
        (b"ce", Request::Unsupported),
        (b"ch", Request::Unsupported),
        (b"char", Request::Unsupported),
    ],
    &[
        (b"de", Request::Region(RegionKind::Define)),
        (b"ds", Request::Definition(DefinitionRequest::DefineString)),
        (b"da", Request::Unsupported),
        (b"di", Request::Unsupported),
        (b"do", Request::Unsupported),
    ],
    &[
        (b"el", Request::Else),
        (b"ec", Request::Unsupported),
        (b"eo", Request::Unsupported),
        (b"ev", Request::Unsupported),
    ],
    &[
        (b"ft", Request::Layout(LayoutRequest::Font)),
        (b"fi", Request::Layout(LayoutRequest::Literal(false))),
        (b"fam", Request::Ignored),
        (b"fp", Request::Ignored),
    ],
    &[],
    &[
        (b"hcode", Request::Ignored),
        (b"hw", Request::Ignored),
        (b"hy", Request::Ignored),
    ],
    &[
        (b"if", Request::If),
        (b"ie", Request::IfElse),
        (b"ig", Request::Region(RegionKind::Ignore)),
        (b"in", Request::Layout(LayoutRequest::Shift)),
        (b"it", Request::Unsupported),
    ],
    &[],
    &[],
    &[
        (b"lg", Request::Ignored),
        (b"ls", Request::Ignored),
        (b"ll", Request::Unsupported),
    ],
    &[(b"mk", Request::Ignored), (b"mso", Request::Unsupported)],
    &[
        (b"nr", Request::Definition(DefinitionRequest::SetRegister)),
        (b"nf", Request::Layout(LayoutRequest::Literal(true))),
        (b"na", Request::Ignored),
        (b"ne", Request::Ignored),
        (b"nh", Request::Ignored),
        (b"ns", Request::Ignored),
        (b"nop", Request::Unsupported),
    ],
    &[],
    &[
        (b"pl", Request::Ignored),
        (b"po", Request::Ignored),
        (b"ps", Request::Ignored),
    ],
    &[],
    &[
        (b"rm", Request::Definition(DefinitionRequest::Remove)),
        (b"rn", Request::Definition(DefinitionRequest::Rename)),
        (
            b"rr",
            Request::Definition(DefinitionRequest::RemoveRegisters),
        ),
        (b"rs", Request::Ignored),
        (b"return", Request::Unsupported),
    ],
    &[
        (b"sp", Request::Layout(LayoutRequest::Space)),
        (b"ss", Request::Ignored),
        (b"shift", Request::Unsupported),
        (b"so", Request::Unsupported),
    ],
    &[
        (b"tm", Request::Ignored),
        (b"ta", Request::Unsupported),
        (b"ti", Request::Unsupported),
        (b"tr", Request::Unsupported),
    ],
    &[(b"ul", Request::Ignored)],
    &[(b"vs", Request::Ignored)],
    &[
        (b"while", Request::While),
        (b"warn", Request::Ignored),
        (b"wh", Request::Unsupported),
    ],
    &[],
    &[],
    &[],
];
