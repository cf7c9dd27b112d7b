//! What a macro among the words of a line does (mdoc(7), "MACRO REFERENCE"). Most of these can be called by a word.

use page_core_base::Font;
use page_sets_lines::{Marks, Quotation};

/// What a macro prints where it has no words.
#[derive(Clone, Copy, PartialEq, Eq)]
pub enum Defaulted {
    /// `Ar`: `file ...`.
    Files,
    /// `Pa`: `~`.
    Home,
}

/// A system that a macro names.
#[derive(Clone, Copy, PartialEq, Eq)]
pub enum System {
    /// `Bsx`.
    BsdOs,
    /// `Dx`.
    DragonFly,
    /// `Fx`.
    FreeBsd,
    /// `Nx`.
    NetBsd,
    /// `Ox`.
    OpenBsd,
    /// `Ux`.
    Unix,
}

/// Two macros, of which the one begins a scope and the other ends it.
#[derive(Clone, Copy, PartialEq, Eq)]
pub enum Pair {
    /// `Ao` and `Ac`, `Bo` and `Bc`, `Bro` and `Brc`, `Do` and `Dc`, `Oo` and `Oc`, `Po` and `Pc`, `Qo` and `Qc`,
    /// `So` and `Sc`.
    Quotation(Quotation),
    /// `Eo` and `Ec`: the marks are their own.
    Custom,
    /// `Fo` and `Fc`: a function with its arguments.
    Function,
    /// `Xo` and `Xc`: no marks.
    Extension,
}

/// What a macro among the words of a line does.
#[derive(Clone, Copy, PartialEq, Eq)]
pub enum Inline {
    /// Prints its words in a font: bold `Cm Ic Ms Sy`, italic `Ad Em Mt Sx Va`, roman `At Dv Er Ev Lb Li No St Tn`.
    Words(Font),
    /// `An`: an author, or how authors are parted.
    Author,
    /// `Cd` and `Fd`: a declaration, on rows of its own in the SYNOPSIS.
    Declaration,
    /// `Ft` and `Vt`: a type, which begins a row in the SYNOPSIS.
    TypeName,
    /// `Fa`: arguments of a function.
    Arguments,
    /// `Nm`: the name of the manual.
    Name,
    /// `Ar` and `Pa`: operands and paths, which have words of their own.
    Defaulted(Defaulted),
    /// `Fl`: flags.
    Flag,
    /// `Xr`: another manual.
    Reference,
    /// `Fn`: a function with its arguments.
    Function,
    /// `Bsx Dx Fx Nx Ox Ux`: a system with its version.
    System(System),
    /// `Bx`: a version, and BSD.
    Bsd,
    /// `Lk`: a link with its text.
    Link,
    /// `Ns`: no blank.
    NoSpace,
    /// `Ap`: an apostrophe.
    Apostrophe,
    /// `Ta`: the next column of a list.
    NextColumn,
    /// `Pf`: a word before others, without a blank.
    Prefix,
    /// `Aq Bq Brq Dq Op Pq Ql Qq Sq`: marks around the rest of the line.
    Enclosure(Marks),
    /// `Ao Bo Bro Do Eo Fo Oo Po Qo So Xo`.
    Opens(Pair),
    /// `Ac Bc Brc Dc Ec Fc Oc Pc Qc Sc Xc`.
    Closes(Pair),
}
