//! Lines as roff hands them to a macro set: finished, one by one (roff(7)).

/// What a finished line is, judged by its raw text.
#[derive(Clone, Copy, PartialEq, Eq)]
pub enum Form {
    /// Text, also where nothing of it is left after expansion.
    Text,
    /// A line of blanks and tabs, or of nothing.
    Blank,
    /// A control line with the name of a macro, of a request that changes rows, or of neither. The name is not empty: it
    /// is after the control character and white space, up to where [`Taken::name_end`] says.
    Control,
    /// A line inside a table, an equation or a picture, as it is written.
    Raw,
}

/// A finished line for a macro set, with the number of its source line.
#[derive(Clone, Copy)]
pub struct Taken<'a> {
    pub form: Form,
    pub text: &'a [u8],
    pub line: u32,
    /// The bytes up to the end of the name of a control line; 0 in any other line. What is interpolated right after a
    /// name is no part of it: `.B\*(ab` has the name `B`.
    pub name_end: u32,
}
