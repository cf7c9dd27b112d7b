//! What a source is, as places in its text.

/// What a source is.
#[derive(Clone, Copy)]
pub(crate) enum SourceKind {
    /// The page.
    Page,
    /// The body of a macro or of a loop: where the arguments begin, of the macro or of the one in which the loop is.
    Body(Option<usize>),
}
