//! What the name of a control line stands for (roff(7), "MACRO SYNTAX" and "REQUEST REFERENCE").

ghost use Rattle.std.specs.Prelude.{◌≡◌, ◌≤◌, [], length, true, IfSome, is_some, unwrap_or};
ghost use Rattle.page_core_base.specs.declared.limits.TheConstants.{BODY};
ghost use Rattle.page_roff_syntax.specs.laws.Views.{text_view};
ghost use Rattle.page_roff_effects.specs.Lines as named;
ghost use Rattle.page_roff_effects.specs.machine.Acting.{IsOrdinary};

use page_core_base::BODY;
use page_roff_definitions::is_in_copy_mode;
use page_roff_names::Names;
use page_roff_syntax::{DefinitionRequest, Request};

/// What a control line with a name does.
#[derive(Clone, Copy)]
pub(crate) enum Command {
    /// It calls a macro of the page.
    Call,
    /// It defines a string or number register, or takes definitions away.
    Define(DefinitionRequest),
    /// It is a request without effect.
    Ignore,
    /// It is a request that is not supported.
    Refuse,
    /// It is left to the set of macros: a request that changes rows, a macro of the language, or an unknown one.
    Pass,
}

/// What comes of a part of a source besides messages.
#[derive(Clone, Copy)]
pub enum ProductKind {
    /// Nothing.
    Nothing,
    /// A finished line for the set of macros.
    Line,
    /// The call of a macro.
    Call,
    /// A loop that is whole.
    Loop,
}

// The body of a macro of the page.
fn called_body<'a>(name: &[u8], names: &'a Names) -> Option<&'a [u8]>
    ensures value { text_view result ≡ named.called_body name.now names.now }
    ensures short { IfSome result (λ body. length body.now ≤ BODY) }
{
    match names.body(name) {
        Some(body) if body.len() <= BODY => Some(body),
        _ => None,
    }
}

/// The body of a macro of the page, or nothing where there is no such macro.
pub(crate) fn body_or_nothing<'a>(name: &[u8], names: &'a Names) -> &'a [u8]
    ensures value { result.now ≡ unwrap_or (named.called_body name.now names.now) [] }
    ensures short { length result.now ≤ BODY }
{
    match called_body(name, names) {
        Some(body) => body,
        None => &[],
    }
}

// What a request does, or a name that is left to the set of macros.
fn request_command(request: Option<Request>) -> Command
    ensures { result ≡ named.request_command request }
{
    match request {
        Some(Request::Definition(request)) => Command::Define(request),
        Some(Request::Ignored) => Command::Ignore,
        Some(Request::Unsupported) => Command::Refuse,
        _ => Command::Pass,
    }
}

/// Whether a name calls a macro of the page. Where it does, [`body_or_nothing`] need not search for the body anew.
pub(crate) fn is_called(name: &[u8], names: &mut Names) -> bool
    ensures called { result ≡ is_some (named.called_body name.now names.old) }
    ensures same { names.new ≡ names.old }
{
    match names.seek_body(name) {
        Some(len) => len <= BODY,
        None => false,
    }
}

/// Whether a name is no request but one that changes rows: then it heads nothing, and where it calls no macro it is left to the set of macros.
pub(crate) fn is_ordinary(name: &[u8]) -> bool
    ensures { result ≡ true → IsOrdinary name.now }
{
    matches!(Request::of(name), None | Some(Request::Layout(_)))
}

impl Command {
    /// What a name stands for.
    #[tactic(auto, unfolding(crate::specs::Lines::command_of))]
    pub(crate) fn of(name: &[u8], names: &mut Names) -> Command
        ensures command { result ≡ named.command_of name.now names.old }
        ensures same { names.new ≡ names.old }
    {
        if is_called(name, names) {
            Command::Call
        } else {
            request_command(Request::of(name))
        }
    }

    /// Whether the rest of its line is expanded in copy mode.
    pub(crate) fn copies(self) -> bool
        ensures { result ≡ named.copies self }
    {
        match self {
            Command::Define(request) => is_in_copy_mode(request),
            Command::Call | Command::Ignore | Command::Refuse | Command::Pass => false,
        }
    }
}
