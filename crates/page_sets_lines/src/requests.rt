//! The requests that change rows (roff(7), "REQUEST REFERENCE"). All sets of macros know them.

ghost use Rattle.std.specs.Prelude.{◌≡◌};
ghost use Rattle.page_sets_lines.specs.Lines.{text_of, layout_request};
ghost use Rattle.page_sets_lines.specs.laws.Events.{given_view, request_view, text_view};
ghost use Rattle.page_sets_lines.specs.Lines as plain;

use crate::leaves::RequestLeaf;
use page_roff_syntax::{Argument, LayoutRequest};

/// The request of this name that changes rows.
#[tactic(auto, unfolding(crate::specs::Lines::layout_request))]
pub fn layout_request(name: &[u8]) -> Option<LayoutRequest>
    ensures { result ≡ layout_request name.now }
{
    match page_roff_syntax::Request::of(name) {
        Some(page_roff_syntax::Request::Layout(request)) => Some(request),
        _ => None,
    }
}

// The text of an argument, where there is one.
fn text_of<'a>(given: Option<Argument<&'a [u8]>>) -> Option<&'a [u8]>
    ensures { text_view result ≡ text_of (given_view given.entry) }
{
    match given {
        Some(argument) => Some(argument.text),
        None => None,
    }
}

/// A request with its first argument, where it has one.
pub fn with_argument<'a>(
    request: LayoutRequest,
    given: Option<Argument<&'a [u8]>>,
) -> RequestLeaf<&'a [u8]>
    ensures { request_view result ≡ plain.request request (given_view given.entry) }
{
    match request {
        LayoutRequest::Break => RequestLeaf::Break,
        LayoutRequest::Space => RequestLeaf::Space(text_of(given)),
        LayoutRequest::Font => RequestLeaf::Font(given),
        LayoutRequest::Shift => RequestLeaf::Shift(text_of(given)),
        LayoutRequest::Literal(on) => RequestLeaf::Literal(on),
    }
}
