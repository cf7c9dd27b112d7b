//! The requests that define strings and number registers, and take definitions away (roff(7)).

ghost use Rattle.std.specs.Prelude.{◌≡◌, ◌≤◌, ◌+◌, length, [], ◌∷◌, ◌++◌, unwrap_or};
ghost use Rattle.page_core_base.specs.Bytes.{begins_sign};
ghost use Rattle.page_core_base.specs.declared.limits.TheConstants.{LINE};
ghost use Rattle.page_roff_syntax.specs.Arguments.{arguments};
ghost use Rattle.page_core_base.specs.Limits.{name_of};
ghost use Rattle.page_core_base.specs.Messages.{message_about};
ghost use Rattle.page_core_base.specs.declared.note_kinds.NoteKind.TheVariants as kinds;
ghost use Rattle.page_core_base.specs.laws.Views.{Came};
ghost use Rattle.page_roff_names.specs.Names.{string_of};
ghost use Rattle.page_roff_values.specs.Answers.{value_of};
ghost use Rattle.page_roff_definitions.specs.Definitions.{first_text};
ghost use Rattle.page_roff_definitions.specs.Definitions as defining;
ghost use Rattle.page_roff_definitions.specs.laws.Views.{Does, FitsRequest};

use crate::arguments::{report_closings, value_after};
use page_core_base::{Limit, Note, NoteKind, NoteOut, Place};
use page_roff_names::Names;
use page_roff_syntax::{Arguments, DefinitionRequest};
use page_roff_values::expression;

/// Whether the rest of a request's line is expanded in copy mode.
pub fn is_in_copy_mode(request: DefinitionRequest) -> bool
    ensures { result ≡ defining.is_in_copy_mode request }
{
    matches!(
        request,
        DefinitionRequest::DefineString | DefinitionRequest::AppendString
    )
}

/// The control line of a request, of which the rest is expanded.
#[derive(Clone, Copy)]
pub struct RequestLine<'a> {
    /// The place of the name.
    pub place: Place,
    /// What follows the name, of which the first byte is at a column.
    pub rest: &'a [u8],
    pub rest_column: u32,
}

// Reports a limit that a definition would pass.
fn report_limit<O: NoteOut>(limit: Limit, place: Place, out: &mut O)
    ensures { Came O.left out.old (message_about kinds.Limit place (name_of limit) ∷ []) out.new }
{
    out.report(&Note::about(NoteKind::Limit, place, limit.name().as_bytes()));
}

// Defines a string.
fn define_string<O: NoteOut>(
    name: &[u8],
    value: &[u8],
    place: Place,
    names: &mut Names,
    out: &mut O,
)
    ensures { Does O.left out.old out.new names.new
        (defining.defines_string name.now value.now place names.old) }
{
    if let Err(limit) = names.define_string(name, value) {
        report_limit(limit, place, out);
    }
}

// Appends to a string.
fn append_string<O: NoteOut>(name: &[u8], more: &[u8], place: Place, names: &mut Names, out: &mut O)
    ensures { Does O.left out.old out.new names.new
        (defining.defines_string name.now (unwrap_or (string_of name.now names.old) [] ++ more.now) place names.old) }
{
    if let Err(limit) = names.append_string(name, more) {
        report_limit(limit, place, out);
    }
}

// Gives a string or macro another name.
fn rename<O: NoteOut>(old_name: &[u8], name: &[u8], place: Place, names: &mut Names, out: &mut O)
    ensures { Does O.left out.old out.new names.new
        (defining.renames old_name.now name.now place names.old) }
{
    if let Err(limit) = names.rename(old_name, name) {
        report_limit(limit, place, out);
    }
}

// Gives a register a number.
fn set_register<O: NoteOut>(name: &[u8], number: i32, place: Place, names: &mut Names, out: &mut O)
    ensures { Does O.left out.old out.new names.new
        (defining.sets_register name.now number place names.old) }
{
    if let Err(limit) = names.set_register(name, number) {
        report_limit(limit, place, out);
    }
}

// Whether a value changes a register.
fn begins_sign(value: &[u8]) -> bool
    ensures { result ≡ begins_sign value.now }
{
    matches!(value, [b'+' | b'-', ..])
}

// Whether a register can't be set.
fn is_read_only(name: &[u8]) -> bool
    ensures { result ≡ defining.is_read_only name.now }
{
    matches!(name, [b'.', ..])
}

// The number that a register has after a value with this number, which changes it if a sign is there.
fn next_number(name: &[u8], value: &[u8], number: i32, names: &Names) -> i32
    requires { number ≡ value_of value.now }
    ensures { result ≡ defining.next_number name.now value.now names.now }
{
    if begins_sign(value) {
        names.register(name).unwrap_or(0).saturating_add(number)
    } else {
        number
    }
}

// Gives a register the number of a value, or changes it by that.
fn set_number<O: NoteOut>(name: &[u8], value: &[u8], place: Place, names: &mut Names, out: &mut O)
    ensures { Does O.left out.old out.new names.new
        (defining.reads_number name.now value.now place names.old) }
{
    let number = expression(value, place, out);
    if is_read_only(name) {
        return;
    }
    let next = next_number(name, value, number, names);
    set_register(name, next, place, names, out);
}

// Takes strings and macros away.
fn remove_all(rest: &[u8], column: u32, names: &mut Names)
    requires short { length rest.now ≤ LINE }
    requires room { column + length rest.now ≤ LINE + 1 }
    ensures { names.new ≡ defining.removes (arguments column rest.now) names.old }
{
    let mut arguments = Arguments::new(rest, column);
    while let Some(name) = arguments.next_argument() {
        names.remove(name.name().as_slice());
    }
}

// Takes registers away.
fn remove_registers(rest: &[u8], column: u32, names: &mut Names)
    requires short { length rest.now ≤ LINE }
    requires room { column + length rest.now ≤ LINE + 1 }
    ensures { names.new ≡ defining.removes_registers (arguments column rest.now) names.old }
{
    let mut arguments = Arguments::new(rest, column);
    while let Some(name) = arguments.next_argument() {
        names.remove_register(name.name().as_slice());
    }
}

// `ds`
fn do_define_string<O: NoteOut>(line: RequestLine<'_>, names: &mut Names, out: &mut O)
    requires { FitsRequest line }
    ensures { Does O.left out.old out.new names.new (defining.ds line.entry.rest_column line.entry.rest.now
        (arguments line.entry.rest_column line.entry.rest.now) line.entry.place names.old) }
{
    match Arguments::new(line.rest, line.rest_column).next_argument() {
        Some(name) if !name.text.is_empty() => {
            let value = value_after(line.rest, line.rest_column, name);
            define_string(name.name().as_slice(), value, line.place, names, out);
        }
        _ => {}
    }
}

// `as`
fn do_append_string<O: NoteOut>(line: RequestLine<'_>, names: &mut Names, out: &mut O)
    requires { FitsRequest line }
    ensures { Does O.left out.old out.new names.new
        (defining.as_request line.entry.rest_column line.entry.rest.now
        (arguments line.entry.rest_column line.entry.rest.now) line.entry.place names.old) }
{
    match Arguments::new(line.rest, line.rest_column).next_argument() {
        Some(name) if !name.text.is_empty() => {
            let more = value_after(line.rest, line.rest_column, name);
            append_string(name.name().as_slice(), more, line.place, names, out);
        }
        _ => {}
    }
}

// The text of the next argument; none: the empty text.
fn next_text<'a>(arguments: &mut Arguments<'a>) -> &'a [u8]
    ensures { result.now ≡ first_text arguments.old }
{
    match arguments.next_argument() {
        Some(argument) => argument.text,
        None => &[],
    }
}

// `nr`
fn do_set_register<O: NoteOut>(line: RequestLine<'_>, names: &mut Names, out: &mut O)
    requires { FitsRequest line }
    ensures { Does O.left out.old out.new names.new
        (defining.nr (arguments line.entry.rest_column line.entry.rest.now) line.entry.place names.old) }
{
    let mut arguments = Arguments::new(line.rest, line.rest_column);
    match arguments.next_argument() {
        Some(name) if !name.text.is_empty() => {
            let value = next_text(&mut arguments);
            set_number(name.name().as_slice(), value, line.place, names, out);
        }
        _ => {}
    }
}

// `rn`
fn do_rename<O: NoteOut>(line: RequestLine<'_>, names: &mut Names, out: &mut O)
    requires { FitsRequest line }
    ensures { Does O.left out.old out.new names.new
        (defining.rn (arguments line.entry.rest_column line.entry.rest.now) line.entry.place names.old) }
{
    let mut arguments = Arguments::new(line.rest, line.rest_column);
    let Some(old_name) = arguments.next_argument() else {
        return;
    };
    match arguments.next_argument() {
        Some(name) if !name.text.is_empty() => {
            let old_name = old_name.name();
            rename(
                old_name.as_slice(),
                name.name().as_slice(),
                line.place,
                names,
                out,
            )
        }
        _ => {}
    }
}

/// Does what a request says. The line's rest is expanded, in copy mode where the request wants that.
#[tactic(auto, unfolding(crate::specs::Definitions::outcome_of))]
pub fn define<O: NoteOut>(
    request: DefinitionRequest,
    line: RequestLine<'_>,
    names: &mut Names,
    out: &mut O,
)
    requires { FitsRequest line }
    ensures { Does O.left out.old out.new names.new
        (defining.outcome_of request line.entry.place line.entry.rest_column line.entry.rest.now names.old) }
{
    if !is_in_copy_mode(request) {
        let place = Place {
            line: line.place.line,
            column: line.rest_column,
        };
        report_closings(out, place, line.rest);
    }
    match request {
        DefinitionRequest::DefineString => do_define_string(line, names, out),
        DefinitionRequest::AppendString => do_append_string(line, names, out),
        DefinitionRequest::SetRegister => do_set_register(line, names, out),
        DefinitionRequest::Remove => remove_all(line.rest, line.rest_column, names),
        DefinitionRequest::Rename => do_rename(line, names, out),
        DefinitionRequest::RemoveRegisters => {
            remove_registers(line.rest, line.rest_column, names)
        }
    }
}
