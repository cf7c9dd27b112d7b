//! What is found in the words of a command line (mandoc(1), SYNOPSIS).

ghost use Rattle.std.specs.Prelude.{◌≡◌, true, false, IfOk, MatchResult};
ghost use Rattle.clap.specs.Words.{app_of, found_of, rows_of, rule_of};
ghost use Rattle.mandoc_command.specs.Line.{line, is_line, found_in, refusal_by, names_rule, option_rule, flag_rule, format_rules, makewhatis_rules, whatis_rules, rules, HaveRules, texts};

use crate::Refusal;
use crate::programs::Program;
use clap::error::ErrorKind;
use clap::{Arg, ArgAction, ArgMatches};
use std::alloc::{AllocError, Global};

/// The value of each option of the formatter that is given.
#[derive(Clone, Copy)]
pub(crate) struct Given<'a> {
    /// `-T`
    pub(crate) output: Option<&'a str>,
    /// `-W`
    pub(crate) level: Option<&'a str>,
    /// `-O`
    pub(crate) measures: Option<&'a str>,
    /// `-K`
    pub(crate) encoding: Option<&'a str>,
    /// `-I`
    pub(crate) system: Option<&'a str>,
    /// `-m`
    pub(crate) language: Option<&'a str>,
}

impl<'a> Given<'a> {
    ghost use Rattle.std.specs.Prelude.{◌≡◌};
    ghost use Rattle.clap.specs.Words.{found_of, rows_of};
    ghost use Rattle.mandoc_command.specs.Asked.{values_of};
    ghost use Rattle.mandoc_command.specs.Line.{values_in};

    /// The values that were found.
    pub(crate) fn in_matches(matches: &ArgMatches<'a>) -> Given<'a>
        ensures { values_of result ≡ values_in (rows_of (found_of matches.now)) }
    {
        Given {
            output: matches.get_str("output"),
            level: matches.get_str("level"),
            measures: matches.get_str("measures"),
            encoding: matches.get_str("encoding"),
            system: matches.get_str("system"),
            language: matches.get_str("language"),
        }
    }
}

/// What is found in the words of a program's command line.
pub(crate) fn matches_in<'a>(
    alloc: Global,
    program: Program,
    words: &'a [&'a str],
) -> Result<ArgMatches<'a>, Refusal>
    ensures { MatchResult result
        (λ matches. (is_line program (texts words.now) ≡ true)
        × (rows_of (found_of matches) ≡ found_in program (texts words.now)))
        (λ refusal. refusal ≡ Refusal.Words → is_line program (texts words.now) ≡ false) }
{
    let Ok(line) = line(alloc, program) else {
        return Err(Refusal::Memory);
    };
    match line.try_get_matches_from(words) {
        Ok(matches) => Ok(matches),
        Err(error) => Err(refusal_by(error.kind())),
    }
}

// Why a command line is refused at which `clap` finds a fault of a kind.
fn refusal_by(kind: ErrorKind) -> Refusal
    ensures { result ≡ refusal_by kind }
{
    match kind {
        ErrorKind::OutOfMemory => Refusal::Memory,
        _ => Refusal::Words,
    }
}

// The options and names of a program's command line, with no name of the program in front, no help and no version.
fn line<'a>(alloc: Global, program: Program) -> Result<clap::Command<'a>, AllocError>
    ensures { IfOk result (λ command. app_of command ≡ line program) }
{
    let args = args_of(alloc, program)?;
    clap::Command::new(alloc, "mandoc")
        .no_binary_name(true)
        .disable_help_flag(true)
        .disable_version_flag(true)
        .args(args)
}

// The options and names of a program.
fn args_of<'a>(alloc: Global, program: Program) -> Result<Vec<Arg<'a>>, AllocError>
    ensures { IfOk result (λ args. HaveRules args.items (rules program)) }
{
    match program {
        Program::Format => format_args(alloc),
        Program::Makewhatis => makewhatis_args(alloc),
        Program::Whatis => whatis_args(alloc),
    }
}

// The options of the formatter, and then the files.
fn format_args<'a>(alloc: Global) -> Result<Vec<Arg<'a>>, AllocError>
    ensures { IfOk result (λ args. HaveRules args.items format_rules) }
{
    let args = [
        option(alloc, "output", 'T'),
        option(alloc, "level", 'W'),
        option(alloc, "measures", 'O'),
        option(alloc, "encoding", 'K'),
        option(alloc, "system", 'I'),
        option(alloc, "language", 'm'),
        names(alloc),
    ];
    Ok(Vec::from_array(alloc, args)?)
}

// The flag of `makewhatis`, and then the directories.
fn makewhatis_args<'a>(alloc: Global) -> Result<Vec<Arg<'a>>, AllocError>
    ensures { IfOk result (λ args. HaveRules args.items makewhatis_rules) }
{
    let args = [flag(alloc, "prints", 'n'), names(alloc)];
    Ok(Vec::from_array(alloc, args)?)
}

// The options of `whatis`, and then the words.
fn whatis_args<'a>(alloc: Global) -> Result<Vec<Arg<'a>>, AllocError>
    ensures { IfOk result (λ args. HaveRules args.items whatis_rules) }
{
    let args = [
        option(alloc, "dir", 'M'),
        option(alloc, "section", 's'),
        flag(alloc, "files", 'w'),
        names(alloc),
    ];
    Ok(Vec::from_array(alloc, args)?)
}

// An option with one value. It is made apart: in place of each call it would take a few kilobytes of the stack.
#[inline(never)]
fn option<'a>(alloc: Global, id: &'a str, letter: char) -> Arg<'a>
    ensures rule { rule_of result ≡ option_rule id.entry.now letter }
    ensures local { result.global ≡ false }
{
    Arg::new(alloc, id).short(letter).action(ArgAction::Set)
}

// An option without a value.
#[inline(never)]
fn flag<'a>(alloc: Global, id: &'a str, letter: char) -> Arg<'a>
    ensures rule { rule_of result ≡ flag_rule id.entry.now letter }
    ensures local { result.global ≡ false }
{
    Arg::new(alloc, id).short(letter).action(ArgAction::SetTrue)
}

// The words that are no options.
fn names<'a>(alloc: Global) -> Arg<'a>
    ensures rule { rule_of result ≡ names_rule }
    ensures local { result.global ≡ false }
{
    Arg::new(alloc, "names").action(ArgAction::Append)
}
