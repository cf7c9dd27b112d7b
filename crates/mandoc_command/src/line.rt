//! What a command line asks for (mandoc(1), SYNOPSIS; makewhatis(8), whatis(1)).

ghost use Rattle.std.specs.Prelude.{◌≡◌, MatchResult, IfOk, None, Some, map, option_map, string_bytes};
ghost use Rattle.std.specs.List.{list_any};
ghost use Rattle.clap.specs.Words.{first_of, found_of, rows_of};
ghost use Rattle.page_core_base.specs.Settings.{IsGood};
ghost use Rattle.mandoc_command.specs.Asked.{text_in};
ghost use Rattle.mandoc_command.specs.Line.{HasGoodSettings, wanted, wanted_of, texts, formats_in, formats_of, indexes_in, indexes_of, searches_in, searches_of, are_words, is_set, is_empty, may_be_dir};

use crate::given::{Given, matches_in};
use crate::programs::Program;
use crate::settings::settings_of;
use crate::{Command, Format, Makewhatis, Refusal, Texts, Whatis};
use clap::ArgMatches;
use std::alloc::{AllocError, Global};

/// What the words after the program's name ask for (mandoc(1), SYNOPSIS). The first word may name another program than the formatter:
/// `makewhatis` (makewhatis(8)) or `whatis` (whatis(1)).
///
/// Its fault is [`Refusal::Words`] where an option is unknown, given twice or without a value, where a value is none that the option takes,
/// where the settings are refused by their check, where `makewhatis` has no directory, and where `whatis` has no word, or an empty one. A
/// directory without a name is refused too: it would stand for the root of all files.
/// Want of memory is [`Refusal::Memory`], at any words.
///
/// It is a call, so that what comes after it reuses the stack pages that it touched.
#[inline(never)]
#[tactic(auto, unfolding(crate::specs::Line::wanted))]
pub fn command(alloc: Global, words: &[&str]) -> Result<Command, Refusal>
    ensures wanted { MatchResult result
        (λ asked. wanted (texts words.now) ≡ Some (wanted_of asked))
        (λ refusal. refusal ≡ Refusal.Words → wanted (texts words.now) ≡ None) }
    ensures good { IfOk result HasGoodSettings }
{
    let program = Program::named(words);
    let matches = matches_in(alloc, program, program.arguments(words))?;
    match program {
        Program::Format => Ok(Command::Format(format_in(alloc, &matches)?)),
        Program::Makewhatis => Ok(Command::Makewhatis(makewhatis_in(alloc, &matches)?)),
        Program::Whatis => Ok(Command::Whatis(whatis_in(alloc, &matches)?)),
    }
}

// The pages that are to be formatted.
#[tactic(auto, unfolding(crate::specs::Line::formats_in))]
fn format_in(alloc: Global, matches: &ArgMatches) -> Result<Format, Refusal>
    ensures wanted { MatchResult result
        (λ asked. formats_in (rows_of (found_of matches.now)) ≡ Some (formats_of asked))
        (λ refusal. refusal ≡ Refusal.Words → formats_in (rows_of (found_of matches.now)) ≡ None) }
    ensures good { IfOk result (λ asked. IsGood asked.settings) }
{
    let Some(settings) = settings_of(Given::in_matches(matches)) else {
        return Err(Refusal::Words);
    };
    let Ok(files) = Texts::in_matches(alloc, matches) else {
        return Err(Refusal::Memory);
    };
    Ok(Format { settings, files })
}

// The indexes that are to be made.
#[tactic(auto, unfolding(crate::specs::Line::indexes_in))]
fn makewhatis_in(alloc: Global, matches: &ArgMatches) -> Result<Makewhatis, Refusal>
    ensures { MatchResult result
        (λ asked. indexes_in (rows_of (found_of matches.now)) ≡ Some (indexes_of asked))
        (λ refusal. refusal ≡ Refusal.Words → indexes_in (rows_of (found_of matches.now)) ≡ None) }
{
    let Ok(dirs) = Texts::in_matches(alloc, matches) else {
        return Err(Refusal::Memory);
    };
    if !are_words(dirs.as_slice()) {
        return Err(Refusal::Words);
    }
    Ok(Makewhatis {
        prints: has_flag(matches, "prints"),
        dirs,
    })
}

// The words that are to be looked for.
#[tactic(auto, unfolding(crate::specs::Line::searches_in))]
fn whatis_in(alloc: Global, matches: &ArgMatches) -> Result<Whatis, Refusal>
    ensures { MatchResult result
        (λ asked. searches_in (rows_of (found_of matches.now)) ≡ Some (searches_of asked))
        (λ refusal. refusal ≡ Refusal.Words → searches_in (rows_of (found_of matches.now)) ≡ None) }
{
    let Ok(words) = Texts::in_matches(alloc, matches) else {
        return Err(Refusal::Memory);
    };
    let dir = value_of(matches, "dir");
    if !are_words(words.as_slice()) || !may_be_dir(dir) {
        return Err(Refusal::Words);
    }
    let Ok(dir) = copied(alloc, dir) else {
        return Err(Refusal::Memory);
    };
    let Ok(section) = copied(alloc, value_of(matches, "section")) else {
        return Err(Refusal::Memory);
    };
    Ok(Whatis {
        dir,
        section,
        shows_files: has_flag(matches, "files"),
        words,
    })
}

// Whether there is a word, and no empty one.
#[tactic(auto, using(crate::proofs::LineLemmas::are_words_map))]
fn are_words(words: &[String]) -> bool
    ensures { result ≡ are_words (map string_bytes words.now) }
{
    !words.is_empty() && !has_empty(words)
}

// Whether the directory of an index has a name, where it is given.
fn may_be_dir(dir: Option<&str>) -> bool
    ensures { result ≡ may_be_dir (text_in dir.entry) }
{
    match dir {
        Some(dir) => !dir.is_empty(),
        None => true,
    }
}

// Whether a text is empty.
fn has_empty(words: &[String]) -> bool
    ensures { result ≡ list_any (λ word. is_empty (string_bytes word)) words.now }
{
    words.iter().any(|word| word.is_empty())
}

// Whether an option without a value is given: `clap` finds `true` for it.
fn has_flag(matches: &ArgMatches, id: &str) -> bool
    ensures { result ≡ is_set (first_of id.now (rows_of (found_of matches.now))) }
{
    match value_of(matches, id) {
        Some(text) => text == "true",
        None => false,
    }
}

// The value of an option, where it has one.
fn value_of<'a>(matches: &ArgMatches<'a>, id: &str) -> Option<&'a str>
    ensures { text_in result ≡ first_of id.now (rows_of (found_of matches.now)) }
{
    matches.get_str(id)
}

// The same text, where there is one.
fn copied(alloc: Global, text: Option<&str>) -> Result<Option<String>, AllocError>
    ensures { IfOk result (λ copy. option_map string_bytes copy ≡ text_in text.entry) }
{
    match text {
        Some(text) => Ok(Some(String::from_str(alloc, text)?)),
        None => Ok(None),
    }
}
