//! The texts that a command line gives: files, directories, words.

use clap::ArgMatches;
use std::alloc::{AllocError, Global};
use std::marker::Model;

/// Texts of a command line, in their order. Contracts see a list of texts.
#[derive(Drop)]
pub struct Texts {
    texts: Vec<String>,
}

impl Model for Texts {
    ghost use Rattle.std.specs.Prelude.{ℕ, List, map, string_bytes};

    ghost Value = { List (List ℕ) };

    ghost view = { λ t. map string_bytes t.texts.items };
}

impl Texts {
    ghost use Rattle.std.specs.Prelude.{◌≡◌, map, IfOk, string_bytes};
    ghost use Rattle.clap.specs.Words.{found_of, rows_of};
    ghost use Rattle.mandoc_command.specs.Line.{names_in};

    /// The words that are no options, in their order.
    #[tactic(auto, unfolding(crate::specs::Line::names_in))]
    pub(crate) fn in_matches(alloc: Global, matches: &ArgMatches) -> Result<Texts, AllocError>
        ensures { IfOk result (λ names. names ≡ names_in (rows_of (found_of matches.now))) }
    {
        match matches.get_strs("names") {
            Some(names) => Texts::copied(alloc, names),
            None => Ok(Texts {
                texts: Vec::new(alloc),
            }),
        }
    }

    // The same texts.
    fn copied(alloc: Global, names: &[&str]) -> Result<Texts, AllocError>
        ensures { IfOk result (λ texts. texts ≡ map (λ text. text.now) names.now) }
    {
        let mut texts = Vec::with_capacity(alloc, names.len())?;
        for text in names {
            texts.push(String::from_str(alloc, text)?)?;
        }
        Ok(Texts { texts })
    }

    /// The texts.
    pub fn as_slice(&self) -> &[String]
        ensures { map string_bytes result.now ≡ self.now }
    {
        self.texts.as_slice()
    }
}
