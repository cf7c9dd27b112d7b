//! Which program a command line is for (mandoc(1), SYNOPSIS).

ghost use Rattle.std.specs.Prelude.{◌≡◌};
ghost use Rattle.mandoc_command.specs.Line.{arguments_of, program_of, texts};

/// A program, each with a command line of its own.
#[derive(Clone, Copy)]
pub(crate) enum Program {
    /// The formatter (mandoc(1)).
    Format,
    /// `makewhatis` (makewhatis(8)).
    Makewhatis,
    /// `whatis` (whatis(1)).
    Whatis,
}

impl Program {
    /// The program that the first word names; any other word is one of the formatter's.
    #[tactic(auto, unfolding(crate::specs::Line::program_of))]
    pub(crate) fn named(words: &[&str]) -> Program
        ensures { result ≡ program_of (texts words.now) }
    {
        match words.first() {
            Some(word) if *word == "makewhatis" => Program::Makewhatis,
            Some(word) if *word == "whatis" => Program::Whatis,
            _ => Program::Format,
        }
    }

    /// The words without the program's name.
    pub(crate) fn arguments<'a, 'w>(self, words: &'a [&'w str]) -> &'a [&'w str]
        ensures { texts result.now ≡ arguments_of self (texts words.now) }
    {
        if matches!(self, Program::Format) || words.is_empty() {
            return words;
        }
        &words[1..]
    }
}
