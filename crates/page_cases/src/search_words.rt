//! What the words of a title ask for: a search in an index.

use page_engine_index::Show;
use std::alloc::{AllocError, Global};

/// What is looked for in an index.
#[derive(Drop)]
pub(crate) struct Asked<'a> {
    pub(crate) words: Vec<&'a str>,
    pub(crate) section: Option<&'a str>,
    pub(crate) show: Show,
}

impl<'a> Asked<'a> {
    /// What is asked by `WORD|WORD.. -s=SECTION -w`, of which the options may be missing.
    pub(crate) fn new(alloc: Global, text: &'a str) -> Result<Asked<'a>, AllocError> {
        let (text, show) = match text.strip_suffix(" -w") {
            Some(text) => (text, Show::File),
            None => (text, Show::Entry),
        };
        let (text, section) = match text.split_once(" -s=") {
            Some((text, section)) => (text, Some(section)),
            None => (text, None),
        };
        let mut words = Vec::new(alloc);
        for word in text.split('|') {
            words.push(word)?;
        }
        Ok(Asked {
            words,
            section,
            show,
        })
    }
}

/// An index as it is written in a case: `\t` is a tab, `\r` a carriage return, and `\c` takes the line feed after it away.
pub(crate) fn index_of(alloc: Global, text: &str) -> Result<String, AllocError> {
    let mut index = String::new(alloc);
    for (place, part) in text.split('\\').enumerate() {
        let rest = match part.chars().next() {
            Some('t') if place > 0 => {
                index.push('\t')?;
                part.strip_prefix('t')
            }
            Some('r') if place > 0 => {
                index.push('\r')?;
                part.strip_prefix('r')
            }
            Some('c') if place > 0 => part.strip_prefix("c\n"),
            _ => Some(part),
        };
        index.push_str(rest.unwrap_or(part))?;
    }
    Ok(index)
}
