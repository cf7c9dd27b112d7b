//! Texts of a page as pieces and messages, word by word: blanks, fonts, rows that are kept as they are, and the messages of escapes (roff(7)).
//!
//! A text of an event comes in with a `Pen` (`page_scopes_words`), which is what is known before it; its pieces go down to be filled. Read
//! `specs/Texts.antt` first: the words of a text, a word, and what parts words. What the code does faster is in
//! `specs/machine/`.
//!
//! Proved: `give_text`: the pieces and messages of a text, word by word, with the blanks before each, in rows that are filled or kept
//! (`specs/Texts.antt`).
#![tactic(auto)]

mod kept_texts;
mod last_words;
mod lettered_texts;
mod lettered_words;
mod parts;
mod texts;
mod words;

pub use last_words::last_word;
pub use texts::give_text;
