//! Records of pages, as an index has them and as they are printed (makewhatis(8)).

ghost use Rattle.std.specs.Prelude.{◌≡◌, MatchResult, IfErr, true};
ghost use Rattle.std.specs.List.{flat_map};
ghost use Rattle.page_core_streams.specs.Streams.{ErrsBy, Grows, GrowsInto};
ghost use Rattle.page_engine_index.specs.Fields.{is_field};
ghost use Rattle.page_engine_index.specs.Records.{entry_with, entry_line, printed_record};

use page_core_base::Fault;
use page_core_streams::{Target, put_all};
use std::marker::Model;

/// The first line of an index, without its line feed: its version.
pub const FIRST_LINE: &str = "whatis 2";

/// A text of a record. Contracts see the list of its bytes.
#[derive(Drop)]
pub struct Text {
    bytes: Vec<u8>,
}

impl Model for Text {
    ghost use Rattle.std.specs.Prelude.{ℕ, List};

    ghost Value = { List ℕ };

    ghost view = { λ text. text.bytes.items };
}

impl Text {
    ghost use Rattle.std.specs.Prelude.{◌≡◌};

    /// A text of these bytes.
    pub fn new(bytes: Vec<u8>) -> Text
        ensures { result ≡ bytes.items }
    {
        Text { bytes }
    }

    /// The bytes.
    pub fn bytes(&self) -> &[u8]
        ensures { result.now ≡ self.now }
    {
        self.bytes.as_slice()
    }
}

/// What an index says of a page: its names, separated by `, `, its section, and its description.
#[derive(Drop)]
pub struct Record {
    pub names: Text,
    pub section: Text,
    pub description: Text,
}

/// Writes a record as a line of an index of version 2: its fields and the page's file below its directory, separated by tabs. Its fault is
/// [`Fault::WriteText`], where the writer failed; then a front of the line was written.
pub fn write_record<W: Target>(out: &mut W, page: &Record, file: &str) -> Result<(), Fault>
    requires { is_field file.now ≡ true }
    ensures gives { MatchResult result
        (λ _. Grows (W.contents out.old) (W.contents out.new) (entry_line (entry_with page.now file.now)))
        (λ _. GrowsInto (W.contents out.old) (W.contents out.new) (entry_line (entry_with page.now file.now))) }
    ensures cause { ErrsBy W.counts result (W.failures out.old) (W.failures out.new) }
    ensures fault { IfErr result (λ fault. fault ≡ Fault.WriteText) }
{
    let texts: [&[u8]; 8] = [
        page.names.bytes(),
        b"\t",
        page.section.bytes(),
        b"\t",
        page.description.bytes(),
        b"\t",
        file.as_bytes(),
        b"\n",
    ];
    write_texts(out, &texts)
}

/// Prints a record as `names(section) - description` and a line feed. Its fault is [`Fault::WriteText`], where the writer failed; then a
/// front of the line was written.
pub fn print_record<W: Target>(out: &mut W, page: &Record) -> Result<(), Fault>
    ensures gives { MatchResult result
        (λ _. Grows (W.contents out.old) (W.contents out.new) (printed_record page.now))
        (λ _. GrowsInto (W.contents out.old) (W.contents out.new) (printed_record page.now)) }
    ensures cause { ErrsBy W.counts result (W.failures out.old) (W.failures out.new) }
    ensures fault { IfErr result (λ fault. fault ≡ Fault.WriteText) }
{
    let texts: [&[u8]; 6] = [
        page.names.bytes(),
        b"(",
        page.section.bytes(),
        b") - ",
        page.description.bytes(),
        b"\n",
    ];
    write_texts(out, &texts)
}

// Writes texts, one after another.
fn write_texts<W: Target>(out: &mut W, texts: &[&[u8]]) -> Result<(), Fault>
    ensures gives { MatchResult result
        (λ _. Grows (W.contents out.old) (W.contents out.new) (flat_map (λ text. text.now) texts.now))
        (λ _. GrowsInto (W.contents out.old) (W.contents out.new) (flat_map (λ text. text.now) texts.now)) }
    ensures cause { ErrsBy W.counts result (W.failures out.old) (W.failures out.new) }
    ensures fault { IfErr result (λ fault. fault ≡ Fault.WriteText) }
{
    if put_all(out, texts) {
        Ok(())
    } else {
        Err(Fault::WriteText)
    }
}
