//! Blocks that one macro begins and another ends (mdoc(7), "MACRO REFERENCE").

ghost use Rattle.std.specs.Prelude.{◌≡◌};
ghost use Rattle.page_sets_lines.specs.Blocks.{block_name, block_closer_name, opened_block, closed_block};
ghost use Rattle.page_sets_lines.specs.laws.Events.{block_opener_view, block_closer_view};

use crate::lists::ListKind;
use page_core_base::Font;
use page_roff_syntax::Argument;
use page_sets_names::Quotation;

/// A block, without its texts.
#[derive(Clone, Copy, PartialEq, Eq)]
pub enum Block {
    /// `Bl` and `El`: a list of a type.
    List(ListKind),
    /// `Ao` and `Ac`, `Bo` and `Bc`, `Bro` and `Brc`, `Do` and `Dc`, `Oo` and `Oc`, `Po` and `Pc`, `Qo` and `Qc`,
    /// `So` and `Sc`.
    Quotation(Quotation),
    /// `Eo` and `Ec`: the marks are their own.
    Custom,
    /// `Xo` and `Xc`: no marks.
    Extension,
    /// `Bd` and `Ed`: a display.
    Display,
    /// `Bf` and `Ef`: a font.
    Fonts,
    /// `Bk` and `Ek`: words that stay in one row.
    Keep,
    /// `Rs` and `Re`: a reference to a work.
    Reference,
    /// `Fo` and `Fc`: a function with its arguments.
    Function,
}

/// What opens a block; `W` is a text.
#[derive(Clone, Copy)]
pub enum BlockOpener<W> {
    /// `Bl`: its type, whether there is no blank row before an item, and all its arguments as they are.
    List {
        kind: ListKind,
        is_compact: bool,
        options: W,
    },
    /// `Ao Bo Bro Do Oo Po Qo So`.
    Quotation(Quotation),
    /// `Eo`, with its mark.
    Custom(Option<Argument<W>>),
    /// `Xo`.
    Extension,
    /// `Bd`: whether its rows are kept as they are, whether there is no blank row before them, and how far in they are.
    Display {
        is_literal: bool,
        is_compact: bool,
        offset: Option<Argument<W>>,
    },
    /// `Bf`, with its font, where it names one.
    Fonts(Option<Font>),
    /// `Bk`.
    Keep,
    /// `Rs`.
    Reference,
    /// `Fo`, with the function's name.
    Function(Argument<W>),
}

/// What closes a block; `W` is a text.
#[derive(Clone, Copy)]
pub enum BlockCloser<W> {
    /// `El`.
    List,
    /// `Ac Bc Brc Dc Oc Pc Qc Sc`; the name is that of the opener.
    Quotation(Quotation),
    /// `Ec`, with its mark.
    Custom(Option<Argument<W>>),
    /// `Xc`.
    Extension,
    /// `Ed`.
    Display,
    /// `Ef`.
    Fonts,
    /// `Ek`.
    Keep,
    /// `Re`.
    Reference,
    /// `Fc`.
    Function,
}

impl Block {
    /// The name of the macro that opens it.
    pub fn name(self) -> &'static str
        ensures { result.now ≡ block_name self }
    {
        match self {
            Block::List(_) => "Bl",
            Block::Quotation(quotation) => quotation.name(),
            Block::Custom => "Eo",
            Block::Extension => "Xo",
            Block::Display => "Bd",
            Block::Fonts => "Bf",
            Block::Keep => "Bk",
            Block::Reference => "Rs",
            Block::Function => "Fo",
        }
    }

    /// The name of the macro that closes it.
    pub fn closer_name(self) -> &'static str
        ensures { result.now ≡ block_closer_name self }
    {
        match self {
            Block::List(_) => "El",
            Block::Quotation(quotation) => quotation.closer_name(),
            Block::Custom => "Ec",
            Block::Extension => "Xc",
            Block::Display => "Ed",
            Block::Fonts => "Ef",
            Block::Keep => "Ek",
            Block::Reference => "Re",
            Block::Function => "Fc",
        }
    }
}

impl BlockOpener<&[u8]> {
    /// The block that it opens.
    pub fn block(&self) -> Block
        ensures { result ≡ opened_block (block_opener_view self.now) }
    {
        match *self {
            BlockOpener::List { kind, .. } => Block::List(kind),
            BlockOpener::Quotation(quotation) => Block::Quotation(quotation),
            BlockOpener::Custom(_) => Block::Custom,
            BlockOpener::Extension => Block::Extension,
            BlockOpener::Display { .. } => Block::Display,
            BlockOpener::Fonts(_) => Block::Fonts,
            BlockOpener::Keep => Block::Keep,
            BlockOpener::Reference => Block::Reference,
            BlockOpener::Function(_) => Block::Function,
        }
    }
}

impl BlockCloser<&[u8]> {
    /// The block that it closes; lists of all types have one closer, and the plainest stands for them.
    pub fn block(&self) -> Block
        ensures { result ≡ closed_block (block_closer_view self.now) }
    {
        match *self {
            BlockCloser::List => Block::List(ListKind::Item),
            BlockCloser::Quotation(quotation) => Block::Quotation(quotation),
            BlockCloser::Custom(_) => Block::Custom,
            BlockCloser::Extension => Block::Extension,
            BlockCloser::Display => Block::Display,
            BlockCloser::Fonts => Block::Fonts,
            BlockCloser::Keep => Block::Keep,
            BlockCloser::Reference => Block::Reference,
            BlockCloser::Function => Block::Function,
        }
    }
}
