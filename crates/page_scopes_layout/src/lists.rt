//! Lists: what is known of an open one, and the contexts of its items (mdoc(7), `Bl`).

ghost use Rattle.std.specs.Prelude.{◌≡◌, ◌≤◌, ◌||◌, ◌&&◌, nat_lt};
ghost use Rattle.page_core_base.specs.declared.limits.TheConstants.{COLUMNS};

use crate::margins::further_in;
use crate::{COLUMN_GAP, COLUMN_WIDTH, Context, MARGIN, PagePart, hold};
use page_core_base::{COLUMNS, Font};
use page_sets_lines::ListKind;

/// The widths of a list's columns, in columns of the page; only the first [`count`](ColumnWidths::count) are given.
#[derive(Clone, Copy)]
pub struct ColumnWidths {
    pub widths: [u32; COLUMNS],
    pub count: usize,
    pub ghost fits: { count ≤ COLUMNS },
}

/// What is known of an open list. Columns are counted from the left edge of the page for margins, and from the margin else.
#[derive(Clone, Copy)]
pub struct OpenList {
    pub kind: ListKind,
    /// No blank row is before an item.
    pub is_compact: bool,
    /// How far the text of an item is from its head or its mark.
    pub hang: u32,
    /// The margin of the open item's head or mark.
    pub head: u32,
    /// How many items it has had.
    pub items: u32,
    /// How many cells of the open item are before the one that is open.
    pub cells: u32,
    /// The column of the open cell.
    pub column: u32,
    pub widths: ColumnWidths,
}

impl ColumnWidths {
    ghost use Rattle.page_scopes_layout.specs.Lists as lists;

    /// None is given.
    pub fn new() -> ColumnWidths
        ensures { result ≡ lists.no_widths }
    {
        ColumnWidths {
            widths: [0; COLUMNS],
            count: 0,
        }
    }

    /// Whether there is room for one more.
    pub fn has_room(&self) -> bool
        ensures { result ≡ lists.has_room self.now }
    {
        self.count < COLUMNS
    }

    /// One more is given, where there is room.
    pub fn add(&mut self, width: u32)
        ensures { self.new ≡ lists.with_width self.old width }
    {
        if self.count < COLUMNS {
            self.widths[self.count] = width;
            self.count += 1;
        }
    }

    // The width of a column.
    fn of_column(&self, column: u32) -> u32
        ensures { result ≡ lists.width_of self.now column }
    {
        let column = column as usize;
        if column < self.count {
            self.widths[column]
        } else {
            COLUMN_WIDTH
        }
    }
}

impl OpenList {
    ghost use Rattle.page_scopes_layout.specs.Lists as lists;

    /// Whether its items are rows of cells.
    pub fn has_columns(&self) -> bool
        ensures { result ≡ lists.has_columns self.now }
    {
        matches!(self.kind, ListKind::Column)
    }

    /// Whether the row ends before its next item, and no blank row is written.
    pub fn is_close(&self) -> bool
        ensures { result ≡ (self.now.is_compact || (lists.has_columns self.now && nat_lt 1 self.now.items)) }
    {
        self.is_compact || self.has_columns() && self.items > 1
    }

    // Its next item begins, with its head at a margin.
    fn next_item(self, head: u32) -> OpenList
        ensures { result ≡ record self { head = head; items = lists.one_more self.items; cells = 0; column = 0 } }
    {
        OpenList {
            head,
            items: self.items.saturating_add(1),
            cells: 0,
            column: 0,
            ..self
        }
    }

    /// The next cell of its open item begins.
    pub fn next_cell(self) -> OpenList
        ensures { result ≡ lists.next_cell self }
    {
        let width = self.widths.of_column(self.cells);
        let column = self.column.saturating_add(width).saturating_add(COLUMN_GAP);
        OpenList {
            cells: self.cells.saturating_add(1),
            column: column.min(MARGIN),
            ..self
        }
    }
}

impl Context {
    ghost use Rattle.page_scopes_layout.specs.Lists as lists;

    /// A list (`Bl`) begins, this many columns further in than the text.
    pub fn list_begun(self, list: OpenList, offset: i32) -> Context
        ensures { result ≡ lists.list_begun list offset self }
    {
        Context {
            margin: further_in(self.margin, self.hang, offset),
            list: Some(list),
            ..self.flat()
        }
    }

    // The margin of the first row of an item, where a name (`Nm`) before it has left that row to come.
    fn item_first(&self, margin: u32) -> Option<u32>
        ensures { result ≡ lists.item_first self.now.first self.now.has_row margin }
    {
        match self.first {
            Some(_) if !self.has_row => Some(margin),
            _ => None,
        }
    }

    /// An item (`It`) of the open list begins: its text hangs from its head or its mark.
    pub fn item_begun(self) -> Context
        ensures { result ≡ lists.item_begun self.list self }
    {
        match self.list {
            Some(list) => {
                let margin = hold(i64::from(self.margin) + i64::from(list.hang));
                Context {
                    margin,
                    first: self.item_first(margin),
                    list: Some(list.next_item(self.margin)),
                    ..self
                }
            }
            None => self,
        }
    }

    // The first row is at a margin, as that of a tag.
    fn tag_at(self, margin: u32) -> Context
        ensures { result ≡ lists.tag_at margin self }
    {
        Context {
            first: Some(margin),
            has_row: false,
            part: PagePart::Tag,
            ..self
        }
    }

    // The part of the page that a head is which is no tag: in a tag it stays there.
    fn head_part(self) -> PagePart
        ensures { result ≡ lists.head_part self.part }
    {
        match self.part {
            PagePart::Tag => PagePart::Tag,
            _ => PagePart::Head,
        }
    }

    // The head of an item of a list begins.
    fn head_of(self, list: OpenList) -> Context
        ensures { result ≡ lists.head_of list.kind list.head self }
    {
        match list.kind {
            ListKind::Hang | ListKind::Tag => self.tag_at(list.head),
            ListKind::Inset | ListKind::Ohang => Context {
                part: self.head_part(),
                ..self
            },
            ListKind::Diag => Context {
                part: self.head_part(),
                ..self.font_begun(Font::B)
            },
            _ => self,
        }
    }

    /// The head of an item of the open list begins.
    pub fn head_begun(self) -> Context
        ensures { result ≡ lists.head_begun self.list self }
    {
        match self.list {
            Some(list) => self.head_of(list),
            None => self,
        }
    }
}
