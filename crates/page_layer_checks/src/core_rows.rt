//! Rows: long ones, writers that fail, and rows that are kept.

use crate::checks::{check, check_answer, check_bytes, check_count};
use crate::writers::{cells, narrow_writer};
use page_core::{Cell, Fault, Font, KeptRows, Row, RowSink, TextRows};
use std::process::Abort;
use std::test::Fail;

// A row of more bytes than are collected before a write: 600 blanks and 600 bytes of cells.
#[test]
fn a_long_row_is_written_whole(rt: HostRuntime) -> Result<(), Fail> {
    let mut row = Vec::new(rt.alloc());
    let mut want = Vec::new(rt.alloc());
    for _ in 0..600u32 {
        want.push(b' ')?;
    }
    for _ in 0..200u32 {
        row.push(Cell {
            c: 'x',
            font: Font::B,
        })?;
        want.extend_from_slice(b"x\x08x")?;
    }
    want.push(b'\n')?;
    for most in [1, 511, 512, 513, 2000] {
        let mut out = narrow_writer(rt.alloc(), most, 2000);
        let mut rows = TextRows::new(&mut out);
        check_answer(&rt, rows.row(600, row.as_slice()), Ok(()));
        drop(rows);
        check_bytes(&rt, out.got.as_slice(), want.as_slice(), "a long row");
    }
    Ok(())
}

#[test]
fn a_row_to_a_bad_writer(rt: HostRuntime) -> Result<(), Fail> {
    let row = cells(rt.alloc(), "ab", Font::R)?;
    for (room, takes_none) in [(0, false), (3, false), (4, true)] {
        let mut out = narrow_writer(rt.alloc(), 9, room);
        out.takes_none = takes_none;
        let mut rows = TextRows::new(&mut out);
        check_answer(&rt, rows.row(2, row.as_slice()), Err(Fault::WriteText));
        check_answer(&rt, rows.row(2, row.as_slice()), Err(Fault::WriteText));
        drop(rows);
        check(
            &rt,
            b"  ab\n".as_slice().starts_with(out.got.as_slice()),
            "a front",
        );
    }
    Ok(())
}

// Gives a row, which is kept as the last one.
fn check_kept(rt: &impl Abort, kept: &mut KeptRows, margin: u32, cells: &[Cell]) {
    let before = kept.rows.len();
    check_answer(rt, kept.row(margin, cells), Ok(()));
    let is_last = kept
        .rows
        .last()
        .is_some_and(|row| is_row(row, margin, cells));
    check(rt, is_last, "the last");
    check_count(rt, kept.rows.len(), before.saturating_add(1), "a row more");
}

#[test]
fn rows_are_kept(rt: HostRuntime) -> Result<(), Fail> {
    let mut kept = KeptRows::new(rt.alloc());
    for (margin, text) in [(3, "ab "), (0, ""), (9, "é")] {
        let row = cells(rt.alloc(), text, Font::I)?;
        check_kept(&rt, &mut kept, margin, row.as_slice());
    }
    Ok(())
}

#[test]
fn a_row_has_its_margin_and_cells(rt: HostRuntime) -> Result<(), Fail> {
    let row = Row::new(5, cells(rt.alloc(), "ab", Font::B)?);
    let same = cells(rt.alloc(), "ab", Font::B)?;
    check(&rt, is_row(&row, 5, same.as_slice()), "the row");
    Ok(())
}

fn is_row(row: &Row, margin: u32, cells: &[Cell]) -> bool {
    row.margin() == margin && row.cells() == cells
}
