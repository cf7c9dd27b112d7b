//! Rows of ASCII that are given as their characters and fonts: how they are written (mandoc(1), "ASCII Output").

use crate::checks::{check_answer, check_bytes};
use crate::writers::narrow_writer;
use page_core::{Font, RowSink, TextRows};
use page_core_base::put_ascii;
use page_test_streams::are_ascii;
use std::alloc::Global;
use std::process::Abort;
use std::test::Fail;

// A row of characters in their fonts, which goes to a writer that takes `most` bytes at a call.
#[derive(Clone, Copy)]
struct Given<'a> {
    margin: u32,
    text: &'a [u8],
    fonts: &'a [Font],
    most: usize,
}

fn check_row(rt: &impl Abort, alloc: Global, row: Given, want: &[u8]) -> Result<(), Fail> {
    let (text, fonts) = (row.text, row.fonts);
    assert!(rt; are_ascii(text));
    assert!(rt; fonts.len() == text.len());
    let mut places = Vec::with_capacity(alloc, text.len())?;
    put_ascii(&mut places, text, fonts);
    let mut out = narrow_writer(alloc, row.most, 2000);
    let mut rows = TextRows::new(&mut out);
    let given = rows.ascii_row(row.margin, text, fonts, false, &mut places);
    check_answer(rt, given, Ok(()));
    drop(rows);
    check_bytes(rt, out.got.as_slice(), want, "a row of ASCII");
    Ok(())
}

// More bytes than are collected before a write, and more blanks than are looked at one by one.
#[test]
fn long_rows_of_ascii(rt: HostRuntime) -> Result<(), Fail> {
    let cases: [(u32, Font, &[u8]); 3] = [
        (600, Font::B, b"x\x08x"),
        (257, Font::R, b"x"),
        (300, Font::BI, b"_\x08x\x08x"),
    ];
    for (margin, font, bytes) in cases {
        let mut text = Vec::new(rt.alloc());
        let mut fonts = Vec::new(rt.alloc());
        let mut want = Vec::new(rt.alloc());
        for _ in 0..margin {
            want.push(b' ')?;
        }
        for _ in 0..230u32 {
            text.push(b'x')?;
            fonts.push(font)?;
            want.extend_from_slice(bytes)?;
        }
        for _ in 0..400u32 {
            text.push(b' ')?;
            fonts.push(font)?;
        }
        want.push(b'\n')?;
        for most in [1, 511, 512, 513, 2000] {
            let row = Given {
                margin,
                text: text.as_slice(),
                fonts: fonts.as_slice(),
                most,
            };
            check_row(&rt, rt.alloc(), row, want.as_slice())?;
        }
    }
    Ok(())
}
