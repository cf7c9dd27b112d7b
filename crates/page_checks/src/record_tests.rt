//! Records as they are written and printed (makewhatis(8)).

use page_core_base::Fault;
use page_engine_index::{
    FIRST_LINE, Record, Show, Text, is_field, print_record, whatis, write_record,
};
use page_test_streams::{Chunks, Fails, Store};
use std::alloc::{AllocError, Global};
use std::process::Abort;
use std::test::Fail;

fn check(rt: &impl Abort, holds: bool, what: &str) {
    assert!(rt; holds, "{what}");
}

fn check_bytes(rt: &impl Abort, bytes: &[u8], want: &str) -> Result<(), Fail> {
    assert_eq!(rt; std::str::from_utf8(bytes)?, want);
    Ok(())
}

fn text(alloc: Global, bytes: &str) -> Result<Text, AllocError> {
    let mut kept = Vec::with_capacity(alloc, bytes.len())?;
    kept.extend_from_slice(bytes.as_bytes())?;
    Ok(Text::new(kept))
}

fn record(
    alloc: Global,
    names: &str,
    section: &str,
    description: &str,
) -> Result<Record, AllocError> {
    Ok(Record {
        names: text(alloc, names)?,
        section: text(alloc, section)?,
        description: text(alloc, description)?,
    })
}

#[test]
fn writes_and_prints(rt: HostRuntime) -> Result<(), Fail> {
    let page = record(rt.alloc(), "foo, bar", "1", "do it")?;
    let mut out = Store::new(rt.alloc(), usize::MAX, Fails::Never);
    if is_field("man1/foo.1") {
        check(
            &rt,
            write_record(&mut out, &page, "man1/foo.1").is_ok(),
            "written",
        );
    }
    check(&rt, print_record(&mut out, &page).is_ok(), "printed");
    let want = "foo, bar\t1\tdo it\tman1/foo.1\nfoo, bar(1) - do it\n";
    check_bytes(&rt, out.kept.as_slice(), want)
}

// A front of the line, or of the row, was written before a failing write.
#[test]
fn tells_where_a_write_fails(rt: HostRuntime) -> Result<(), Fail> {
    let page = record(rt.alloc(), "t", "1", "x")?;
    for room in 0..4 {
        let mut out = Store::new(rt.alloc(), usize::MAX, Fails::Past(room));
        if is_field("f") {
            let written = write_record(&mut out, &page, "f");
            check(&rt, written == Err(Fault::WriteText), "the fault of a line");
        }
        let front = "t\t1\tx".get(..room).ok_or("a front")?;
        check_bytes(&rt, out.kept.as_slice(), front)?;
        out.clear();
        let printed = print_record(&mut out, &page);
        check(&rt, printed == Err(Fault::WriteText), "the fault of a row");
        let front = "t(1) - x".get(..room).ok_or("a front")?;
        check_bytes(&rt, out.kept.as_slice(), front)?;
    }
    Ok(())
}

#[test]
fn tells_fields(rt: HostRuntime) -> Result<(), Fail> {
    let fields = ["", "man1/ls.1", " ", "\u{a0}", "\u{3b1}"];
    for name in fields {
        check(&rt, is_field(name), name);
    }
    for name in ["a\tb", "a\nb", "\u{1}", "\u{7f}", "\u{80}", "\u{9f}"] {
        check(&rt, !is_field(name), name);
    }
    let mut long = String::new(rt.alloc());
    for _byte in 0..4096 {
        long.push('x')?;
    }
    check(&rt, is_field(long.as_str()), "4,096 bytes");
    long.push('x')?;
    check(&rt, !is_field(long.as_str()), "4,097 bytes");
    Ok(())
}

// What was written is found again.
#[test]
fn reads_back(rt: HostRuntime) -> Result<(), Fail> {
    let mut index = Store::new(rt.alloc(), usize::MAX, Fails::Never);
    index.kept.extend_from_slice(FIRST_LINE.as_bytes())?;
    index.kept.push(b'\n')?;
    for (names, file) in [("ls, dir", "man1/ls.1"), ("dd", "man1/dd.1")] {
        let page = record(rt.alloc(), names, "1", " a - b ")?;
        if is_field(file) {
            check(&rt, write_record(&mut index, &page, file).is_ok(), file);
        }
    }
    let mut out = Store::new(rt.alloc(), usize::MAX, Fails::Never);
    for show in [Show::Entry, Show::File] {
        let mut reader = Chunks::new(index.kept.as_slice(), 5, None);
        let found = whatis(rt.alloc(), &mut reader, &mut out, &["dir"], None, show);
        check(&rt, found == Ok(1), "one row");
    }
    check_bytes(
        &rt,
        out.kept.as_slice(),
        "ls, dir(1) -  a - b \nman1/ls.1\n",
    )
}
