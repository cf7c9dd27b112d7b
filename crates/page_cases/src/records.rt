//! Shows the record of a page.

use crate::record_readings::{Reading, RefusedReading, difference, read};
use crate::shown::{can_refuse, show_way, shown};
use crate::ways::Case;
use crate::words::Words;
use page_engine_index::Record;
use page_test_streams::scarce_difference;
use std::io;

/// Shows the record of a page.
pub(crate) fn show_record_of(rt: &HostRuntime, page: &str, words: &Words) -> io::Result<()> {
    let case = Case {
        page: page.as_bytes(),
        settings: &words.settings,
    };
    let reading = read(rt.alloc(), case);
    show_reading(rt, &reading)?;
    show_way(rt, difference(rt.alloc(), case, &reading))?;
    if !words.is_scarce || !can_refuse(rt) {
        return Ok(());
    }
    let mut refused = RefusedReading {
        case,
        whole: &reading,
    };
    show_way(rt, scarce_difference(rt.alloc(), &mut refused))
}

fn show_reading(rt: &HostRuntime, reading: &Reading) -> io::Result<()> {
    match reading {
        Ok(Some(record)) => show_record(rt, record),
        Ok(None) => println!(rt; "none"),
        Err(fault) => println!(rt; "-- {fault}"),
    }
}

fn show_record(rt: &HostRuntime, record: &Record) -> io::Result<()> {
    println!(rt;
        "[{}] ({}) [{}]",
        shown(record.names.bytes()),
        shown(record.section.bytes()),
        shown(record.description.bytes())
    )
}
