//! Shows what words find in an index.

use crate::search_queries::{Found, Query, RefusedSearch};
use crate::search_words::{Asked, index_of};
use crate::shown::{can_refuse, show_way, shown};
use page_test_streams::{Fails, Store, repeated, scarce_difference};
use std::io;

/// Shows what is found in an index, which is written in short.
pub(crate) fn show_search(
    rt: &HostRuntime,
    asked: &str,
    text: &str,
    is_scarce: bool,
) -> io::Result<()> {
    let asked = Asked::new(rt.alloc(), asked)?;
    let text = repeated(rt.alloc(), text)?;
    let index = index_of(rt.alloc(), text.as_str())?;
    let query = Query {
        index: index.as_bytes(),
        words: asked.words.as_slice(),
        section: asked.section,
        show: asked.show,
    };
    show_query(rt, query, is_scarce)
}

fn show_query(rt: &HostRuntime, query: Query, is_scarce: bool) -> io::Result<()> {
    let found = query.find(rt.alloc());
    show_found(rt, &found)?;
    show_way(rt, query.difference(rt.alloc(), &found))?;
    if !is_scarce || !can_refuse(rt) {
        return Ok(());
    }
    let rows = Store::with_room(rt.alloc(), found.rows.kept.len(), Fails::Never)?;
    let mut refused = RefusedSearch {
        query,
        whole: &found,
        rows,
    };
    show_way(rt, scarce_difference(rt.alloc(), &mut refused))
}

fn show_found(rt: &HostRuntime, found: &Found) -> io::Result<()> {
    print!(rt; "{}", shown(&found.rows.kept))?;
    match found.answer {
        Ok(count) => println!(rt; "-- {count} rows"),
        Err(fault) => println!(rt; "-- {fault}"),
    }
}
