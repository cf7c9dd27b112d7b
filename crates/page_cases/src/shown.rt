//! What all cases show alike.

use page_test_streams::is_cheap;
use std::io;

/// A text as it is shown.
pub(crate) fn shown(text: &[u8]) -> &str {
    std::str::from_utf8(text).unwrap_or("not UTF-8")
}

/// Shows in which other way a case gives something else, if in any.
pub(crate) fn show_way(rt: &HostRuntime, way: Option<&str>) -> io::Result<()> {
    match way {
        Some(way) => println!(rt; "-- not {way}"),
        None => Ok(()),
    }
}

/// Whether memory is refused at little cost; where it is not, the case shows that, and so fails.
pub(crate) fn can_refuse(rt: &HostRuntime) -> bool {
    let can = is_cheap(rt, rt.alloc());
    if !can {
        let _ = println!(rt; "-- not with memory refused, which costs much on this host");
    }
    can
}
