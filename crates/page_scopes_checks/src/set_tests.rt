//! What the scopes of a page give, over several sets of macros.

ghost use Rattle.std.specs.Prelude.{◌≤◌, length};

use crate::Marked;
use crate::leaf_pages::{MOST, read_line};
use page_core_base::{Fault, LINE, Settings, Taken};
use page_scopes::Scopes;
use page_sets::{Either, MacroSet, Man, Mdoc};
use page_test_streams::Shown;
use std::alloc::Global;
use std::process::Abort;
use std::test::Fail;

// Scripts, each with what it gives as a page of man(7), and of mdoc(7).
const OF_MAN: &[(&str, &str)] = &[
    (".I a b", "!BeforeSection 1:1;F{7 7}1I[a]1I[b]|/"),
    (
        ".RS\na",
        "!BeforeSection 1:1;F{7 7}/{14 14}|1[a]|!MissingEnd 2:1 RS;/{7 7}/",
    ),
    (
        ".Do\n.Ar a\n.Dc",
        "!UnknownMacro 1:2 Do;|!UnknownMacro 2:2 Ar;|!UnknownMacro 3:2 Dc;|/",
    ),
];

const OF_MDOC: &[(&str, &str)] = &[
    (".I a b", "!UnknownMacro 1:2 I;|/"),
    (
        ".RS\na",
        "!UnknownMacro 1:2 RS;|!BeforeSection 2:1;F{5 5}1[a]|/",
    ),
    (
        ".Do\n.Ar a\n.Dc",
        "!BeforeSection 1:1;F{5 5}1lq|I[a]|rq{5 5}|/",
    ),
];

// Gives the events of a line.
fn give_line<S: MacroSet>(set: &S, line: Taken<'_>, scopes: &mut Scopes, out: &mut Shown)
where
    S::Place: Drop,
    requires { length line.text.now ≤ LINE }
{
    let mut place = set.start(line);
    while let Some(event) = set.next(line, &mut place) {
        let _ = scopes.apply(event, out);
    }
}

// Gives the lines of a script, with "|" after each.
fn give_script<S: MacroSet>(
    rt: &impl Abort,
    set: &S,
    script: &str,
    scopes: &mut Scopes,
    out: &mut Shown,
)
where
    S::Place: Drop,
{
    let mut number = 0u32;
    for text in script.split('\n') {
        assert!(rt; number < 1_000);
        number += 1;
        let line = read_line(text, number);
        assert!(rt; line.text.len() <= MOST);
        give_line(set, line, scopes, out);
        out.add(b"|");
    }
}

// Checks scripts over a set of macros: each with what it gives, to the page's end.
fn check<S: MacroSet>(rt: &impl Abort, alloc: Global, set: &S, rows: &[(&str, &str)])
where
    S::Place: Drop,
{
    for (script, wanted) in rows {
        let mut out = Shown::new(alloc, true);
        let Ok(mut scopes) = Scopes::new(alloc, &Settings::new(), set) else {
            assert!(rt; false, "no scopes for {script}");
            return;
        };
        give_script(rt, set, script, &mut scopes, &mut out);
        let _ = scopes.finish(&mut out);
        assert_eq!(rt; out.text(), wanted.as_bytes(), "of {script}");
    }
}

// What a page of one set gives that becomes one of another before anything comes of it.
fn check_chosen<S: MacroSet, T: MacroSet>(
    rt: &impl Abort,
    alloc: Global,
    first: &S,
    chosen: &T,
    script: &str,
    wanted: &str,
)
where
    T::Place: Drop,
{
    let mut out = Shown::new(alloc, true);
    let Ok(mut scopes) = Scopes::new(alloc, &Settings::new(), first) else {
        assert!(rt; false, "no scopes for {script}");
        return;
    };
    scopes.choose(chosen);
    give_script(rt, chosen, script, &mut scopes, &mut out);
    let _ = scopes.finish(&mut out);
    assert_eq!(rt; out.text(), wanted.as_bytes(), "of {script}");
}

#[test]
fn small_set(rt: HostRuntime) -> Result<(), Fail> {
    check(
        &rt,
        rt.alloc(),
        &Marked,
        &[
            ("a", "!BeforeSection 1:1;F{2 2}1[a]|/"),
            (".I a b", "!BeforeSection 1:1;F{2 2}1I[a]1I[b]|/"),
            (
                "a\n.Open\nb\n.I c\n.Close\nd",
                "!BeforeSection 1:1;F{2 2}1[a]|1lq|[b]|1I[c]|rq{2 2}|1[d]|/",
            ),
            (
                ".Open\na",
                "!BeforeSection 1:1;F{2 2}1lq|[a]|!MissingEnd 2:1 Do;rq{2 2}/",
            ),
            (
                "a\n.Close",
                "!BeforeSection 1:1;F{2 2}1[a]|!NotOpen 2:2 Dc;|/",
            ),
            (".Nm x", "!UnknownMacro 1:2 Nm;|/"),
            (".\n.I\na", "||!BeforeSection 3:1;F{2 2}1[a]|/"),
        ],
    );
    Ok(())
}

#[test]
fn manuals(rt: HostRuntime) -> Result<(), Fail> {
    check(&rt, rt.alloc(), &Man, OF_MAN);
    check(&rt, rt.alloc(), &Mdoc, OF_MDOC);
    Ok(())
}

#[test]
fn either_acts_as_the_one_that_it_is(rt: HostRuntime) -> Result<(), Fail> {
    check(&rt, rt.alloc(), &Either::Man, OF_MAN);
    check(&rt, rt.alloc(), &Either::Mdoc, OF_MDOC);
    Ok(())
}

#[test]
fn chosen_sets(rt: HostRuntime) -> Result<(), Fail> {
    let alloc = rt.alloc();
    check_chosen(
        &rt,
        alloc,
        &Man,
        &Mdoc,
        ".Sh A\na",
        "F{5 5}p1F{0 0}1B[A]H{5 5}|1[a]|{5 5}/",
    );
    check_chosen(
        &rt,
        alloc,
        &Mdoc,
        &Man,
        ".SH A\na",
        "F{7 7}p1F{0 0}1B[A]H{7 7}|1[a]|{7 7}/",
    );
    check_chosen(
        &rt,
        alloc,
        &Man,
        &Marked,
        "a",
        "!BeforeSection 1:1;F{2 2}1[a]|/",
    );
    check_chosen(
        &rt,
        alloc,
        &Marked,
        &Either::Mdoc,
        "a",
        "!BeforeSection 1:1;F{5 5}1[a]|/",
    );
    Ok(())
}

#[test]
fn settings_before_a_set(rt: HostRuntime) -> Result<(), Fail> {
    let alloc = rt.alloc();
    let settings = Settings {
        indent: Some(4),
        ..Settings::new()
    };
    let mut out = Shown::new(alloc, true);
    let Ok(mut scopes) = Scopes::new(alloc, &settings, &Man) else {
        assert!(rt; false, "no scopes");
        return Ok(());
    };
    scopes.choose(&Marked);
    give_script(&rt, &Marked, "a", &mut scopes, &mut out);
    assert_eq!(rt; scopes.finish(&mut out), Ok(()));
    assert_eq!(rt; scopes.finish(&mut out), Err(Fault::Failed));
    assert_eq!(rt; out.text(), "!BeforeSection 1:1;F{4 4}1[a]|/".as_bytes());
    Ok(())
}
