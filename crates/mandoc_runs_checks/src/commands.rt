//! Command lines that the program takes, and others that it refuses (mandoc(1), OPTIONS).

use mandoc_command::{Command, Format, Makewhatis, Refusal, Texts, Whatis, command, status_of};
use page_core_base::{Encoding, Language, Level, Output};
use std::alloc::{AllocError, Global};
use std::process::Abort;
use std::test::Fail;

// The words of a line, with blanks between.
fn words_of(rt: &impl Abort, alloc: Global, line: &'static str) -> Vec<&'static str> {
    line.split(' ')
        .collect(alloc)
        .expect(rt, "memory for words")
}

// What is asked for in another way than by no words, and the files.
fn shown_format(alloc: Global, format: &Format) -> Result<String, AllocError> {
    let settings = &format.settings;
    let mut text = String::new(alloc);
    if settings.output != Output::Ascii {
        write!(text, "{:?} ", settings.output)?;
    }
    if settings.width != 78 {
        write!(text, "width {} ", settings.width)?;
    }
    if let Some(indent) = settings.indent {
        write!(text, "indent {indent} ")?;
    }
    if settings.language != Language::Auto {
        write!(text, "{:?} ", settings.language)?;
    }
    if settings.encoding != Encoding::Auto {
        write!(text, "from {:?} ", settings.encoding)?;
    }
    told_rest(&mut text, format)?;
    Ok(text)
}

fn told_rest(text: &mut String, format: &Format) -> Result<(), AllocError> {
    if let Some(least) = format.settings.least {
        write!(text, "least {least:?} ")?;
    }
    if !format.settings.os.is_empty() {
        write!(text, "os {} ", format.settings.os.as_str())?;
    }
    add_names(text, &format.files)
}

fn add_names(text: &mut String, names: &Texts) -> Result<(), AllocError> {
    for name in names.as_slice() {
        write!(text, "[{name}]")?;
    }
    Ok(())
}

// What an index is asked for.
fn told_indexes(alloc: Global, asked: &Makewhatis) -> Result<String, AllocError> {
    let mut text = String::new(alloc);
    text.push_str(if asked.prints { "print " } else { "index " })?;
    add_names(&mut text, &asked.dirs)?;
    Ok(text)
}

fn told_searches(alloc: Global, asked: &Whatis) -> Result<String, AllocError> {
    let mut text = String::new(alloc);
    text.push_str(if asked.shows_files {
        "files "
    } else {
        "entries "
    })?;
    if let Some(dir) = &asked.dir {
        write!(text, "in {dir:?} ")?;
    }
    if let Some(section) = &asked.section {
        write!(text, "section {section:?} ")?;
    }
    add_names(&mut text, &asked.words)?;
    Ok(text)
}

fn told_command(alloc: Global, command: &Command) -> Result<String, AllocError> {
    match command {
        Command::Format(format) => shown_format(alloc, format),
        Command::Makewhatis(asked) => told_indexes(alloc, asked),
        Command::Whatis(asked) => told_searches(alloc, asked),
    }
}

// The words ask for this.
fn takes(rt: &impl Abort, alloc: Global, words: &[&str], wanted: &str) {
    match command(alloc, words) {
        Ok(asked) => {
            let text = told_command(alloc, &asked).expect(rt, "memory for a text");
            assert!(rt;
                text.as_str() == wanted,
                "{text:?} in place of {wanted:?} at {words:?}"
            );
        }
        Err(refusal) => assert!(rt; false, "{refusal} at {words:?}"),
    }
}

// The words are refused, for what they are.
fn refuses(rt: &impl Abort, alloc: Global, words: &[&str]) {
    let refused = command(alloc, words).is_err_and(|refusal| refusal == Refusal::Words);
    assert!(rt; refused, "at {words:?}");
}

// Command lines, with a bar between those that ask for the same.
static TAKEN: [(&str, &str); 45] = [
    ("-T ascii|-Tascii|-T=ascii", ""),
    ("-T utf8|-Tutf8|-T=utf8", "Utf8 "),
    (
        "-T lint|-Tlint|-T=lint|-Tlint -Wall|-W base -T lint",
        "Lint least Base ",
    ),
    ("-W base|-Wbase|-W all|-Wall", "least Base "),
    ("-W style|-Wstyle", "least Style "),
    ("-W=warning|-Wwarning", "least Warning "),
    ("-W error|-Werror", "least Error "),
    ("-W unsupp|-W=unsupp", "least Unsupp "),
    ("-T lint -W error|-Werror -Tlint", "Lint least Error "),
    ("-O width=58", "width 58 "),
    ("-Owidth=300", "width 300 "),
    ("-O=width=000000060", "width 60 "),
    ("-O indent=0", "indent 0 "),
    ("-O indent=20", "indent 20 "),
    (
        "-O width=60,indent=3|-Oindent=3,width=60",
        "width 60 indent 3 ",
    ),
    ("-K us-ascii", "from Ascii "),
    ("-Kiso-8859-1", "from Latin1 "),
    ("-K=utf-8", "from Utf8 "),
    ("-mdoc|-m doc", "Mdoc "),
    ("-man|-m=an", "Man "),
    ("-mandoc|-m andoc", ""),
    ("-I os=System|-Ios=System|-I=os=System", "os System "),
    ("-Ios=-", "os - "),
    ("-I os=", ""),
    ("page.1|-- page.1|page.1 --", "[page.1]"),
    ("b.1 a.1 b.1", "[b.1][a.1][b.1]"),
    ("-", "[-]"),
    ("-- -Tlint --", "[-Tlint][--]"),
    ("-- makewhatis", "[makewhatis]"),
    ("page.1 whatis", "[page.1][whatis]"),
    (
        "a.1 -Tutf8 b.1 -Owidth=60|-Tutf8 -O width=60 a.1 b.1|-O width=60 a.1 -T utf8 -- b.1",
        "Utf8 width 60 [a.1][b.1]",
    ),
    ("makewhatis dir", "index [dir]"),
    ("makewhatis b a b", "index [b][a][b]"),
    ("makewhatis -n dir|makewhatis dir -n", "print [dir]"),
    ("makewhatis -- -n", "index [-n]"),
    ("makewhatis whatis", "index [whatis]"),
    ("whatis ls", "entries [ls]"),
    ("whatis ls dir", "entries [ls][dir]"),
    ("whatis -M d ls", "entries in \"d\" [ls]"),
    (
        "whatis -Md -s 3p -w ls",
        "files in \"d\" section \"3p\" [ls]",
    ),
    ("whatis -ws3 ls", "files section \"3\" [ls]"),
    ("whatis ls -w -M=d", "files in \"d\" [ls]"),
    ("whatis -- -w", "entries [-w]"),
    ("whatis whatis", "entries [whatis]"),
    ("whatis makewhatis", "entries [makewhatis]"),
];

#[test]
fn takes_good_words(rt: HostRuntime) {
    for (lines, wanted) in TAKEN.iter() {
        for line in lines.split('|') {
            let words = words_of(&rt, rt.alloc(), line);
            takes(&rt, rt.alloc(), words.as_slice(), *wanted);
        }
    }
    takes(&rt, rt.alloc(), &[], "");
    takes(&rt, rt.alloc(), &[""], "[]");
    takes(&rt, rt.alloc(), &["\u{3b1} page.1"], "[\u{3b1} page.1]");
    let system = ["-I", "os=System 1.0\t\u{3b1}"];
    takes(&rt, rt.alloc(), &system, "os System 1.0\t\u{3b1} ");
    let in_none = ["whatis", "-s", "", "ls"];
    takes(&rt, rt.alloc(), &in_none, "entries section \"\" [ls]");
}

static REFUSED: [&str; 19] = [
    "-T|-T html|-T ASCII|-T=|-Tlint2|-T -|-T -Wall|-T -- page.1",
    "-Tascii -Tutf8|-Tlint -Tlint",
    "-W|-W none|-W warning -W error|-Wall -Wall|-W stop|-Wwarning,stop",
    "-W Error|-W=|-W -Tlint",
    "-w",
    "-O|-O width=57|-O width=301|-O indent=21|-O width=60,width=70",
    "-O indent=1,indent=1|-O tag=x|-O width|-O width=|-O =60|-O ,",
    "-O width=60,|-O ,width=60|-O width=60,,indent=3|-O width=+60|-O width=-60",
    "-O width=6o|-O width=0000000060|-O width=4294967354|-O Width=60",
    "-O width=60 -O indent=3|-O width=60=60|-O width=60;indent=3|-O=",
    "-O width=60,tag=x",
    "-K|-K latin1|-K utf8|-K UTF-8|-Kutf-8 -Kutf-8",
    "-I|-I System|-I os|-I OS=System|-I os=a -I os=b",
    "-m|-m mdoc|-mdoc -man|-md|-m=|-x|-h|--help|-V|--version",
    "--output lint|-5|page.1 -T",
    "makewhatis|makewhatis -n|makewhatis -n -n dir|makewhatis -T ascii dir",
    "makewhatis -w dir|makewhatis --help",
    "whatis|whatis -w|whatis -s 5|whatis -M d|whatis -M|whatis -s 1 -s 1 ls",
    "whatis -n ls|whatis -T ascii ls|whatis ls -h",
];

#[test]
fn refuses_bad_words(rt: HostRuntime) {
    for lines in REFUSED.iter() {
        for line in lines.split('|') {
            let words = words_of(&rt, rt.alloc(), line);
            refuses(&rt, rt.alloc(), words.as_slice());
        }
    }
    refuses(&rt, rt.alloc(), &["-I", "os=a\u{1}b"]);
    refuses(&rt, rt.alloc(), &["whatis", ""]);
    refuses(&rt, rt.alloc(), &["whatis", "ls", ""]);
    refuses(&rt, rt.alloc(), &["makewhatis", ""]);
    refuses(&rt, rt.alloc(), &["makewhatis", "-n", "dir", ""]);
    refuses(&rt, rt.alloc(), &["whatis", "-M", "", "ls"]);
}

#[test]
fn takes_256_bytes_of_a_system(rt: HostRuntime) -> Result<(), Fail> {
    let mut value = String::from_str(rt.alloc(), "os=")?;
    for _byte in 0..256 {
        value.push('o')?;
    }
    assert!(rt; command(rt.alloc(), &["-I", value.as_str()]).is_ok());
    value.push('o')?;
    refuses(&rt, rt.alloc(), &["-I", value.as_str()]);
    Ok(())
}

#[test]
fn has_statuses(rt: HostRuntime) {
    let statuses = [
        (None, 0),
        (Some(Level::Base), 1),
        (Some(Level::Style), 1),
        (Some(Level::Warning), 2),
        (Some(Level::Error), 3),
        (Some(Level::Unsupp), 4),
    ];
    for (worst, status) in statuses.iter() {
        assert!(rt; status_of(*worst) == *status, "at {worst:?}");
    }
}

#[test]
fn prints_refusals(rt: HostRuntime) -> Result<(), Fail> {
    for (refusal, wanted) in [
        (Refusal::Words, "bad command line"),
        (Refusal::Memory, "out of memory"),
    ] {
        let text = format!(in rt.alloc(); "{refusal}")?;
        assert!(rt; text.as_str() == wanted, "{text:?}");
    }
    Ok(())
}
