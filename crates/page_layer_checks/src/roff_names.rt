//! Definitions, removals and new names in any order, beside a table that holds the same.

use page_core_base::DEFS;
use page_roff_names::Names;
use std::alloc::{AllocError, Global};
use std::process::Abort;
use std::test::Fail;

// What stands for a name: a macro or a string, and a part of the text as its value.
#[derive(Clone, Copy)]
struct Plain {
    is_there: bool,
    is_macro: bool,
    start: usize,
    len: usize,
}

const NOTHING: Plain = Plain {
    is_there: false,
    is_macro: false,
    start: 0,
    len: 0,
};

// Any number below `end`, which is not 0.
fn draw(rt: &impl Abort, seed: &mut u32, end: usize) -> usize {
    *seed = seed.wrapping_mul(1_103_515_245).wrapping_add(12_345);
    assert!(rt; end != 0);
    (*seed >> 8) as usize % end
}

fn part<'a>(rt: &impl Abort, text: &'a [u8], start: usize, len: usize) -> &'a [u8] {
    assert!(rt; start <= text.len() && len <= text.len() - start);
    &text[start..start + len]
}

fn name_of(i: usize) -> [u8; 2] {
    [((i % 256) as u8).wrapping_mul(37), b'x']
}

// The bytes that the table takes.
fn bytes(plains: &[Plain]) -> usize {
    let mut sum = 0usize;
    for plain in plains {
        if plain.is_there {
            sum = sum.wrapping_add(plain.len).wrapping_add(2);
        }
    }
    sum
}

fn at(rt: &impl Abort, plains: &[Plain], i: usize) -> Plain {
    assert!(rt; i < plains.len());
    plains[i]
}

fn put(rt: &impl Abort, plains: &mut [Plain], i: usize, plain: Plain) {
    assert!(rt; i < plains.len());
    plains[i] = plain;
}

fn check_entry(rt: &impl Abort, names: &mut Names, text: &[u8], i: usize, plain: Plain) {
    let name = name_of(i);
    let value = part(rt, text, plain.start, plain.len);
    let is_string = plain.is_there && !plain.is_macro;
    let is_macro = plain.is_there && plain.is_macro;
    assert!(rt; names.string(&name) == if is_string { Some(value) } else { None });
    assert!(rt; names.body(&name) == if is_macro { Some(value) } else { None });
    assert!(rt; names.seek_body(&name) == if is_macro { Some(plain.len) } else { None });
}

fn check_all(rt: &impl Abort, names: &mut Names, text: &[u8], plains: &[Plain]) {
    for i in 0..plains.len() {
        check_entry(rt, names, text, i, plains[i]);
    }
}

// Defines a string or a macro in both.
fn define(
    rt: &impl Abort,
    names: &mut Names,
    text: &[u8],
    plains: &mut [Plain],
    i: usize,
    plain: Plain,
) {
    let name = name_of(i);
    let value = part(rt, text, plain.start, plain.len);
    let old = at(rt, plains, i);
    let before = bytes(plains);
    put(rt, plains, i, plain);
    let fits = bytes(plains) <= DEFS;
    if !fits {
        put(rt, plains, i, old);
    }
    let done = if plain.is_macro {
        names.define_macro(&name, value)
    } else {
        names.define_string(&name, value)
    };
    assert!(rt; done.is_ok() == fits);
    assert!(rt; fits || bytes(plains) == before);
}

// Gives a definition another name in both.
fn rename(rt: &impl Abort, names: &mut Names, plains: &mut [Plain], i: usize, j: usize) {
    assert!(rt; names.rename(&name_of(i), &name_of(j)).is_ok());
    let plain = at(rt, plains, i);
    if plain.is_there {
        put(rt, plains, i, NOTHING);
        put(rt, plains, j, plain);
    }
}

// One change of both, drawn at random.
fn change(rt: &impl Abort, names: &mut Names, text: &[u8], plains: &mut [Plain], seed: &mut u32) {
    let i = draw(rt, seed, 26);
    match draw(rt, seed, 6) {
        0 => {
            names.remove(&name_of(i));
            put(rt, plains, i, NOTHING);
        }
        1 => rename(rt, names, plains, i, draw(rt, seed, 26)),
        kind => {
            let plain = Plain {
                is_there: true,
                is_macro: kind % 2 == 0,
                start: draw(rt, seed, 4_000),
                len: draw(rt, seed, 6_000),
            };
            define(rt, names, text, plains, i, plain);
        }
    }
}

fn text_of_changes(alloc: Global) -> Result<Vec<u8>, AllocError> {
    let mut text = vec![in alloc; b'.'; 10_000]?;
    for i in 0..text.len() {
        text[i] = (i % 251) as u8;
    }
    Ok(text)
}

// Makes a thousand changes, after each of which both hold the same.
fn check_changes(rt: &(impl Abort + AllocGlobal), names: &mut Names) -> Result<(), AllocError> {
    let text = text_of_changes(rt.alloc())?;
    let mut plains = [NOTHING; 26];
    let mut seed = 2_026u32;
    for _ in 0..1_000u32 {
        change(rt, names, text.as_slice(), &mut plains, &mut seed);
        check_all(rt, names, text.as_slice(), &plains);
    }
    Ok(())
}

#[test]
fn a_thousand_changes(rt: HostRuntime) -> Result<(), Fail> {
    let mut names = Names::new(rt.alloc())?;
    check_changes(&rt, &mut names)?;
    Ok(())
}
