//! How cases write what comes many times.

use std::alloc::{AllocError, Global};

/// As many equal characters in a row as are shown one by one, and one more.
const CHARACTERS: usize = 100;

/// As many equal lines in a row as are shown one by one, and one more.
const LINES: usize = 10;

/// A text in which each `~N*TEXT~` stands for the text N times.
pub fn repeated(alloc: Global, text: &str) -> Result<String, AllocError> {
    let mut whole = String::new(alloc);
    for (index, part) in text.split('~').enumerate() {
        let (times, part) = match part.split_once('*') {
            Some((times, repeats)) if index % 2 == 1 => (times.parse().unwrap_or(1u32), repeats),
            _ => (1, part),
        };
        for _ in 0..times {
            whole.push_str(part)?;
        }
    }
    Ok(whole)
}

/// The other way: 100 and more equal characters in a row are `~N*C~`, 10 and more equal lines in a row `N times LINE`.
pub fn shortened(alloc: Global, text: &str) -> Result<String, AllocError> {
    let mut whole = String::new(alloc);
    let mut last: &[u8] = b"";
    let mut times = 0usize;
    for line in text.lines().map(|line| line.as_bytes()) {
        if line != last {
            push_lines(alloc, &mut whole, last, times)?;
            last = line;
            times = 0;
        }
        times = times.saturating_add(1);
    }
    push_lines(alloc, &mut whole, last, times)?;
    Ok(whole)
}

fn push_lines(
    alloc: Global,
    whole: &mut String,
    line: &[u8],
    times: usize,
) -> Result<(), AllocError> {
    let line = std::str::from_utf8(line).unwrap_or("not UTF-8");
    if times >= LINES {
        let count = format!(in alloc; "{times} times ")?;
        whole.push_str(count.as_str())?;
        return push_line(alloc, whole, line);
    }
    for _ in 0..times {
        push_line(alloc, whole, line)?;
    }
    Ok(())
}

fn push_line(alloc: Global, whole: &mut String, line: &str) -> Result<(), AllocError> {
    let mut last = ' ';
    let mut times = 0usize;
    for character in line.chars() {
        if character != last {
            push_characters(alloc, whole, last, times)?;
            last = character;
            times = 0;
        }
        times = times.saturating_add(1);
    }
    push_characters(alloc, whole, last, times)?;
    whole.push('\n')
}

fn push_characters(
    alloc: Global,
    whole: &mut String,
    character: char,
    times: usize,
) -> Result<(), AllocError> {
    if times >= CHARACTERS {
        let run = format!(in alloc; "~{times}*{character}~")?;
        return whole.push_str(run.as_str());
    }
    for _ in 0..times {
        whole.push(character)?;
    }
    Ok(())
}
