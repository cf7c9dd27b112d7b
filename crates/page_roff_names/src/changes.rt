//! Changes of one set of names, which shares its limits with the other.
ghost use Rattle.std.specs.Prelude.{◌≡◌, ◌≢◌, ◌+◌, ◌<◌, ◌≤◌, [], ◌++◌, length, IsTrue, MatchOption, MatchResult, Some, None, unwrap_or, T};
ghost use Rattle.std.specs.FinMap.{is_sorted};
ghost use Rattle.std.specs.List.{insert, remove};
ghost use Rattle.std.specs.Vec.{vec_capacity};
ghost use Rattle.page_roff_names.specs.laws.Views.{EntriesFit, name_at, definition_at, Lends};
ghost use Rattle.page_roff_names.specs.Names.{Definition, definition, size, predefined, by_bytes, look, put, without, string_or, body_or_none, first_passed};
ghost use Rattle.page_roff_names.specs.machine.Changes.{refusal_beside, Settles, RenamesBeside, IsKept, FoundAt, MissingAt, StandsAt, PlaceWithout};

use crate::predefined::predefined;
use crate::rows::{EntryKind, Row};
use page_core_base::{BODY, DEFS, Limit, NAME, NAMES, append};
use std::cmp::Ordering;

/// How many names the other set has, and how many bytes their entries.
#[derive(Clone, Copy)]
pub struct OtherSet {
    pub names: usize,
    pub bytes: usize,
}

/// What a set is to the other.
pub(crate) fn others(row: &Row) -> OtherSet
    ensures { (result.names ≡ length row.now) × (result.bytes ≡ size row.now) }
{
    OtherSet {
        names: row.len(),
        bytes: row.bytes(),
    }
}

/// The order of two names. Most of them differ in their first byte.
fn order(name: &[u8], other: &[u8]) -> Ordering
    ensures { result ≡ by_bytes name.now other.now }
{
    match (name, other) {
        ([first, ..], [other_first, ..]) if *first < *other_first => Ordering::Less,
        ([first, ..], [other_first, ..]) if *other_first < *first => Ordering::Greater,
        _ => name.cmp(&other),
    }
}

/// Where a name is, or where it would be.
fn search(row: &Row, name: &[u8]) -> Result<usize, usize>
    requires { T (is_sorted by_bytes row.now) }
    ensures range { MatchResult result (λ i. i < length row.now) (λ i. i ≤ length row.now) }
    ensures found { MatchResult result (λ i. FoundAt name.now row.now i) (λ i. MissingAt name.now row.now i) }
{
    let mut low = 0;
    let mut high = row.len();
    while low < high {
        let middle = low + (high - low) / 2;
        match order(name, row.name(middle)) {
            Ordering::Less => high = middle,
            Ordering::Equal => return Ok(middle),
            Ordering::Greater => low = middle + 1,
        }
    }
    Err(low)
}

/// Where a name is.
pub(crate) fn find(row: &Row, name: &[u8]) -> Option<usize>
    requires { T (is_sorted by_bytes row.now) }
    ensures { MatchOption result (look name.now row.now ≡ None) (λ i. StandsAt name.now row.now i) }
{
    match search(row, name) {
        Ok(i) => Some(i),
        Err(_) => None,
    }
}

/// Whether a name is at this place.
fn stands_at(row: &Row, place: usize, name: &[u8]) -> bool
    ensures { IsTrue result → (place < length row.now) × FoundAt name.now row.now place }
{
    place < row.len() && matches!(order(name, row.name(place)), Ordering::Equal)
}

/// Where a name is. It is looked for at this place first.
pub(crate) fn find_near(row: &Row, place: usize, name: &[u8]) -> Option<usize>
    requires { T (is_sorted by_bytes row.now) }
    ensures { MatchOption result (look name.now row.now ≡ None) (λ i. StandsAt name.now row.now i) }
{
    if stands_at(row, place, name) {
        return Some(place);
    }
    find(row, name)
}

/// The string of a name.
pub(crate) fn string<'a>(row: &'a Row, name: &[u8]) -> Option<&'a [u8]>
    requires sorted { T (is_sorted by_bytes row.now) }
    requires fit { EntriesFit row.now }
    ensures is { Lends result (string_or (predefined name.now) (look name.now row.now)) }
    ensures short { MatchOption result (Unit {0}) (λ value. length value.now ≤ BODY) }
{
    match find(row, name) {
        Some(i) => match row.meaning(i) {
            EntryKind::String => Some(row.value(i)),
            EntryKind::Macro => None,
            EntryKind::Register(_) => None,
        },
        None => predefined(name),
    }
}

/// The body of a macro. Its name is looked for at this place first.
pub(crate) fn body<'a>(row: &'a Row, place: usize, name: &[u8]) -> Option<&'a [u8]>
    requires sorted { T (is_sorted by_bytes row.now) }
    requires fit { EntriesFit row.now }
    ensures is { Lends result (body_or_none (look name.now row.now)) }
    ensures short { MatchOption result (Unit {0}) (λ value. length value.now ≤ BODY) }
{
    match find_near(row, place, name) {
        Some(i) => match row.meaning(i) {
            EntryKind::String => None,
            EntryKind::Macro => Some(row.value(i)),
            EntryKind::Register(_) => None,
        },
        None => None,
    }
}

/// The string of a name, empty where it has none.
pub(crate) fn string_so_far<'a>(row: &'a Row, name: &[u8]) -> &'a [u8]
    requires sorted { T (is_sorted by_bytes row.now) }
    requires fit { EntriesFit row.now }
    ensures is { result.now ≡ unwrap_or (string_or (predefined name.now) (look name.now row.now)) [] }
    ensures short { length result.now ≤ BODY }
{
    match string(row, name) {
        Some(value) => value,
        None => b"",
    }
}

/// The body of a macro, empty where the name has none.
pub(crate) fn body_so_far<'a>(row: &'a Row, name: &[u8]) -> &'a [u8]
    requires sorted { T (is_sorted by_bytes row.now) }
    requires fit { EntriesFit row.now }
    ensures is { result.now ≡ unwrap_or (body_or_none (look name.now row.now)) [] }
    ensures short { length result.now ≤ BODY }
{
    match body(row, 0, name) {
        Some(value) => value,
        None => b"",
    }
}

/// The first limit that is passed, where the bytes of all else are `others`.
#[tactic(auto, unfolding(crate::specs::Names::first_passed))]
fn first_passed(name: usize, names: usize, value: usize, others: usize) -> Option<Limit>
    requires { others ≤ DEFS }
    ensures { result ≡ first_passed name names value (others + (name + value)) }
{
    if name > NAME {
        return Some(Limit::Name);
    }
    if names > NAMES {
        return Some(Limit::Names);
    }
    if value > BODY {
        return Some(Limit::Body);
    }
    if others + (name + value) > DEFS {
        return Some(Limit::Defs);
    }
    None
}

/// The limit that a definition with a value of this length passes.
fn passed(row: &Row, name: &[u8], value: usize, others: OtherSet) -> Option<Limit>
    requires { IsKept others row.now }
    ensures { (d : Definition) → length d.value ≡ value
        → result ≡ refusal_beside others name.now d.value (put name.now d row.now) }
{
    match search(row, name) {
        Ok(i) => {
            let old = row.name(i).len() + row.value(i).len();
            first_passed(
                name.len(),
                row.len() + others.names,
                value,
                row.bytes() - old + others.bytes,
            )
        }
        Err(_) => first_passed(
            name.len(),
            row.len() + 1 + others.names,
            value,
            row.bytes() + others.bytes,
        ),
    }
}

/// Gives a name a definition.
fn put_definition(row: &mut Row, name: &[u8], meaning: EntryKind, value: &[u8])
    requires sorted { T (is_sorted by_bytes row.old) }
    requires few { length (put name.now (definition meaning value.now) row.old) ≤ NAMES }
    requires small { size (put name.now (definition meaning value.now) row.old) ≤ DEFS }
    ensures { row.new ≡ put name.now (definition meaning value.now) row.old }
{
    match search(row, name) {
        Ok(i) => row.set(i, name, meaning, value),
        Err(i) => row.insert(i, name, meaning, value),
    }
}

/// Gives a name a definition, unless that passes a limit.
pub(crate) fn settle(
    row: &mut Row,
    name: &[u8],
    meaning: EntryKind,
    value: &[u8],
    others: OtherSet,
) -> Result<(), Limit>
    requires { IsKept others row.old }
    ensures { Settles others name.now value.now (put name.now (definition meaning value.now) row.old)
        row.old result row.new }
{
    match passed(row, name, value.len(), others) {
        Some(limit) => Err(limit),
        None => {
            put_definition(row, name, meaning, value);
            Ok(())
        }
    }
}

/// Gives a name the value in `scratch` with more at the end, unless that passes a limit.
pub(crate) fn settle_longer(
    row: &mut Row,
    scratch: &mut Vec<u8>,
    name: &[u8],
    meaning: EntryKind,
    more: &[u8],
    others: OtherSet,
) -> Result<(), Limit>
    requires kept { IsKept others row.old }
    requires scratch { (length scratch.old.items ≤ BODY) × (BODY ≤ vec_capacity scratch.old) }
    ensures settles { let value = scratch.old.items ++ more.now in
        Settles others name.now value (put name.now (definition meaning value) row.old) row.old result row.new }
    ensures scratch { BODY ≤ vec_capacity scratch.new }
{
    match passed(row, name, scratch.len() + more.len(), others) {
        Some(limit) => Err(limit),
        None => {
            append(scratch, more);
            put_definition(row, name, meaning, scratch);
            Ok(())
        }
    }
}

/// Copies a value.
pub(crate) fn copy(scratch: &mut Vec<u8>, value: &[u8])
    requires capacity { BODY ≤ vec_capacity scratch.old }
    requires short { length value.now ≤ BODY }
    ensures items { scratch.new.items ≡ value.now }
    ensures capacity { BODY ≤ vec_capacity scratch.new }
{
    scratch.clear();
    append(scratch, value);
}

/// Takes a definition away.
pub(crate) fn withdraw(row: &mut Row, name: &[u8])
    requires { T (is_sorted by_bytes row.old) }
    ensures { row.new ≡ without name.now row.old }
{
    match search(row, name) {
        Ok(i) => row.remove(i),
        Err(_) => (),
    }
}

/// The limit that another name for the i-th definition passes, which no definition has.
fn passed_by_name(row: &Row, i: usize, name: &[u8], others: OtherSet) -> Option<Limit>
    requires place { i < length row.now }
    requires kept { IsKept others row.now }
    ensures { let d = definition_at row.now i in
        result ≡ refusal_beside others name.now d.value (insert (remove row.now i) 0 (name.now, d)) }
{
    let value = row.value(i).len();
    let own = row.name(i).len() + value;
    first_passed(
        name.len(),
        row.len() + others.names,
        value,
        row.bytes() - own + others.bytes,
    )
}

/// A place once what was at another is taken out.
fn place_without(place: usize, removed: usize) -> usize
    ensures { PlaceWithout place removed result }
{
    if removed < place { place - 1 } else { place }
}

/// Where a name is that the i-th entry is to have, or where it would be among the other entries.
fn search_others(row: &Row, i: usize, name: &[u8]) -> Result<usize, usize>
    requires i { i < length row.now }
    requires sorted { T (is_sorted by_bytes row.now) }
    ensures range { MatchResult result (λ place. (place < length row.now) × (place ≢ i)) (λ place. place < length row.now) }
    ensures found { MatchResult result (λ place. FoundAt name.now row.now place) (λ place. MissingAt name.now (remove row.now i) place) }
{
    match search(row, name) {
        Ok(place) if place != i => Ok(place),
        Ok(_) => Err(i),
        Err(place) => Err(place_without(place, i)),
    }
}

/// Gives the i-th definition another name, in the place of the definition that this name has.
fn move_onto(row: &mut Row, i: usize, name: &[u8], place: usize)
    requires i { i < length row.old }
    requires place { (place < length row.old) × (place ≢ i) }
    requires found { FoundAt name.now row.old place }
    requires sorted { T (is_sorted by_bytes row.old) }
    requires small { size row.old ≤ DEFS }
    ensures { row.new ≡ put name.now (definition_at row.old i) (remove row.old i) }
{
    let from = place_without(i, place);
    let to = place_without(place, i);
    row.remove(place);
    row.rename(from, name, to);
}

/// Gives the i-th definition another name, unless that passes a limit. In the place of another definition it passes none.
fn move_to(row: &mut Row, i: usize, name: &[u8], others: OtherSet) -> Result<(), Limit>
    requires place { i < length row.old }
    requires kept { IsKept others row.old }
    ensures { let d = definition_at row.old i in
        Settles others name.now d.value (put name.now d (remove row.old i)) row.old result row.new }
{
    match search_others(row, i, name) {
        Ok(place) => {
            move_onto(row, i, name, place);
            Ok(())
        }
        Err(to) => match passed_by_name(row, i, name, others) {
            Some(limit) => Err(limit),
            None => {
                row.rename(i, name, to);
                Ok(())
            }
        },
    }
}

/// Gives a definition another name, unless that passes a limit.
pub(crate) fn rename(
    row: &mut Row,
    old_name: &[u8],
    name: &[u8],
    others: OtherSet,
) -> Result<(), Limit>
    requires { IsKept others row.old }
    ensures { RenamesBeside others old_name.now name.now row.old result row.new }
{
    match search(row, old_name) {
        Ok(i) => move_to(row, i, name, others),
        Err(_) => Ok(()),
    }
}
