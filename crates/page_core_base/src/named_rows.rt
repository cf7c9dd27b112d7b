//! Tables of names: rows of a name and what it stands for, in lists by the first letter of the name.

ghost use Rattle.std.specs.Prelude.{◌≡◌, [], map, slice_index_or};
ghost use Rattle.page_core_base.specs.Messages.{row_in};
ghost use Rattle.page_core_base.specs.laws.Views.{letter_of};

/// The list of the name's first letter: the lists go by its number, from 1 for `A` and from 33 for `a`.
pub fn list_for<'a, R>(lists: &[&'a [R]], name: &[u8]) -> &'a [R]
    ensures { result.now ≡ slice_index_or (map (λ rows. rows.now) lists.now) (letter_of name.now) [] }
{
    let letter = match name {
        [] => 0,
        [first, ..] => (first % 64) as usize,
    };
    if letter < lists.len() {
        lists[letter]
    } else {
        &[]
    }
}

/// What the first row of the name says.
pub fn row_named<V: Copy>(rows: &[(&[u8], V)], name: &[u8]) -> Option<V>
    ensures { result ≡ row_in (map (λ row. (row.0.now, row.1)) rows.now) name.now }
{
    for row in rows {
        if row.0 == name {
            return Some(row.1);
        }
    }
    None
}
