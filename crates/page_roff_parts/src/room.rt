//! What is added within what is reserved: no memory is asked for.

ghost use Rattle.std.specs.Prelude.{◌≡◌, ◌≤◌, length, vec_capacity};

/// Puts a number at the end until there are so many, within what is reserved.
pub(crate) fn fill_up<T: Copy>(numbers: &mut Vec<T>, len: usize, number: T)
    requires { len ≤ vec_capacity numbers.old }
    ensures len { len ≤ length numbers.new.items }
    ensures capacity { vec_capacity numbers.new ≡ vec_capacity numbers.old }
{
    while numbers.len() < len {
        numbers.push_reserved(number);
    }
}
