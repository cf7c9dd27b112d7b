//! The end of a text.

ghost use Rattle.std.specs.Prelude.{◌≡◌, ◌≤◌, ℕ, Bool, length};
ghost use Rattle.page_roff_syntax.specs.laws.Views.{IsTest};
ghost use Rattle.page_roff_syntax.specs.Delimiters.{kept_len};

/// The number of bytes of a text up to those at its end of which a test holds.
pub fn kept_len<F: Fn(u8) -> bool>(text: &[u8], drops: F) -> usize
    requires { F.IsAlwaysCallable drops }
    ensures value { (test : ℕ → Bool) → IsTest (F.post drops) test → result ≡ kept_len test text.now }
    ensures within { result ≤ length text.now }
{
    let mut len = text.len();
    while len > 0 && drops(text[len - 1]) {
        len -= 1;
    }
    len
}
