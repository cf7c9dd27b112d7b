//! Values that outlive the scope in which a request set them (man(7), roff(7)).

ghost use Rattle.std.specs.Prelude.{◌≡◌};
ghost use Rattle.page_scopes_words.specs.Fonts as settings;

/// A value, and whether it was set inside the innermost scope.
#[derive(Clone, Copy)]
pub struct Setting<T> {
    pub value: T,
    pub is_set: bool,
}

impl<T: Copy> Setting<T> {
    /// A value that nothing has set yet.
    #[inline(always)]
    pub fn at_first(value: T) -> Setting<T>
        ensures { result ≡ settings.at_first value }
    {
        Setting {
            value,
            is_set: false,
        }
    }

    /// The value, set to another one.
    #[inline(always)]
    pub fn set_to(value: T) -> Setting<T>
        ensures { result ≡ settings.set_to value }
    {
        Setting {
            value,
            is_set: true,
        }
    }

    /// The value as a scope begins: nothing is set in it yet.
    #[inline(always)]
    pub fn entered(self) -> Setting<T>
        ensures { result ≡ settings.entered self }
    {
        Setting {
            value: self.value,
            is_set: false,
        }
    }

    /// A scope ends: the value before it holds again, unless another one was set inside.
    #[inline(always)]
    pub fn restore(&mut self, before: &Setting<T>)
        ensures { self.new ≡ settings.after_scope before.now self.old }
    {
        if !self.is_set {
            *self = *before;
        }
    }
}
