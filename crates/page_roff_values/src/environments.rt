//! What interpolations read: the names of a page, the arguments of the macro that runs, and the read-only number registers (roff(7)).

ghost use Rattle.std.specs.Prelude.{◌≡◌};
ghost use Rattle.page_roff_values.specs.Values.{read_only, register_found, register_of};
ghost use Rattle.page_roff_values.specs.machine.Rest.{surroundings_of};

use crate::call_arguments::CallArguments;
use page_core_base::Output;
use page_roff_names::Names;

/// What interpolations read.
#[derive(Clone, Copy)]
pub struct Environment<'a> {
    /// Whether it is copy mode: two backslashes make one, and widths stay as they are.
    pub copy: bool,
    pub names: &'a Names,
    pub arguments: &'a CallArguments,
    pub output: Output,
}

impl<'a> Environment<'a> {
    // The number in a read-only register.
    fn read_only(&self, name: &[u8]) -> Option<i32>
        ensures { result ≡ read_only name.now self.now.arguments.now }
    {
        match name {
            b".$" => Some(self.arguments.count() as i32),
            b".g" => Some(1),
            b".H" => Some(24),
            b".V" => Some(40),
            _ => None,
        }
    }

    /// The number in a register, a read-only one too, if there is such a register.
    pub fn find_register(&self, name: &[u8]) -> Option<i32>
        ensures { result ≡ register_found name.now (surroundings_of self.now) }
    {
        match self.read_only(name) {
            Some(number) => Some(number),
            None => self.names.register(name),
        }
    }

    /// The number in a register. One that there is not has 0.
    pub fn register(&self, name: &[u8]) -> i32
        ensures { result ≡ register_of name.now (surroundings_of self.now) }
    {
        self.find_register(name).unwrap_or(0)
    }
}
