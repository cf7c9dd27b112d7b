//! The names of a page: its strings and macros, and its number registers.
ghost use Rattle.std.specs.Prelude.{◌≡◌, [], ◌++◌, IfOk, length, option_map, unwrap_or};
ghost use Rattle.page_roff_names.specs.laws.Views.{DefinitionsFit, Lends, Defines, DefinesText, Renames};
ghost use Rattle.page_roff_names.specs.Names.{Definitions, definitions, string_of, body_of, number_of, without_text, with_register, without_register};

use crate::changes::{
    body, body_so_far, copy, find, find_near, others, rename, settle, settle_longer, string,
    string_so_far, withdraw,
};
use crate::places::Places;
use crate::rows::{EntryKind, Row};
use page_core_base::{BODY, Limit};
use std::alloc::{AllocError, Global};
use std::marker::Model;

/// Strings and macros in one set of names, number registers in another.
#[derive(Drop)]
pub struct Names {
    texts: Row,
    registers: Row,
    scratch: Vec<u8>,
    // Where the macros are that were called last.
    called: Places,
}

impl Model for Names {
    ghost use Rattle.std.specs.Prelude.{◌≤◌};
    ghost use Rattle.std.specs.Vec.{vec_capacity};
    ghost use Rattle.page_core_base.specs.declared.limits.TheConstants.{BODY};
    ghost use Rattle.page_roff_names.specs.Names.{Definitions, definitions};
    ghost use Rattle.page_roff_names.specs.machine.Changes.{IsStore};

    ghost Value = { Definitions };

    ghost view = { λ n. definitions n.texts n.registers };

    ghost invariant = { λ n. IsStore (definitions n.texts n.registers) × (BODY ≤ vec_capacity n.scratch) };
}

impl Names {
    /// No definition, with the memory for all.
    pub fn new(alloc: Global) -> Result<Names, AllocError>
        ensures { IfOk result (λ names. names ≡ definitions [] []) }
    {
        Ok(Names {
            texts: Row::new(alloc)?,
            registers: Row::new(alloc)?,
            scratch: Vec::with_capacity(alloc, BODY)?,
            called: Places::new(),
        })
    }

    /// The same definitions, with the memory for all.
    pub fn copy(&self, alloc: Global) -> Result<Names, AllocError>
        ensures { IfOk result (λ names. names ≡ self.now) }
    {
        let texts = self.texts.copy(alloc)?;
        let registers = self.registers.copy(alloc)?;
        let scratch = Vec::with_capacity(alloc, BODY)?;
        Ok(Names {
            texts,
            registers,
            scratch,
            called: Places::new(),
        })
    }

    /// The value of a string, also of a predefined one that no definition hides.
    pub fn string(&self, name: &[u8]) -> Option<&[u8]>
        ensures { Lends result (string_of name.now self.now) }
    {
        string(&self.texts, name)
    }

    /// The body of a macro: its lines, each with its end.
    pub fn body(&self, name: &[u8]) -> Option<&[u8]>
        ensures { Lends result (body_of name.now self.now) }
    {
        body(&self.texts, self.called.of(name), name)
    }

    /// The number of bytes of the body of a macro that is to be called: [`Names::body`] then finds it at once.
    pub fn seek_body(&mut self, name: &[u8]) -> Option<usize>
        ensures len { result ≡ option_map length (body_of name.now self.old) }
        ensures same { self.new ≡ self.old }
    {
        let place = find_near(&self.texts, self.called.of(name), name)?;
        self.called.set(name, place);
        match self.texts.meaning(place) {
            EntryKind::Macro => Some(self.texts.value(place).len()),
            EntryKind::String => None,
            EntryKind::Register(_) => None,
        }
    }

    /// The number in a register.
    pub fn register(&self, name: &[u8]) -> Option<i32>
        ensures { result ≡ number_of name.now self.now }
    {
        match find(&self.registers, name) {
            Some(i) => match self.registers.meaning(i) {
                EntryKind::String => None,
                EntryKind::Macro => None,
                EntryKind::Register(number) => Some(number),
            },
            None => None,
        }
    }

    /// Defines a string, in place of what the name stood for.
    pub fn define_string(&mut self, name: &[u8], value: &[u8]) -> Result<(), Limit>
        ensures { DefinesText EntryKind.String name.now value.now self.old result self.new }
    {
        settle(
            &mut self.texts,
            name,
            EntryKind::String,
            value,
            others(&self.registers),
        )
    }

    /// Defines a macro, in place of what the name stood for.
    pub fn define_macro(&mut self, name: &[u8], body: &[u8]) -> Result<(), Limit>
        ensures { DefinesText EntryKind.Macro name.now body.now self.old result self.new }
    {
        settle(
            &mut self.texts,
            name,
            EntryKind::Macro,
            body,
            others(&self.registers),
        )
    }

    /// Appends to a string, or begins one where the name stands for none.
    pub fn append_string(&mut self, name: &[u8], more: &[u8]) -> Result<(), Limit>
        ensures { let value = unwrap_or (string_of name.now self.old) [] ++ more.now in
            DefinesText EntryKind.String name.now value self.old result self.new }
    {
        copy(&mut self.scratch, string_so_far(&self.texts, name));
        settle_longer(
            &mut self.texts,
            &mut self.scratch,
            name,
            EntryKind::String,
            more,
            others(&self.registers),
        )
    }

    /// Appends to a macro, or begins one where the name stands for none.
    pub fn append_macro(&mut self, name: &[u8], more: &[u8]) -> Result<(), Limit>
        ensures { let value = unwrap_or (body_of name.now self.old) [] ++ more.now in
            DefinesText EntryKind.Macro name.now value self.old result self.new }
    {
        copy(&mut self.scratch, body_so_far(&self.texts, name));
        settle_longer(
            &mut self.texts,
            &mut self.scratch,
            name,
            EntryKind::Macro,
            more,
            others(&self.registers),
        )
    }

    /// Takes the definition of a string or macro away.
    pub fn remove(&mut self, name: &[u8])
        ensures { self.new ≡ without_text name.now self.old }
    {
        withdraw(&mut self.texts, name)
    }

    /// Gives a string or macro another name, in place of what that stood for.
    pub fn rename(&mut self, old_name: &[u8], name: &[u8]) -> Result<(), Limit>
        ensures { Renames old_name.now name.now self.old result self.new }
    {
        rename(&mut self.texts, old_name, name, others(&self.registers))
    }

    /// Gives a register a number.
    pub fn set_register(&mut self, name: &[u8], number: i32) -> Result<(), Limit>
        ensures { Defines name.now [] (with_register name.now number self.old) self.old result self.new }
    {
        settle(
            &mut self.registers,
            name,
            EntryKind::Register(number),
            b"",
            others(&self.texts),
        )
    }

    /// Takes a register away.
    pub fn remove_register(&mut self, name: &[u8])
        ensures { self.new ≡ without_register name.now self.old }
    {
        withdraw(&mut self.registers, name)
    }

    /// The names and what they stand for are within their limits. Nothing is done: each change keeps to them.
    pub fn caps_law(&self)
        ensures { DefinitionsFit self.now }
    {
        let _ = &self.texts;
    }
}
