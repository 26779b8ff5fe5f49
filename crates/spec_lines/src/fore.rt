//! The fields of a text.

ghost use Rattle.std.specs.Prelude.{◌≡◌, [], map, option_map, is_some, IfOk, OnOk};
ghost use Rattle.spec_ast.specs.View.{view_item, view_lines};
ghost use Rattle.spec_scope.specs.Fields.{view_sort};
ghost use Rattle.spec_scope.specs.Scope.{place_in, with_field};
ghost use Rattle.spec_scope.specs.View.{view_scope};
ghost use Rattle.spec_lines.specs.Behind as definition;
ghost use Rattle.spec_lines.specs.View.{seen_head, with_head, view_fore, AreHeads};

use crate::sorts::field_sort_for;
use crate::step::{add_top, next};
use spec_ast::{Name, RawItem, RawLine, RawSort};
use spec_scope::{FieldRow, FieldTable, Scope};
use std::alloc::{AllocError, Global};

/// A field of the first class: the first physical line of its declaration, and its name.
#[derive(Clone, Copy, Debug)]
pub struct FieldHead<'s> {
    pub line: u32,
    pub name: &'s [u8],
}

/// Of the lines before a line, the names of the top and the fields of the first class.
#[derive(Drop)]
pub struct Fore<'s> {
    pub scope: Scope<'s>,
    pub classes: u32,
    /// The fields, by their places.
    pub heads: Vec<FieldHead<'s>>,
}

/// Puts a field behind the others, unless its name is there.
fn add_head<'s>(
    fields: &FieldTable<'s>,
    heads: &mut Vec<FieldHead<'s>>,
    line: u32,
    name: &'s [u8],
) -> Result<(), AllocError>
    ensures { OnOk result (map seen_head heads.new.items ≡ with_head fields.now (map seen_head heads.old.items) (record { line = line; name = name.now })) }
{
    if fields.place(name).is_some() {
        return Ok(());
    }
    heads.push(FieldHead { line, name })?;
    Ok(())
}

impl<'s> Fore<'s> {
    /// Puts a field behind the others, where the first class goes on.
    #[tactic(auto, using(crate::proofs::Heads::heads_with))]
    fn add_field(
        &mut self,
        alloc: Global,
        line: u32,
        name: &'s [u8],
        keys: &[RawSort],
        entry: &RawSort,
    ) -> Result<(), AllocError>
        requires { AreHeads self.old }
        ensures fore { OnOk result (view_fore self.new ≡ definition.with_declared (view_fore self.old) line name.now keys.now entry.now) }
        ensures heads { OnOk result (AreHeads self.new) }
    {
        if self.classes != 1 {
            return Ok(());
        }
        let sort = field_sort_for(alloc, &self.scope, keys, entry)?;
        add_head(&self.scope.fields, &mut self.heads, line, name)?;
        self.scope.fields.add(name, FieldRow { line, sort })?;
        Ok(())
    }

    /// Goes on behind a line.
    fn step(&mut self, alloc: Global, line: u32, item: &'s RawItem) -> Result<(), AllocError>
        requires { AreHeads self.old }
        ensures fore { OnOk result (view_fore self.new ≡ definition.fore_behind (view_fore self.old) line (view_item item.now)) }
        ensures heads { OnOk result (AreHeads self.new) }
    {
        match item {
            RawItem::Field(name, keys, entry) => {
                self.add_field(alloc, line, name.as_bytes(), keys.as_slice(), entry)
            }
            RawItem::Class(_) => {
                add_top(&mut self.scope, item)?;
                self.classes = next(self.classes)?;
                Ok(())
            }
            _ => add_top(&mut self.scope, item),
        }
    }
}

/// The fields of a text, and their heads.
pub fn fore_of<'s>(
    alloc: Global,
    scope: Scope<'s>,
    lines: &'s [RawLine],
) -> Result<Fore<'s>, AllocError>
    requires { scope.fields ≡ [] }
    ensures fore { IfOk result (λ f. view_fore f ≡ definition.fore_from (record { scope = view_scope scope.entry; classes = 0 }) (view_lines lines.now)) }
    ensures heads { IfOk result AreHeads }
{
    let mut fore = Fore {
        scope,
        classes: 0,
        heads: Vec::new(alloc),
    };
    'each: for line in lines {
        fore.step(alloc, line.line, &line.item)?;
    }
    Ok(fore)
}
