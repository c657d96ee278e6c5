// Names on a stack of scopes.
ghost use Rattle.std.specs.Prelude.{Some, true, ◌≡◌, ◌+◌, ◌-◌, [], ◌∷◌, ◌++◌, length, take, OnOk, OnErr, option_copied, is_some, nat_eq};
ghost use Rattle.indexmap.specs.IndexMap.{insert_entry, swap_remove_entry};
ghost use Rattle.scope_tables.specs.Names.{Scope, scope_at, held, innermost, found, home, is_reference, declared_home, outer_home, bound_at, bound_home, declared, bound, removed, removed_home, entered, left};

use crate::binding::Binding;
use indexmap::IndexMap;
use std::alloc::{AllocError, Global};
use std::marker::Model;

/// Where a binding stands: the number of its scope, if it is there, and its name.
#[derive(Clone, Copy, Debug, PartialEq, Eq)]
pub struct Home {
    pub scope: Option<usize>,
    pub name: usize,
}

/// Scopes, the outermost first. Names are numbers of words.
#[derive(Drop)]
pub struct Names {
    alloc: Global,
    tables: Vec<IndexMap<usize, Binding>>,
}

impl Model for Names {
    ghost use Rattle.std.specs.Prelude.{List, map};
    ghost use Rattle.scope_tables.specs.Names.{Scope};

    ghost Value = { List Scope };

    ghost view = { λ names. map (λ table. table.entries) names.tables.items };
}

fn put(
    table: &mut IndexMap<usize, Binding>,
    name: usize,
    binding: Binding,
) -> Result<(), AllocError>
    ensures { OnOk result (table.new.entries ≡ insert_entry nat_eq table.old.entries name binding) }
{
    if table.insert(name, binding).is_err() {
        return Err(AllocError);
    }
    Ok(())
}

fn discard(table: &mut IndexMap<usize, Binding>, name: usize)
    ensures { table.new.entries ≡ swap_remove_entry (nat_eq name) table.old.entries }
{
    let _binding = table.swap_remove(&name);
}

impl Names {
    /// No scopes.
    pub fn new(alloc: Global) -> Names
        ensures { result ≡ [] }
    {
        Names {
            alloc,
            tables: Vec::new(alloc),
        }
    }

    /// A further scope, without names.
    pub fn enter(&mut self) -> Result<(), AllocError>
        ensures { OnOk result (self.new ≡ entered self.old) }
    {
        self.tables.push(IndexMap::new(self.alloc))?;
        Ok(())
    }

    /// Leaves the innermost scope.
    pub fn leave(&mut self)
        ensures { self.new ≡ left self.old }
    {
        let _table = self.tables.pop();
    }

    /// What the scope of this number binds a name to.
    #[inline(always)]
    fn held(&self, index: usize, name: usize) -> Option<&Binding>
        ensures { option_copied result ≡ held self.now index name }
    {
        match self.tables.as_slice().get(index) {
            Some(table) => table.get(&name),
            None => None,
        }
    }

    /// What a name is bound to: the innermost scope that holds it decides, and a reference stands for its name in
    /// the scopes outside of it.
    pub fn find(&self, name: usize) -> Option<&Binding>
        ensures { option_copied result ≡ found self.now name }
    {
        let mut count = self.tables.len();
        let mut wanted = name;
        'scopes: while count > 0 {
            count -= 1;
            match self.held(count, wanted) {
                Some(Binding::Reference(other)) => {
                    wanted = *other;
                }
                Some(binding) => return Some(binding),
                None => {}
            }
        }
        None
    }

    /// Where the binding stands that look-up finds, and under which name.
    fn home(&self, name: usize) -> Home
        ensures { result ≡ home self.now name }
    {
        let mut count = self.tables.len();
        let mut wanted = name;
        'scopes: while count > 0 {
            count -= 1;
            match self.held(count, wanted) {
                Some(Binding::Reference(other)) => {
                    wanted = *other;
                }
                Some(_) => {
                    return Home {
                        scope: Some(count),
                        name: wanted,
                    };
                }
                None => {}
            }
        }
        Home {
            scope: None,
            name: wanted,
        }
    }

    /// Whether look-up first finds a reference.
    fn is_reference(&self, name: usize) -> bool
        ensures { result ≡ is_reference self.now name }
    {
        let mut count = self.tables.len();
        'scopes: while count > 0 {
            count -= 1;
            match self.held(count, name) {
                Some(Binding::Reference(_)) => return true,
                Some(_) => return false,
                None => {}
            }
        }
        false
    }

    /// Where a declared name is bound.
    #[tactic(auto, using(crate::proofs::Scopes::by_innermost))]
    fn declared_home(&self, name: usize) -> Home
        ensures { result ≡ declared_home self.now name }
    {
        let last = self.tables.len().saturating_sub(1);
        match self.held(last, name) {
            Some(Binding::Reference(_)) => self.home(name),
            Some(_) => Home {
                scope: Some(last),
                name,
            },
            None => self.outer_home(name),
        }
    }

    /// Where a declared name is bound that the innermost scope doesn't hold.
    fn outer_home(&self, name: usize) -> Home
        ensures { result ≡ outer_home self.now name }
    {
        if self.is_reference(name) {
            self.home(name)
        } else {
            Home { scope: None, name }
        }
    }

    /// Binds a name in the scope of this number.
    fn bind_at(&mut self, index: usize, name: usize, binding: Binding) -> Result<(), AllocError>
        ensures { OnOk result (self.new ≡ bound_at self.old index name binding) }
    {
        if index >= self.tables.len() {
            return Ok(());
        }
        put(&mut self.tables[index], name, binding)?;
        Ok(())
    }

    /// Binds a name as `#declare` and `#macro` do: what a reference stands for is replaced; else the name changes
    /// where the innermost scope holds it; else the global scope binds it.
    pub fn declare(&mut self, name: usize, binding: Binding) -> Result<(), AllocError>
        ensures { OnOk result (self.new ≡ declared self.old name binding) }
    {
        let place = self.declared_home(name);
        self.bind_at(place.scope.unwrap_or(0), place.name, binding)?;
        Ok(())
    }

    /// Binds a name in the innermost scope.
    pub fn bind(&mut self, name: usize, binding: Binding) -> Result<(), AllocError>
        ensures { OnOk result (self.new ≡ bound self.old name binding) }
    {
        let last = self.tables.len().saturating_sub(1);
        self.bind_at(last, name, binding)?;
        Ok(())
    }

    /// Removes the binding that look-up finds, if there is one.
    pub fn remove(&mut self, name: usize)
        ensures { self.new ≡ removed self.old name }
    {
        let place = self.home(name);
        match place.scope {
            Some(index) => self.remove_at(index, place.name),
            None => {}
        }
    }

    /// Removes a name from the scope of this number.
    fn remove_at(&mut self, index: usize, name: usize)
        ensures { self.new ≡ removed_home self.old (Some index) name }
    {
        if index < self.tables.len() {
            discard(&mut self.tables[index], name);
        }
    }

    /// Takes the innermost scope off.
    fn take(&mut self) -> IndexMap<usize, Binding>
        ensures scope { result.entries ≡ scope_at self.old (innermost self.old) }
        ensures rest { self.new ≡ left self.old }
    {
        match self.tables.pop() {
            Some(table) => table,
            None => IndexMap::new(self.alloc),
        }
    }

    /// Moves the innermost of other scopes onto these.
    pub fn take_over(&mut self, others: &mut Names) -> Result<(), AllocError>
        ensures scopes { OnOk result (self.new ≡ self.old ++ scope_at others.old (innermost others.old) ∷ []) }
        ensures others { others.new ≡ left others.old }
    {
        let table = others.take();
        self.tables.push(table)?;
        Ok(())
    }
}
