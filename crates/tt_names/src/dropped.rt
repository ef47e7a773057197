//! The dropped tables by the names under which they were dropped.
ghost use Rattle.std.specs.Prelude.{◌≡◌, ◌∷◌, ℕ, List, OnOk, OnErr, None, if◌then◌else◌};
ghost use Rattle.std.specs.HashMap.{get_by_text};
ghost use Rattle.std.specs.Str.{bytes_eq};
ghost use Rattle.std.specs.FinMap as finite;
ghost use Rattle.tt_names.specs.ByName.{drops_of, put_drops, without_table};

use std::alloc::{AllocError, Global};
use std::collections::HashMap;
use std::marker::Model;
use tt_value::Text;

/// The tables that were dropped under each name, with their moments, the last drop first.
#[derive(Drop)]
pub struct Dropped {
    lists: HashMap<String, Vec<(u32, u64)>>,
    alloc: Global,
}

impl Model for Dropped {
    ghost use Rattle.tt_names.specs.ByName.{ByName, Drops, seen};
    ghost use Rattle.tt_names.specs.RegistryCode.{drops_code};

    ghost Value = { ByName Drops };

    ghost coded = { drops_code };

    ghost view = { λ d. seen (λ list. list.items) d.lists.entries };
}

impl Dropped {
    /// No drops. It takes no memory.
    pub fn new(alloc: Global) -> Dropped
        ensures { result ≡ finite.empty }
    {
        Dropped {
            lists: HashMap::new(alloc),
            alloc,
        }
    }

    /// The drops under the name.
    pub fn get(&self, name: &Text) -> &[(u32, u64)]
        ensures { result.now ≡ drops_of name.now self.now }
    {
        match self.lists.get(name.as_str()) {
            Some(list) => list.as_slice(),
            None => &[],
        }
    }

    /// One more drop under the name, which is the last.
    pub fn push(&mut self, name: &Text, table: u32, moment: u64) -> Result<(), AllocError>
        ensures ok { OnOk result (self.new
            ≡ put_drops name.now ((table, moment) ∷ drops_of name.now self.old) self.old) }
        ensures err { OnErr result (self.new ≡ self.old) }
    {
        if let Some(list) = self.lists.get_mut(name.as_str()) {
            list.insert(0, (table, moment))?;
            return Ok(());
        }
        let mut list = Vec::new(self.alloc);
        list.push((table, moment))?;
        let key = String::from_str(self.alloc, name.as_str())?;
        self.lists.insert(key, list)?;
        Ok(())
    }

    /// Takes a table out of the drops under the name. It takes no memory.
    pub fn take_out(&mut self, name: &Text, table: u32)
        ensures { self.new
            ≡ put_drops name.now (without_table table (drops_of name.now self.old)) self.old }
    {
        let Some(list) = self.lists.get_mut(name.as_str()) else {
            return;
        };
        retain_others(list, table);
        if list.is_empty() {
            forget(&mut self.lists, name);
        }
    }
}

/// Takes the table out of the list.
fn retain_others(list: &mut Vec<(u32, u64)>, table: u32)
    ensures { list.new.items ≡ without_table table list.old.items }
{
    list.retain(|drop| drop.0 != table);
}

/// Takes the list of the name away.
fn forget(lists: &mut HashMap<String, Vec<(u32, u64)>>, name: &Text)
    ensures { (q : List ℕ) → get_by_text lists.new q
        ≡ (if bytes_eq name.now q then None else get_by_text lists.old q) }
{
    let _list = lists.remove(name.as_str());
}
