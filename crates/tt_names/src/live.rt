//! The live tables by their names.
ghost use Rattle.std.specs.Prelude.{◌≡◌, IsSome, OnOk, OnErr};
ghost use Rattle.std.specs.FinMap as finite;

use std::alloc::{AllocError, Global};
use std::collections::HashMap;
use std::marker::Model;
use tt_value::Text;

/// The live table of each name that has one.
#[derive(Drop)]
pub struct Live {
    tables: HashMap<String, u32>,
    alloc: Global,
}

impl Model for Live {
    ghost use Rattle.std.specs.Prelude.{ℕ};
    ghost use Rattle.std.specs.Coded.{coded_ℕ};
    ghost use Rattle.tt_names.specs.ByName.{ByName, by_name_code, seen};

    ghost Value = { ByName ℕ };

    ghost coded = { by_name_code coded_ℕ };

    ghost view = { λ l. seen (λ table. table) l.tables.entries };
}

impl Live {
    /// No names. It takes no memory.
    pub fn new(alloc: Global) -> Live
        ensures { result ≡ finite.empty }
    {
        Live {
            tables: HashMap::new(alloc),
            alloc,
        }
    }

    /// The table of the name.
    pub fn get(&self, name: &Text) -> Option<u32>
        ensures { result ≡ finite.get self.now name.now }
    {
        self.tables.get(name.as_str()).copied()
    }

    /// Gives the name a table, instead of one that it has.
    pub fn put(&mut self, name: &Text, table: u32) -> Result<(), AllocError>
        ensures ok { OnOk result (self.new ≡ finite.insert self.old name.now table) }
        ensures err { OnErr result (self.new ≡ self.old) }
    {
        let key = String::from_str(self.alloc, name.as_str())?;
        self.tables.insert(key, table)?;
        Ok(())
    }

    /// Gives a name another table instead of the one that it has. It takes no memory.
    pub fn set(&mut self, name: &Text, table: u32)
        requires { IsSome (finite.get self.old name.now) }
        ensures { self.new ≡ finite.insert self.old name.now table }
    {
        let Some(slot) = self.tables.get_mut(name.as_str()) else {
            unreachable!();
        };
        *slot = table;
    }

    /// Takes the table away from the name. It takes no memory.
    pub fn remove(&mut self, name: &Text)
        ensures { self.new ≡ finite.remove self.old name.now }
    {
        self.tables.remove(name.as_str());
    }
}
