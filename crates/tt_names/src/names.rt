//! The registry of names.
ghost use Rattle.std.specs.Prelude.{◌≡◌, OnOk, OnErr, IfOk};
ghost use Rattle.std.specs.FinMap as finite;
ghost use Rattle.tt_names.specs.Registry.{live_of, dropped_of, IsLive, IsFree, IsDropped};
ghost use Rattle.tt_names.specs.Changes.{bound, unbound, renamed, replaced, swapped, undropped, table_of};

use crate::dropped::Dropped;
use crate::live::Live;
use std::alloc::{AllocError, Global};
use std::marker::Model;
use tt_value::Text;

/// Which table is live under each name, and which were dropped under it. Tables are given by their
/// numbers, and moments in milliseconds. It keeps its allocator.
#[derive(Drop)]
pub struct Names {
    live: Live,
    dropped: Dropped,
}

impl Model for Names {
    ghost use Rattle.tt_names.specs.Registry.{Registry};
    ghost use Rattle.tt_names.specs.RegistryCode.{registry_code};

    ghost Value = { Registry };

    ghost coded = { registry_code };

    ghost view = { λ n. record { live = n.live; drops = n.dropped } };
}

impl Names {
    /// No names. It takes no memory.
    pub fn new(alloc: Global) -> Names
        ensures live { result.live ≡ finite.empty }
        ensures drops { result.drops ≡ finite.empty }
    {
        Names {
            live: Live::new(alloc),
            dropped: Dropped::new(alloc),
        }
    }

    /// The live table of the name. A look-up, however many names there are.
    pub fn live(&self, name: &Text) -> Option<u32>
        ensures { result ≡ live_of name.now self.now }
    {
        self.live.get(name)
    }

    /// The tables that were dropped under the name and not brought back, each with the moment of
    /// its drop, the last one first.
    pub fn dropped(&self, name: &Text) -> &[(u32, u64)]
        ensures { result.now ≡ dropped_of name.now self.now }
    {
        self.dropped.get(name)
    }

    /// Gives a free name to a table. Where no memory is found nothing is changed, here and below.
    pub fn bind(&mut self, name: Text, table: u32) -> Result<(), AllocError>
        requires { IsFree name self.old }
        ensures ok { OnOk result (self.new ≡ bound name table self.old) }
        ensures err { OnErr result (self.new ≡ self.old) }
    {
        self.live.put(&name, table)
    }

    /// Drops the live table of the name at the moment, and gives it; none where no table is live.
    pub fn unbind(&mut self, name: &Text, moment: u64) -> Result<Option<u32>, AllocError>
        ensures table { IfOk result (λ table. table ≡ live_of name.now self.old) }
        ensures ok { OnOk result (self.new ≡ unbound name.now moment self.old) }
        ensures err { OnErr result (self.new ≡ self.old) }
    {
        let Some(table) = self.live.get(name) else {
            return Ok(None);
        };
        self.dropped.push(name, table, moment)?;
        self.live.remove(name);
        Ok(Some(table))
    }

    /// Gives the live table of one name another, free name. No table is dropped.
    pub fn rename(&mut self, old: &Text, new: Text) -> Result<(), AllocError>
        requires live { IsLive old.now self.old }
        requires free { IsFree new self.old }
        ensures ok { OnOk result (self.new ≡ renamed old.now new self.old) }
        ensures err { OnErr result (self.new ≡ self.old) }
    {
        let Some(table) = self.live.get(old) else {
            unreachable!();
        };
        self.live.put(&new, table)?;
        self.live.remove(old);
        Ok(())
    }

    /// Drops the live table of the name at the moment, gives the name to another, and gives the
    /// dropped one.
    pub fn replace(&mut self, name: &Text, table: u32, moment: u64) -> Result<u32, AllocError>
        requires { IsLive name.now self.old }
        ensures table { IfOk result (λ old. old ≡ table_of name.now self.old) }
        ensures ok { OnOk result (self.new ≡ replaced name.now table moment self.old) }
        ensures err { OnErr result (self.new ≡ self.old) }
    {
        let Some(old) = self.live.get(name) else {
            unreachable!();
        };
        self.dropped.push(name, old, moment)?;
        self.live.set(name, table);
        Ok(old)
    }

    /// Exchanges the live tables of two names, which may be one. It takes no memory.
    pub fn swap(&mut self, a: &Text, b: &Text)
        requires first { IsLive a.now self.old }
        requires second { IsLive b.now self.old }
        ensures { self.new ≡ swapped a.now b.now self.old }
    {
        let (Some(first), Some(second)) = (self.live.get(a), self.live.get(b)) else {
            unreachable!();
        };
        self.live.set(a, second);
        self.live.set(b, first);
    }

    /// Brings a table back that was dropped under a free name.
    pub fn undrop(&mut self, name: &Text, table: u32) -> Result<(), AllocError>
        requires free { IsFree name.now self.old }
        requires dropped { IsDropped name.now table self.old }
        ensures ok { OnOk result (self.new ≡ undropped name.now table self.old) }
        ensures err { OnErr result (self.new ≡ self.old) }
    {
        self.live.put(name, table)?;
        self.dropped.take_out(name, table);
        Ok(())
    }
}
