//! Partitions that several owners share.

ghost use Rattle.std.specs.Prelude.{◌≡◌, IfOk};

use std::alloc::{AllocError, Global};
use std::marker::Model;
use std::sync::Arc;
use tt_layout::PartFacts;
use tt_partition::Partition;

/// A partition that several owners share. Contracts see its kinds and rows.
#[derive(Drop)]
pub struct SharedPart {
    part: Arc<Partition>,
}

impl Model for SharedPart {
    ghost use Rattle.std.specs.Arc.{arc_value};
    ghost use Rattle.tt_partition.specs.Table.{Table};

    ghost Value = { Table };

    ghost view = { λ s. arc_value s.part };
}

/// A partition that is kept, with its number, the table whose change added it, and its rows and bytes.
#[derive(Drop)]
pub struct StoredPart {
    pub facts: PartFacts,
    pub part: SharedPart,
}

impl SharedPart {
    /// The partition with its first owner. Where no memory is found it is dropped.
    pub fn new(alloc: Global, part: Partition) -> Result<SharedPart, AllocError>
        ensures { IfOk result (λ shared. shared ≡ part) }
    {
        Ok(SharedPart {
            part: Arc::new(alloc, part)?,
        })
    }

    /// One more owner of the same partition. No row is copied.
    pub fn share(&self) -> Result<SharedPart, AllocError>
        ensures { IfOk result (λ shared. shared ≡ self.now) }
    {
        Ok(SharedPart {
            part: Arc::try_clone(&self.part)?,
        })
    }

    /// The partition that all owners have in common, lent for reading.
    pub fn partition(&self) -> &Partition
        ensures { result.now ≡ self.now }
    {
        &self.part
    }
}
