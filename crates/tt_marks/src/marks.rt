//! All marks that stand.
ghost use Rattle.std.specs.Prelude.{◌≡◌, ◌≤◌, [], OnOk, OnErr, if◌then◌else◌, is_ok, true};
ghost use Rattle.tt_marks.specs.Marks.{mark_of, exclusive_holder, other_holder, other_exclusive_holder, unless_held, IsMarks};
ghost use Rattle.tt_marks.specs.Changes.{shared, marked, restored, released, HasRoomFor, CanRestore, IsSameRoom};

use crate::mark::{HeldBy, Mark};
use crate::sorted::{
    first_exclusive, first_other, first_other_exclusive, mark_of, marks_on, put_mark, remove_mark,
};
use std::alloc::{AllocError, Global};
use std::marker::Model;

/// The marks of all sessions. A session has at most one on a table, and at most one session has an
/// exclusive one there. It keeps its allocator.
#[derive(Drop)]
pub struct Marks {
    marks: Vec<Mark>,
}

impl Model for Marks {
    ghost use Rattle.std.specs.Prelude.{◌-◌, vec_capacity, vec_len};
    ghost use Rattle.tt_marks.specs.Marks.{Standing, IsMarks};

    ghost Value = { Standing };

    ghost view = { λ m. record {
      list = m.marks.items;
      spare = vec_capacity m.marks - vec_len m.marks;
    } };

    ghost invariant = { λ m. IsMarks m.marks.items };
}

impl Marks {
    /// No marks. It takes no memory.
    pub fn new(alloc: Global) -> Marks
        ensures { result.list ≡ [] }
    {
        Marks {
            marks: Vec::new(alloc),
        }
    }

    /// The marks, by table and on one table by session.
    pub fn list(&self) -> &[Mark]
        ensures value { result.now ≡ self.now.list }
        ensures valid { IsMarks self.now.list }
    {
        self.marks.as_slice()
    }

    /// Takes room for one more mark, where there is none.
    pub fn reserve(&mut self) -> Result<(), AllocError>
        ensures marks { self.new.list ≡ self.old.list }
        ensures room { OnOk result (1 ≤ self.new.spare) }
        ensures kept { self.old.spare ≤ self.new.spare }
        ensures err { OnErr result (self.new ≡ self.old) }
    {
        self.marks.reserve(1)?;
        Ok(())
    }

    /// Whether the session's mark on the table is exclusive, and none where it has none.
    pub fn held(&self, session: u32, table: u32) -> Option<bool>
        ensures { result ≡ mark_of session table self.now.list }
    {
        mark_of(&self.marks, session, table)
    }

    /// The session that has the exclusive mark on the table.
    pub fn exclusive(&self, table: u32) -> Option<u32>
        ensures { result ≡ exclusive_holder table self.now.list }
    {
        first_exclusive(marks_on(&self.marks, table))
    }

    /// The session marks the table. No other's mark stands in its way, and an exclusive mark that it
    /// has there stays. It takes no memory.
    pub fn share(&mut self, session: u32, table: u32)
        requires { HasRoomFor session table self.old }
        ensures marks { self.new.list ≡ shared session table self.old.list }
        ensures room { IsSameRoom self.old self.new }
    {
        if mark_of(&self.marks, session, table).is_none() {
            put_mark(
                &mut self.marks,
                Mark {
                    session,
                    table,
                    exclusive: false,
                },
            );
        }
    }

    /// The session marks the table exclusively, where no other has an exclusive mark there; a shared
    /// mark that it has there becomes exclusive. Else nothing is changed, and the answer names the
    /// first that has. It takes no memory.
    pub fn try_exclusive(&mut self, session: u32, table: u32) -> Result<(), HeldBy>
        requires { HasRoomFor session table self.old }
        ensures held { result ≡ unless_held (other_exclusive_holder session table self.old.list) }
        ensures ok { OnOk result (self.new.list ≡ marked session table true self.old.list) }
        ensures err { OnErr result (self.new.list ≡ self.old.list) }
        ensures room { IsSameRoom self.old self.new }
    {
        if let Some(holder) = first_other_exclusive(marks_on(&self.marks, table), session) {
            return Err(HeldBy { session: holder });
        }
        put_mark(
            &mut self.marks,
            Mark {
                session,
                table,
                exclusive: true,
            },
        );
        Ok(())
    }

    /// Whether the session may drop the table: no other has a mark on it. Else the answer names the
    /// first that has.
    pub fn try_drop(&self, session: u32, table: u32) -> Result<(), HeldBy>
        ensures { result ≡ unless_held (other_holder session table self.now.list) }
    {
        match first_other(marks_on(&self.marks, table), session) {
            Some(holder) => Err(HeldBy { session: holder }),
            None => Ok(()),
        }
    }

    /// Sets the session's mark on the table to `before`, an earlier answer of `held`. It takes no
    /// memory.
    pub fn restore(&mut self, session: u32, table: u32, before: Option<bool>)
        requires { CanRestore session table before self.old.list }
        ensures marks { self.new.list ≡ restored session table before self.old.list }
        ensures room { IsSameRoom self.old self.new }
    {
        match before {
            None => remove_mark(&mut self.marks, session, table),
            Some(exclusive) => put_mark(
                &mut self.marks,
                Mark {
                    session,
                    table,
                    exclusive,
                },
            ),
        }
    }

    /// Ends all marks of the session. It goes over all marks once.
    pub fn release(&mut self, session: u32)
        ensures marks { self.new.list ≡ released session self.old.list }
        ensures room { IsSameRoom self.old self.new }
    {
        self.marks.retain(|mark| mark.session != session);
    }
}
