//! Lists of marks in order: by table, and on one table by session.
ghost use Rattle.std.specs.Prelude.{◌≡◌, ◌<◌, vec_len, vec_capacity, find, not, ◌&&◌, IfOk, IfErr, None};
ghost use Rattle.std.specs.Option.{option_map};
ghost use Rattle.std.specs.List.Sorted.{IsStrictlySortedBy};
ghost use Rattle.tt_marks.specs.Marks.{mark_cmp, mark_of as mark_in, marks_on as marks_in, is_of_other};
ghost use Rattle.tt_marks.specs.Changes.{with_mark, unmarked};
ghost use Rattle.tt_marks.specs.Search.{IsPlaceOf, IsGapFor};

use crate::mark::Mark;
use std::cmp::Ordering;

/// By table, then by session.
fn compare_marks(a: &Mark, b: &Mark) -> Ordering
    ensures { result ≡ mark_cmp a.now b.now }
{
    a.table.cmp(&b.table).then(a.session.cmp(&b.session))
}

/// The place of the mark of this session on this table, or where it would stand. By halving.
fn search(marks: &[Mark], wanted: &Mark) -> Result<usize, usize>
    requires { IsStrictlySortedBy mark_cmp marks.now }
    ensures found { IfOk result (IsPlaceOf wanted.now marks.now) }
    ensures missing { IfErr result (IsGapFor wanted.now marks.now) }
{
    marks.binary_search_by(|mark| compare_marks(mark, wanted))
}

/// Whether the session's mark on the table is exclusive, and none where it has none.
pub fn mark_of(marks: &[Mark], session: u32, table: u32) -> Option<bool>
    requires { IsStrictlySortedBy mark_cmp marks.now }
    ensures { result ≡ mark_in session table marks.now }
{
    let wanted = Mark {
        session,
        table,
        exclusive: false,
    };
    match search(marks, &wanted) {
        Ok(place) => Some(marks[place].exclusive),
        Err(_) => None,
    }
}

/// The marks on a table, by session. Two searches by halving.
pub fn marks_on(marks: &[Mark], table: u32) -> &[Mark]
    requires { IsStrictlySortedBy mark_cmp marks.now }
    ensures { result.now ≡ marks_in table marks.now }
{
    let rest = &marks[marks.partition_point(|mark| mark.table < table)..];
    &rest[..rest.partition_point(|mark| mark.table <= table)]
}

/// The first session of which a mark is exclusive.
pub fn first_exclusive(marks: &[Mark]) -> Option<u32>
    ensures { result ≡ option_map (λ mark. mark.session) (find (λ mark. mark.exclusive) marks.now) }
{
    marks
        .iter()
        .find(|mark| mark.exclusive)
        .map(|mark| mark.session)
}

/// The first other session that has a mark.
pub fn first_other(marks: &[Mark], session: u32) -> Option<u32>
    ensures { result ≡ option_map (λ mark. mark.session) (find (is_of_other session) marks.now) }
{
    marks
        .iter()
        .find(|mark| mark.session != session)
        .map(|mark| mark.session)
}

/// The first other session of which a mark is exclusive.
pub fn first_other_exclusive(marks: &[Mark], session: u32) -> Option<u32>
    ensures { result ≡ option_map (λ mark. mark.session)
        (find (λ mark. mark.exclusive && is_of_other session mark) marks.now) }
{
    marks
        .iter()
        .find(|mark| mark.exclusive && mark.session != session)
        .map(|mark| mark.session)
}

/// Puts a mark in its place, instead of an earlier one of its session on its table. It takes no
/// memory.
pub fn put_mark(marks: &mut Vec<Mark>, mark: Mark)
    requires ordered { IsStrictlySortedBy mark_cmp marks.old.items }
    requires room { mark_in mark.session mark.table marks.old.items ≡ None
        → vec_len marks.old < vec_capacity marks.old }
    ensures marks { marks.new.items ≡ with_mark mark marks.old.items }
    ensures capacity { vec_capacity marks.new ≡ vec_capacity marks.old }
{
    match search(marks, &mark) {
        Ok(place) => marks[place] = mark,
        Err(place) => {
            let Ok(()) = marks.insert(place, mark) else {
                unreachable!();
            };
        }
    }
}

/// Takes the session's mark on the table away, where it has one.
pub fn remove_mark(marks: &mut Vec<Mark>, session: u32, table: u32)
    requires { IsStrictlySortedBy mark_cmp marks.old.items }
    ensures marks { marks.new.items ≡ unmarked session table marks.old.items }
    ensures capacity { vec_capacity marks.new ≡ vec_capacity marks.old }
{
    let wanted = Mark {
        session,
        table,
        exclusive: false,
    };
    if let Ok(place) = search(marks, &wanted) {
        marks.remove(place);
    }
}
