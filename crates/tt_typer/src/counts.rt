//! Values, columns and names that are too many or too few.

ghost use Rattle.std.specs.Prelude.{◌≡◌, ◌++◌, ◌||◌, length, map, is_some, None, if◌then◌else◌};
ghost use Rattle.tt_typer.specs.TableScopes.{scope_in};
ghost use Rattle.tt_plain.specs.Places.{each, if_there, leftmost};
ghost use Rattle.tt_plain.specs.WrongCounts as spec;
ghost use Rattle.tt_plain.specs.UnknownColumns.{item_count as count_of_items};

use crate::places::earlier;
use crate::scope::TableScope;
use crate::unknown::item_count;
use sqlite_items::Items;
use tt_sql::{ColumnDefinition, Query, Set, Tuple};
use tt_value::{Name, Schema, Text};

/// The most columns that a table may have.
const MOST_COLUMNS: usize = 32;

/// What has a name that a statement gives it.
trait Named {
    ghost use Rattle.tt_value.specs.declared.name.Name.{Name};

    ghost name_of: { Self → Name };

    fn name(&self) -> &Name
        ensures { result.now ≡ name_of self.now };
}

impl Named for Name {
    ghost name_of = { λ name. name };

    fn name(&self) -> &Name {
        self
    }
}

impl Named for Set {
    ghost name_of = { λ s. s.column };

    fn name(&self) -> &Name {
        &self.column
    }
}

impl Named for ColumnDefinition {
    ghost name_of = { λ c. c.name };

    fn name(&self) -> &Name {
        &self.name
    }
}

fn mention<N: Named>(text: &Text, named: &N) -> Option<u32>
    ensures { result ≡ leftmost (spec.mention text.now (N.name_of named.now)) }
{
    let name = named.name();
    if name.text == *text {
        Some(name.place)
    } else {
        None
    }
}

/// The leftmost of these names that is this text.
fn mentioned<N: Named>(text: &Text, names: &[N]) -> Option<u32>
    ensures { result ≡ leftmost (spec.mentions text.now (map N.name_of names.now)) }
{
    let mut found = None;
    for name in names {
        found = earlier(found, mention(text, name));
    }
    found
}

fn later_only(seen: bool, here: Option<u32>) -> Option<u32>
    ensures { result ≡ (if seen then here else None) }
{
    if seen { here } else { None }
}

fn seen_after(seen: bool, here: Option<u32>) -> bool
    ensures { result ≡ (seen || is_some here) }
{
    seen || here.is_some()
}

/// The same without the first of them in the list.
fn mentioned_again<N: Named>(text: &Text, names: &[N]) -> Option<u32>
    ensures { result
        ≡ leftmost (spec.later_ones (spec.mentions text.now (map N.name_of names.now))) }
{
    let mut found = None;
    let mut seen = false;
    for name in names {
        let here = mention(text, name);
        found = earlier(found, later_only(seen, here));
        seen = seen_after(seen, here);
    }
    found
}

/// The leftmost name that stands for a column for a second time. Names that are no columns may be repeated.
pub fn named_again<N: Named>(schema: &Schema, names: &[N]) -> Option<u32>
    ensures { result ≡ leftmost (spec.named_again schema.now (map N.name_of names.now)) }
{
    let mut found = None;
    for column in schema.columns.items() {
        found = earlier(found, mentioned_again(&column.name, names));
    }
    found
}

/// The same in the column list of an INSERT; none where there is no list.
pub fn listed_again(schema: &Schema, names: &Option<Items<Name>>) -> Option<u32>
    ensures { result ≡ leftmost (if_there (spec.named_again schema.now) names.now) }
{
    match names {
        None => None,
        Some(names) => named_again(schema, names.as_slice()),
    }
}

/// So many columns does an INSERT give values for.
pub fn width(schema: &Schema, names: &Option<Items<Name>>) -> usize
    ensures { result ≡ spec.width schema.now names.now }
{
    match names {
        None => schema.columns.len(),
        Some(names) => names.len(),
    }
}

/// The opening bracket of the leftmost tuple that has more or fewer values than wanted.
pub fn miscounted_tuples(wanted: usize, tuples: &[Tuple]) -> Option<u32>
    ensures { result ≡ leftmost (each (spec.miscounted_tuple wanted) tuples.now) }
{
    let mut found = None;
    for tuple in tuples {
        found = earlier(found, unless_equal(tuple.place, tuple.values.len(), wanted));
    }
    found
}

fn unless_equal(place: u32, count: usize, wanted: usize) -> Option<u32>
    ensures { result ≡ leftmost (spec.unless_equal place count wanted) }
{
    if count == wanted { None } else { Some(place) }
}

/// The place of SELECT, if a row of the answer has more or fewer values than wanted.
pub fn miscounted_query(scope: &TableScope<'_>, wanted: usize, query: &Query) -> Option<u32>
    ensures { result ≡ leftmost (spec.unless_equal query.now.place
        (count_of_items (scope_in scope.now) query.now.selection) wanted) }
{
    unless_equal(query.place, item_count(scope, &query.selection), wanted)
}

/// A column past the 32nd, or a name that stood before among the first 32.
pub fn miscounted_columns(columns: &[ColumnDefinition]) -> Option<u32>
    ensures { result ≡ leftmost (spec.miscounted_columns (spec.defined_names columns.now)) }
{
    if columns.len() <= MOST_COLUMNS {
        return defined_again(columns);
    }
    let (first, others) = columns.split_at(MOST_COLUMNS);
    earlier(defined_again(first), places(others))
}

fn defined_again(columns: &[ColumnDefinition]) -> Option<u32>
    ensures { result ≡ leftmost (spec.defined_again (spec.defined_names columns.now)) }
{
    let mut found = None;
    let mut left = columns;
    while let Some((column, rest)) = left.split_first() {
        found = earlier(found, mentioned(&column.name.text, rest));
        left = rest;
    }
    found
}

fn places(columns: &[ColumnDefinition]) -> Option<u32>
    ensures { result ≡ leftmost (spec.places_of (spec.defined_names columns.now)) }
{
    let mut found = None;
    for column in columns {
        found = earlier(found, Some(column.name.place));
    }
    found
}
