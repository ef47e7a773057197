//! The columns of a table that a statement's names mean.

ghost use Rattle.std.specs.Prelude.{◌≡◌};
ghost use Rattle.std.specs.Option.{option_copied};
ghost use Rattle.tt_value.specs.trees.Scope.{column_place as place_in};
ghost use Rattle.tt_plain.specs.Columns as spec;

use sqlite_items::Items;
use tt_value::{Column, Name, Schema};

/// The place among the columns, from 0; none where no column has the name.
pub fn column_place(schema: &Schema, name: &Name) -> Option<usize>
    ensures { result ≡ place_in schema.now name.now.text }
{
    schema
        .columns
        .items()
        .iter()
        .position(|column| column.name == name.text)
}

/// The column of that name, if there is one.
pub fn column_named<'a>(schema: &'a Schema, name: &Name) -> Option<&'a Column>
    ensures { option_copied result ≡ spec.column_named schema.now name.now }
{
    match column_place(schema, name) {
        None => None,
        Some(place) => schema.columns.get(place),
    }
}

/// Where a value goes that stands at this place: into the column that the list names there, or, without
/// a list, into the column of that place.
pub fn target_column<'a>(
    schema: &'a Schema,
    names: &Option<Items<Name>>,
    at: usize,
) -> Option<&'a Column>
    ensures { option_copied result ≡ spec.target_column schema.now names.now at }
{
    match names {
        None => schema.columns.get(at),
        Some(names) => match names.get(at) {
            None => None,
            Some(name) => column_named(schema, name),
        },
    }
}
