//! What holds of each table's schema.

ghost use Rattle.tt_schema_laws.specs.Columns.{LegalHasColumns};

/// After a legal history each table, dropped ones too, has 1 to 32 columns.
pub fn legal_tables_have_columns()
    ensures { LegalHasColumns }
{}
