//! Which tables have columns that can be counted.

ghost use Rattle.std.specs.Prelude.{◌^◌, ◌≤◌, List, length, All};
ghost use Rattle.tt_value.specs.declared.value.Schema.{Schema};
ghost use Rattle.tt_sql.specs.declared.query.Query.{Query};
ghost use Rattle.tt_scope.specs.Places.{HasPlaces};

/// Tables of few columns have columns that can be counted, in whatever query they stand.
pub fn few_columns_can_be_counted()
    ensures { (schemas : List Schema) (query : Query) → length schemas ≤ 2 ^ 16
        → All (λ schema. length schema.columns ≤ 2 ^ 16) schemas → HasPlaces schemas query }
{}
