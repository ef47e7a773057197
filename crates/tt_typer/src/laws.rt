//! What stands where a statement is accepted. They compute nothing.

ghost use Rattle.std.specs.Prelude.{◌≡◌, ◌<◌, ℕ, ℤ, Option, List, [], ◌∷◌, length, map, true, is_some, None, Some, IfSome};
ghost use Rattle.std.specs.List.{All};
ghost use Rattle.tt_value.specs.declared.value.Row.{Row as RowValue};
ghost use Rattle.tt_value.specs.declared.value.Schema.{Schema as SchemaValue};
ghost use Rattle.tt_value.specs.declared.value.Value.{Value as AnyValue};
ghost use Rattle.tt_value.specs.declared.value.Value.TheVariants.{Int, Date, Text};
ghost use Rattle.tt_value.specs.declared.value.Kind.TheVariants as kinds;
ghost use Rattle.tt_value.specs.declared.expression.Sign.{Sign as SignValue};
ghost use Rattle.tt_value.specs.declared.predicate.Comparison.{Comparison as ComparisonValue};
ghost use Rattle.tt_value.specs.calendar.Reading.{day_of};
ghost use Rattle.tt_value.specs.declared.value.Column.{Column as ColumnValue};
ghost use Rattle.tt_value.specs.declared.name.Name.{Name as NameValue};
ghost use Rattle.tt_value.specs.declared.expression.Expr.{Expr as ExprValue};
ghost use Rattle.tt_value.specs.declared.predicate.Predicate.{Predicate as PredicateValue};
ghost use Rattle.tt_value.specs.trees.Scope.{Scope, column_value};
ghost use Rattle.tt_value.specs.trees.Expressions.{value_of};
ghost use Rattle.tt_value.specs.trees.Predicates.{truth_of};
ghost use Rattle.tt_sql.specs.declared.query.Query.{Query as QueryValue};
ghost use Rattle.tt_sql.specs.declared.query.Item.{Item as ItemValue};
ghost use Rattle.tt_sql.specs.declared.query.Selection.TheVariants as selection;
ghost use Rattle.tt_sql.specs.declared.change.Dml.{Dml as DmlValue};
ghost use Rattle.tt_sql.specs.declared.change.Dml.TheVariants as dml;
ghost use Rattle.tt_sql.specs.declared.change.Insert.{Insert as InsertValue};
ghost use Rattle.tt_sql.specs.declared.change.InsertSource.TheVariants as source;
ghost use Rattle.tt_sql.specs.declared.change.Update.{Update as UpdateValue};
ghost use Rattle.tt_sql.specs.declared.change.Delete.{Delete as DeleteValue};
ghost use Rattle.tt_sql.specs.declared.statement.Statement.{Statement as StatementValue};
ghost use Rattle.tt_sql.specs.declared.statement.Statement.TheVariants as statement;
ghost use Rattle.tt_sql.specs.meaning.Scopes.{query_scope, target_scope};
ghost use Rattle.tt_sql.specs.meaning.Queries.{groups_of, answer_of};
ghost use Rattle.tt_sql.specs.meaning.Changes.{Staged, Changes, inserted_values, change_of};
ghost use Rattle.tt_sql.specs.declared.table.CreatedTable.{CreatedTable as CreatedValue};
ghost use Rattle.tt_sql.specs.declared.table.ColumnDefinition.{ColumnDefinition as DefinitionValue};
ghost use Rattle.tt_plain.specs.Columns.{column_named};
ghost use Rattle.tt_plain.specs.Expressions.{part_of};
ghost use Rattle.tt_plain.specs.UnknownColumns.{unknown_in_expr, unknown_in_predicate};
ghost use Rattle.tt_plain.specs.TypeMismatches.{misfit_in_predicate};
ghost use Rattle.tt_plain.specs.TypingRefusal.{typing_refusal, IsWellTyped};
ghost use Rattle.tt_plain.specs.ValueKinds.{IsOf, HasKinds, column_kinds, IsRowOf, IsFoundByName};
ghost use Rattle.tt_plain.specs.StrictMeaning.{value_there, negated_number, strict_sum, strict_product, strict_value_of, strict_beside, strict_compared, strict_begins, strict_truth_of};
ghost use Rattle.tt_plain.specs.QueryKinds.{answer_kinds, IsQueryTyped, KeepsToKinds, HasPlace, reads_first_row};
ghost use Rattle.tt_plain.specs.ChangeKinds.{SourceHasKinds, ReadHasKinds, StagedAreRows, AreReadBy, SetKeepsToKinds};

/// A statement that is not refused has only names that are columns, numbers that agree, kinds that fit
/// and NULLs where they may stand.
pub fn accepted_is_well_typed()
    ensures { (schemas : List SchemaValue) (s : StatementValue) → typing_refusal schemas s ≡ None
        → IsWellTyped schemas s }
{}

/// An expression whose names are columns and in which kinds fit calculates with numbers and NULLs alone,
/// and its value, if it is in range, is of the expression's kind.
pub fn expressions_keep_to_kinds()
    ensures strict { (scope : Scope) (row : RowValue) (e : ExprValue)
        → HasKinds (column_kinds scope.columns) row → unknown_in_expr scope e ≡ []
        → (part_of scope e).misfits ≡ []
        → strict_value_of scope row e ≡ Some (value_of scope row e) }
    ensures kind { (scope : Scope) (row : RowValue) (e : ExprValue)
        → HasKinds (column_kinds scope.columns) row → unknown_in_expr scope e ≡ []
        → (part_of scope e).misfits ≡ []
        → IfSome (value_of scope row e) (IsOf (part_of scope e).kind) }
{}

/// A predicate whose names are columns and in which kinds fit compares values of one kind, and asks of
/// texts alone how they begin.
pub fn predicates_keep_to_kinds()
    ensures { (scope : Scope) (row : RowValue) (p : PredicateValue)
        → HasKinds (column_kinds scope.columns) row → unknown_in_predicate scope p ≡ []
        → misfit_in_predicate scope p ≡ []
        → strict_truth_of scope row p ≡ Some (truth_of scope row p) }
{}

/// The strict meaning has no sum, no product and no minus with a text, no comparison of a number with a
/// text or a DATE or of a DATE with a text, on either side, no STARTSWITH of a number or a DATE, and
/// nothing for a text beside a DATE that is none.
pub fn excluded_cases_have_no_meaning()
    ensures sum { (sign : SignValue) (bytes : List ℕ) (v : Option AnyValue)
        → (strict_sum sign (Some (Some (Text bytes))) (Some v) ≡ None)
        × (strict_sum sign (Some v) (Some (Some (Text bytes))) ≡ None) }
    ensures product { (bytes : List ℕ) (v : Option AnyValue)
        → (strict_product (Some (Some (Text bytes))) (Some v) ≡ None)
        × (strict_product (Some v) (Some (Some (Text bytes))) ≡ None) }
    ensures minus { (bytes : List ℕ) → negated_number (Some (Text bytes)) ≡ None }
    ensures comparison { (c : ComparisonValue) (n : ℤ) (bytes : List ℕ)
        → (strict_compared c (Int n) (Text bytes) ≡ None)
        × (strict_compared c (Text bytes) (Int n) ≡ None) }
    ensures day_and_number { (c : ComparisonValue) (day n : ℤ)
        → (strict_compared c (Date day) (Int n) ≡ None)
        × (strict_compared c (Int n) (Date day) ≡ None) }
    ensures day_and_text { (c : ComparisonValue) (day : ℤ) (bytes : List ℕ)
        → (strict_compared c (Date day) (Text bytes) ≡ None)
        × (strict_compared c (Text bytes) (Date day) ≡ None) }
    ensures beginning { (front : List ℕ) (n : ℤ)
        → (strict_begins front (Int n) ≡ None) × (strict_begins front (Date n) ≡ None) }
    ensures date { (bytes : List ℕ)
        → day_of bytes ≡ None → strict_beside (Some kinds.Date) (Text bytes) ≡ None }
{}

/// Nothing is refused in the query of a statement in which nothing is.
pub fn accepted_queries_are_typed()
    ensures query { (schemas : List SchemaValue) (q : QueryValue)
        → IsWellTyped schemas (statement.Query q) → IsQueryTyped (query_scope schemas q) q }
    ensures explain { (schemas : List SchemaValue) (q : QueryValue)
        → IsWellTyped schemas (statement.Explain q) → IsQueryTyped (query_scope schemas q) q }
    ensures insert { (schema : SchemaValue) (sources : List SchemaValue) (i : InsertValue)
        (q : QueryValue) → IsWellTyped (schema ∷ sources) (statement.Dml (dml.Insert i))
        → i.source ≡ source.Query q → IsQueryTyped (query_scope sources q) q }
{}

/// A query in which nothing is refused, over rows of the kinds of their columns: its filter, its items
/// and its groups meet no case that kinds exclude, no group is empty whose first row is read, the rows of
/// its answer are of the kinds of its items, and each key of its order is one of their values.
pub fn queries_keep_to_kinds()
    ensures filter { (scope : Scope) (q : QueryValue) (row : RowValue) (p : PredicateValue)
        → IsQueryTyped scope q → HasKinds (column_kinds scope.columns) row → q.filter ≡ Some p
        → strict_truth_of scope row p ≡ Some (truth_of scope row p) }
    ensures items { (scope : Scope) (q : QueryValue) (items : List ItemValue) (rows : List RowValue)
        → IsQueryTyped scope q → q.selection ≡ selection.Listed items
        → All (HasKinds (column_kinds scope.columns)) rows → All (KeepsToKinds scope rows) items }
    ensures group_columns { (scope : Scope) (q : QueryValue) (row : RowValue)
        → IsQueryTyped scope q → HasKinds (column_kinds scope.columns) row
        → All (λ c. value_there scope row c ≡ Some (column_value scope row c)) q.group }
    ensures groups { (scope : Scope) (q : QueryValue) (rows : List RowValue) → IsQueryTyped scope q
        → All (HasKinds (column_kinds scope.columns)) rows
        → All (λ group. All (HasKinds (column_kinds scope.columns)) group)
        (groups_of scope q rows) }
    ensures first_rows { (scope : Scope) (q : QueryValue) (rows : List RowValue)
        → IsQueryTyped scope q → reads_first_row q.selection ≡ true
        → All (λ group. 0 < length group) (groups_of scope q rows) }
    ensures answer { (scope : Scope) (q : QueryValue) (rows answer : List RowValue)
        → IsQueryTyped scope q → All (HasKinds (column_kinds scope.columns)) rows
        → answer_of scope q rows ≡ Some answer
        → All (HasKinds (answer_kinds scope q.selection)) answer }
    ensures keys { (scope : Scope) (q : QueryValue) → IsQueryTyped scope q
        → All (HasPlace scope q.selection) q.order }
{}

/// An accepted change of a table whose columns are found by their names, over rows of the kinds of their
/// columns: what it adds are rows of the kinds of their columns, with no NULL where none may stand. The
/// values that an INSERT brings are as many as the columns that they are given for, each listed name is a
/// column, a text is read as a date only where it is one, and what a column stores is of its kind. The
/// filters and the SETs meet no case that kinds exclude.
pub fn changes_keep_to_kinds()
    ensures added { (schema : SchemaValue) (sources : List SchemaValue) (rows read : List RowValue)
        (staged : Staged) (d : DmlValue) (removed added : List RowValue) (count : ℕ)
        → IsFoundByName schema → IsWellTyped (schema ∷ sources) (statement.Dml d)
        → All (IsRowOf schema) rows → ReadHasKinds sources read d → StagedAreRows schema staged
        → change_of schema rows sources read staged d ≡ Changes removed added count
        → All (IsRowOf schema) added }
    ensures inserted { (schema : SchemaValue) (sources : List SchemaValue) (read : List RowValue)
        (i : InsertValue) (given : List (List AnyValue))
        → IsFoundByName schema → IsWellTyped (schema ∷ sources) (statement.Dml (dml.Insert i))
        → SourceHasKinds sources read i.source → inserted_values sources read i.source ≡ Some given
        → All (AreReadBy schema i.columns) given }
    ensures listed { (schema : SchemaValue) (sources : List SchemaValue) (i : InsertValue)
        (names : List NameValue)
        → IsWellTyped (schema ∷ sources) (statement.Dml (dml.Insert i)) → i.columns ≡ Some names
        → All (λ name. is_some (column_named schema name) ≡ true) names }
    ensures sets { (schema : SchemaValue) (sources : List SchemaValue) (u : UpdateValue)
        (row : RowValue)
        → IsFoundByName schema → IsWellTyped (schema ∷ sources) (statement.Dml (dml.Update u))
        → HasKinds (column_kinds schema.columns) row
        → All (SetKeepsToKinds u.table schema row) u.sets }
    ensures update_filter { (schema : SchemaValue) (sources : List SchemaValue) (u : UpdateValue)
        (row : RowValue) (p : PredicateValue)
        → IsWellTyped (schema ∷ sources) (statement.Dml (dml.Update u))
        → HasKinds (column_kinds schema.columns) row → u.filter ≡ Some p
        → strict_truth_of (target_scope u.table schema) row p
        ≡ Some (truth_of (target_scope u.table schema) row p) }
    ensures delete_filter { (schema : SchemaValue) (sources : List SchemaValue) (d : DeleteValue)
        (row : RowValue) (p : PredicateValue)
        → IsWellTyped (schema ∷ sources) (statement.Dml (dml.Delete d))
        → HasKinds (column_kinds schema.columns) row → d.filter ≡ Some p
        → strict_truth_of (target_scope d.table schema) row p
        ≡ Some (truth_of (target_scope d.table schema) row p) }
{}

/// The columns of a table that an accepted CREATE TABLE makes are found by their names.
pub fn created_columns_are_found()
    ensures { (schemas : List SchemaValue) (c : CreatedValue) (schema : SchemaValue)
        → IsWellTyped schemas (statement.Create c)
        → map (λ (column : ColumnValue). column.name) schema.columns
        ≡ map (λ (column : DefinitionValue). column.name.text) c.columns
        → IsFoundByName schema }
{}
