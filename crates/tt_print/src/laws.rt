//! Laws of the text of a statement. They compute nothing.

ghost use Rattle.std.specs.Prelude.{◌≡◌, ◌∷◌, [], ◌<◌, ◌^◌, ◌↔◌, ℕ, List, Ok, true, false, codes, pos};
ghost use Rattle.tt_lex.specs.TokensOf.{tokens_of};
ghost use Rattle.tt_value.specs.declared.name.Name.{Name};
ghost use Rattle.tt_value.specs.declared.name.Number.{Number};
ghost use Rattle.tt_value.specs.declared.name.Quoted.{Quoted};
ghost use Rattle.tt_sql.specs.declared.table.Change.TheVariants.{RenameTo, SwapWith, SetRetention, ClusterBy, DropClusteringKey, SuspendRecluster, ResumeRecluster};
ghost use Rattle.tt_sql.specs.declared.statement.Statement.{Statement};
ghost use Rattle.tt_sql.specs.declared.statement.Statement.TheVariants.{Drop, Undrop, Truncate, Begin, Commit, Rollback, Show, Metrics};
ghost use Rattle.tt_print.specs.text.Statements.{statement_words, statement_text};
ghost use Rattle.tt_sql.specs.grammar.Grammar.{Mark, Way, Said, Meant};
ghost use Rattle.tt_sql.specs.grammar.Statements.{IsStatement};
ghost use Rattle.tt_sql.specs.grammar.TokenKinds.{lexemes};
ghost use Rattle.tt_print.specs.again.Tokens.{IsWritable, printed_tokens};
ghost use Rattle.std.specs.Fmt.{decimal};
ghost use Rattle.tt_value.specs.declared.value.Value.{Value};
ghost use Rattle.tt_sql.specs.grammar.Combinators as parts;
ghost use Rattle.tt_print.specs.text.Words.{quoted, value_words};
ghost use Rattle.tt_sql.specs.trees.Leaves.{IsWrittenValue, IsNameText};
ghost use Rattle.tt_print.specs.again.Spelling.{IsSpelledBy, plain, printed_lexemes, AreReadAs, PrintNotes, AlterNotes, place_in_alter, copy_rows, file_place};
ghost use Rattle.tt_print.specs.places.Marks.{unplaced};
ghost use Rattle.tt_sql.specs.grammar.Written.{literal, expr, pred, query, statement};
ghost use Rattle.tt_sql.specs.marks.Expressions.{value_marks, expr_marks, predicate_marks};
ghost use Rattle.tt_print.specs.text.Expressions.{expr_words};
ghost use Rattle.tt_print.specs.text.Predicates.{predicate_words};
ghost use Rattle.tt_print.specs.text.Queries.{query_words};
ghost use Rattle.tt_sql.specs.marks.Queries.{query_marks};
ghost use Rattle.tt_sql.specs.trees.Queries.{IsWrittenQuery};
ghost use Rattle.tt_sql.specs.marks.Statements.{statement_marks};
ghost use Rattle.tt_sql.specs.text.StatementOf.{most_levels, statement_of};
ghost use Rattle.tt_print.specs.again.Texts.{IsReadAgain};
ghost use Rattle.tt_print.specs.places.Trees.{unplaced_statement};
ghost use Rattle.tt_sql.specs.trees.Statements.{IsWrittenStatement};
ghost use Rattle.tt_sql.specs.trees.Expressions.{IsWrittenExpr, IsWrittenPredicate};

/// The tokens of a printed statement are its words, each where it stands in the text.
pub fn a_printed_statement_has_its_words()
    ensures tokens { (s : Statement)
        → IsWritable s → tokens_of (statement_text s) ≡ Ok (printed_tokens s) }
    ensures lexemes { (s : Statement)
        → lexemes (statement_text s) (printed_tokens s) ≡ printed_lexemes s }
{}

/// What names, numbers, texts and literals are printed as is read as the same again.
pub fn printed_words_are_read_again()
    ensures name { (at : ℕ) (text : List ℕ) → IsNameText text
        → IsSpelledBy parts.name at (text ∷ []) (Said text at ∷ []) }
    ensures number { (at n : ℕ) → n < 2 ^ 63
        → IsSpelledBy parts.number at (decimal n ∷ []) (Meant (pos n) at ∷ []) }
    ensures text { (at : ℕ) (text : List ℕ)
        → IsSpelledBy parts.quoted at (quoted text ∷ []) (Said text at ∷ []) }
    ensures literal { (at : ℕ) (value : Value) → IsWrittenValue value
        → IsSpelledBy literal at (value_words value) (value_marks value at) }
{}

/// The words of these printed statements are the same statement again: what they say is noted, with the places of
/// the printed text.
pub fn a_printed_statement_is_a_statement()
    ensures begin { PrintNotes Begin (Way 11 ∷ []) }
    ensures commit { PrintNotes Commit (Way 12 ∷ []) }
    ensures rollback { PrintNotes Rollback (Way 13 ∷ []) }
    ensures show { PrintNotes (Show false) (Way 0 ∷ Way 16 ∷ []) }
    ensures show_history { PrintNotes (Show true) (Way 1 ∷ Way 16 ∷ []) }
    ensures metrics { PrintNotes Metrics (Way 17 ∷ []) }
    ensures drop { (table : Name) → IsNameText table.text
        → PrintNotes (Drop (plain table)) (Said table.text 11 ∷ Way 7 ∷ []) }
    ensures undrop { (table : Name) → IsNameText table.text
        → PrintNotes (Undrop (plain table)) (Said table.text 13 ∷ Way 8 ∷ []) }
    ensures truncate { (table : Name) → IsNameText table.text
        → PrintNotes (Truncate (plain table)) (Said table.text 15 ∷ Way 9 ∷ []) }
    ensures copy { (file : Quoted) (table : Name) → IsNameText table.text
        → PrintNotes (copy_rows table file)
        (Said table.text 10 ∷ Said file.text (file_place table) ∷ Way 4 ∷ []) }
    ensures rename { (table other : Name) → IsNameText table.text → IsNameText other.text
        → AlterNotes table (RenameTo (plain other))
        (Said other.text (place_in_alter table (codes "RENAME" ∷ codes "TO" ∷ [])) ∷ Way 0 ∷ []) }
    ensures swap { (table other : Name) → IsNameText table.text → IsNameText other.text
        → AlterNotes table (SwapWith (plain other))
        (Said other.text (place_in_alter table (codes "SWAP" ∷ codes "WITH" ∷ [])) ∷ Way 1 ∷ []) }
    ensures retention { (table : Name) (days : Number)
        → IsNameText table.text → days.value < 2 ^ 63
        → AlterNotes table (SetRetention days)
        (Meant (pos days.value) (place_in_alter table
        (codes "SET" ∷ codes "DATA_RETENTION_TIME_IN_DAYS" ∷ codes "=" ∷ [])) ∷ Way 2 ∷ []) }
    ensures cluster { (table column : Name) → IsNameText table.text → IsNameText column.text
        → AlterNotes table (ClusterBy column)
        (Said column.text (place_in_alter table
        (codes "CLUSTER" ∷ codes "BY" ∷ codes "(" ∷ [])) ∷ Way 3 ∷ []) }
    ensures drop_key { (table : Name) → IsNameText table.text
        → AlterNotes table DropClusteringKey (Way 4 ∷ []) }
    ensures suspend { (table : Name) → IsNameText table.text
        → AlterNotes table SuspendRecluster (Way 5 ∷ []) }
    ensures resume { (table : Name) → IsNameText table.text
        → AlterNotes table ResumeRecluster (Way 6 ∷ []) }
{}

/// Expressions, predicates, queries and statements with at most so many levels are read as what they were printed
/// from, but for the places. Their words are tokens of the lexer.
pub fn printed_trees_are_read_again()
    ensures expression { AreReadAs IsWrittenExpr expr expr_words expr_marks }
    ensures predicate { AreReadAs IsWrittenPredicate pred predicate_words predicate_marks }
    ensures query { AreReadAs IsWrittenQuery query query_words query_marks }
    ensures every { AreReadAs IsWrittenStatement statement statement_words statement_marks }
{}

/// The tokens of a printed statement are its words, and are a statement of the grammar again: the same one, but for
/// the places.
pub fn printed_statements_are_statements()
    ensures writable { (levels : ℕ) (s : Statement)
        → IsWrittenStatement levels s → IsWritable s }
    ensures again { (levels : ℕ) (s : Statement) → IsWrittenStatement levels s
        → (m : List Mark) × (unplaced m ≡ unplaced (statement_marks s))
        × IsStatement levels m (printed_lexemes s) }
{}

/// The text of a printed statement is that of a statement: the same one, with the places of the printed text. So it
/// is for each statement that a text has.
pub fn printed_texts_are_read_again()
    ensures written { (s : Statement) → IsWrittenStatement most_levels s → IsReadAgain s }
    ensures text { (text : List ℕ) (s : Statement)
        → statement_of text ≡ Ok s → IsReadAgain s }
{}

/// A statement without its places notes the same marks without their places. So two statements whose marks are the
/// same but for places are the same but for places.
pub fn places_are_apart()
    ensures marks { (levels : ℕ) (s : Statement) → IsWrittenStatement levels s
        → statement_marks (unplaced_statement s) ≡ unplaced (statement_marks s) }
    ensures alike { (i j : ℕ) (s t : Statement)
        → IsWrittenStatement i s → IsWrittenStatement j t
        → unplaced (statement_marks s) ≡ unplaced (statement_marks t)
        → unplaced_statement s ≡ unplaced_statement t }
{}

/// Two statements are the same but for places exactly where they are printed as the same text. So each statement that
/// a text has is that of one printed text only, but for places. And they are the same but for places exactly where
/// they note the same marks but for places.
pub fn a_statement_has_one_text()
    ensures written { (s t : Statement)
        → IsWrittenStatement most_levels s → IsWrittenStatement most_levels t
        → (unplaced_statement s ≡ unplaced_statement t) ↔ (statement_text s ≡ statement_text t) }
    ensures read { (a b : List ℕ) (s t : Statement)
        → statement_of a ≡ Ok s → statement_of b ≡ Ok t
        → (unplaced_statement s ≡ unplaced_statement t) ↔ (statement_text s ≡ statement_text t) }
    ensures noted { (i j : ℕ) (s t : Statement)
        → IsWrittenStatement i s → IsWrittenStatement j t
        → (unplaced_statement s ≡ unplaced_statement t)
        ↔ (unplaced (statement_marks s) ≡ unplaced (statement_marks t)) }
{}
