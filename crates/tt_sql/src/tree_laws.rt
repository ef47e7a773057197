//! A tree is determined by the marks of its derivation. These laws compute nothing.

ghost use Rattle.std.specs.Prelude.{◌≡◌, ℕ};
ghost use Rattle.std.specs.Prelude.{Some, Ok, Err, List, length, ◌++◌, ◌↔◌, ◌⊎◌};
ghost use Rattle.tt_lex.specs.declared.Token.{Token};
ghost use Rattle.tt_lex.specs.declared.LexFault.{LexFault};
ghost use Rattle.tt_lex.specs.TokensOf.{tokens_of};
ghost use Rattle.tt_sql.specs.grammar.Statements.{IsStatement, HasFaultAt};
ghost use Rattle.tt_sql.specs.grammar.TokenKinds.{lexemes};
ghost use Rattle.tt_sql.specs.text.StatementOf.{most_levels, fault_place, IsTextOf, HasSyntaxFault, statement_of};
ghost use Rattle.tt_sql.specs.grammar.Grammar.{Mark, Lexeme};
ghost use Rattle.tt_sql.specs.grammar.Lexemes.{AreLexemes};
ghost use Rattle.tt_sql.specs.declared.statement.Statement.{Statement};
ghost use Rattle.tt_sql.specs.determined.Statements.{IsGivenStatement};
ghost use Rattle.tt_sql.specs.trees.Statements.{IsWrittenStatement};
ghost use Rattle.tt_sql.specs.marks.Statements.{statement_marks};
ghost use Rattle.tt_sql.specs.machine.StatementTrees.{statement_tree};
ghost use Rattle.tt_sql.specs.declared.query.Query.{Query};
ghost use Rattle.tt_sql.specs.machine.QueryTrees.{marked_query};
ghost use Rattle.tt_sql.specs.marks.Queries.{join_marks, query_marks};
ghost use Rattle.tt_sql.specs.trees.Queries.{IsWrittenQuery};
ghost use Rattle.tt_sql.specs.determined.Marks.{AreToldApartBy, IsAny};
ghost use Rattle.tt_sql.specs.determined.Queries.{IsGivenJoin, IsGivenQuery};
ghost use Rattle.tt_sql.specs.determined.Expressions.{IsGivenExpr, IsGivenTerm, IsGivenFactor, IsGivenPredicate, IsGivenUnit};
ghost use Rattle.tt_sql.specs.marks.Expressions.{column_marks, table_marks, expr_marks, term_marks, factor_marks, predicate_marks, unit_marks};

/// Two expressions are the same if they note the same marks, also with prefixes of names. So are two terms, and
/// two factors.
pub fn expressions_are_determined()
    ensures expression { AreToldApartBy IsGivenExpr expr_marks }
    ensures term { AreToldApartBy IsGivenTerm term_marks }
    ensures factor { AreToldApartBy IsGivenFactor factor_marks }
{}

/// Two predicates are the same if they note the same marks, also with prefixes of names. So are two units.
pub fn predicates_are_determined()
    ensures predicate { AreToldApartBy IsGivenPredicate predicate_marks }
    ensures single { AreToldApartBy IsGivenUnit unit_marks }
{}

/// Two names of columns are the same if they note the same marks, with a table's name in front or without. So are
/// two names of tables.
pub fn names_are_determined()
    ensures column { AreToldApartBy IsAny column_marks }
    ensures table { AreToldApartBy IsAny table_marks }
{}

/// Two queries are the same if they note the same marks, those with further tables too: each is read back from its
/// marks, whatever follows. All that the grammar gives are among them.
pub fn queries_are_determined()
    ensures query { AreToldApartBy IsGivenQuery query_marks }
    ensures join { AreToldApartBy IsGivenJoin join_marks }
    ensures read { (q : Query) (rest : List Mark)
        → IsGivenQuery q → marked_query (query_marks q ++ rest) ≡ Some (q, rest) }
    ensures given { (levels : ℕ) (q : Query) → IsWrittenQuery levels q → IsGivenQuery q }
{}

/// Two statements are the same if they note the same marks: each is read back from its marks. All that the grammar
/// gives are among them, and those with further tables and with prefixes of names.
pub fn statements_are_determined()
    ensures read { (s : Statement)
        → IsGivenStatement s → statement_tree (statement_marks s) ≡ Some s }
    ensures statement { AreToldApartBy IsGivenStatement statement_marks }
{}

/// The statement of a text is the one that its tokens spell, and else the place of the fault in its tokens.
pub fn texts_have_one_statement()
    ensures found { (text : List ℕ) (tokens : List Token) (s : Statement)
        → tokens_of text ≡ Ok tokens → IsGivenStatement s
        → IsStatement most_levels (statement_marks s) (lexemes text tokens)
        → statement_of text ≡ Ok s }
    ensures only { (text : List ℕ) (s : Statement) → statement_of text ≡ Ok s
        → (tokens : List Token) × (tokens_of text ≡ Ok tokens)
        × IsStatement most_levels (statement_marks s) (lexemes text tokens) }
    ensures fault { (text : List ℕ) (tokens : List Token) (at : ℕ)
        → tokens_of text ≡ Ok tokens → HasFaultAt most_levels (length text) (lexemes text tokens) at
        → statement_of text ≡ Err at }
    ensures no_tokens { (text : List ℕ) (fault : LexFault)
        → tokens_of text ≡ Err fault → statement_of text ≡ Err (fault_place fault) }
{}

/// What the derivation of a statement notes are the marks of a tree that the grammar gives: for tokens as a lexer
/// makes them, and so for the tokens of a text.
pub fn each_statement_has_a_tree()
    ensures tokens { (levels : ℕ) (m : List Mark) (ts : List Lexeme)
        → AreLexemes ts → IsStatement levels m ts
        → (s : Statement) × (statement_marks s ≡ m) × IsWrittenStatement levels s }
    ensures given { (levels : ℕ) (s : Statement)
        → IsWrittenStatement levels s → IsGivenStatement s }
    ensures text { (text : List ℕ) (tokens : List Token)
        → tokens_of text ≡ Ok tokens → AreLexemes (lexemes text tokens) }
{}

/// Each text is the text of a statement or has a fault, and `statement_of` says which.
pub fn each_text_has_a_statement_or_a_fault()
    ensures one { (text : List ℕ)
        → ((s : Statement) × IsTextOf text s) ⊎ ((at : ℕ) × HasSyntaxFault text at) }
    ensures statement { (text : List ℕ) (s : Statement)
        → (statement_of text ≡ Ok s) ↔ IsTextOf text s }
    ensures fault { (text : List ℕ) (at : ℕ)
        → (statement_of text ≡ Err at) ↔ HasSyntaxFault text at }
{}
