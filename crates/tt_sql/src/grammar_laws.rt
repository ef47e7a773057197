//! Laws of the grammar of statements. They compute nothing.

ghost use Rattle.std.specs.Prelude.{◌≡◌, ℕ, List, [], ◌∷◌, ◌++◌, length, map, codes, replicate, Ok, Err};
ghost use Rattle.tt_lex.specs.declared.Token.{Token};
ghost use Rattle.std.specs.Prelude.{pos, neg_ℤ};
ghost use Rattle.tt_sql.specs.grammar.Grammar.{Lexeme, Mark, Way, At, Said, Meant};
ghost use Rattle.tt_sql.specs.grammar.Examples.{tokens, ways, from_t, column_item, number_item, equals, deep, Notes, Faults};
ghost use Rattle.tt_sql.specs.grammar.Lexemes.{AreKinds};
ghost use Rattle.tt_sql.specs.grammar.Statements.{IsStatement, HasFaultAt};
ghost use Rattle.tt_sql.specs.machine.Reading.{read_run};
ghost use Rattle.tt_sql.specs.grammar.TokenKinds.{kind_count, lexemes, word_kind, number_kind, text_kind, sign_kind, unquoted, reserved_words, other_words, signs, NAME, LONG_NAME, SHORT_NUMBER, NUMBER, LEAST_NUMBER, LARGE_NUMBER, DATE_TEXT, TIME_TEXT, UNIT_TEXT, NAME_TEXT, OTHER_TEXT};
ghost use Rattle.tt_lex.specs.Lexis.{Quoted, spelling};
ghost use Rattle.tt_sql.specs.grammar.KindExamples.{words_in_order, signs_in_order, later_words};

/// A machine that looks at one token at a time reads just the statements of the grammar as it is written, with
/// at most so many open levels. Where the tokens are none it stops at the place of their fault.
pub fn statements_are_read_exactly()
    ensures found { (levels end : ℕ) (ts : List Lexeme) (m : List Mark)
        → read_run levels end ts ≡ Ok m → IsStatement levels m ts }
    ensures only { (levels end : ℕ) (ts : List Lexeme) (m : List Mark)
        → AreKinds kind_count ts → IsStatement levels m ts → read_run levels end ts ≡ Ok m }
    ensures place { (levels end : ℕ) (ts : List Lexeme) (at : ℕ)
        → AreKinds kind_count ts → read_run levels end ts ≡ Err at → HasFaultAt levels end ts at }
    ensures only_place { (levels end : ℕ) (ts : List Lexeme) (at : ℕ)
        → AreKinds kind_count ts → HasFaultAt levels end ts at → read_run levels end ts ≡ Err at }
{}

/// Tokens are a statement in one way, or have one fault, and never both. The tokens of a text are of the kinds
/// that the grammar knows.
pub fn tokens_have_one_reading()
    ensures derivation { (levels : ℕ) (ts : List Lexeme) (m n : List Mark)
        → AreKinds kind_count ts → IsStatement levels m ts → IsStatement levels n ts → m ≡ n }
    ensures fault { (levels end : ℕ) (ts : List Lexeme) (a b : ℕ)
        → HasFaultAt levels end ts a → HasFaultAt levels end ts b → a ≡ b }
    ensures not_both { (levels end : ℕ) (ts : List Lexeme) (m : List Mark) (at : ℕ)
        → HasFaultAt levels end ts at → ¬ (IsStatement levels m ts) }
    ensures known { (text : List ℕ) (tokens : List Token)
        → AreKinds kind_count (lexemes text tokens) }
    ensures meant { (text : List ℕ) → unquoted (spelling (Quoted text)) ≡ text }
{}

/// The kinds of the words and signs are those that are named after them.
#[tactic(auto, unfolding(crate::specs::grammar::TokenKinds::word_kind, crate::specs::grammar::TokenKinds::sign_kind))]
pub fn kinds_are_of_their_words()
    ensures words { map word_kind (reserved_words ++ other_words) ≡ words_in_order }
    ensures signs { map sign_kind signs ≡ signs_in_order }
    ensures unequal { sign_kind (codes "!=") ≡ sign_kind (codes "<>") }
    ensures later { map word_kind later_words ≡ replicate (length later_words) NAME }
    // 64 and 65 bytes of a name
    ensures name { word_kind (replicate 64 65) ≡ NAME }
    ensures long_name { word_kind (replicate 65 65) ≡ LONG_NAME }
{}

/// The kinds of numbers and of quoted texts at their limits.
#[tactic(auto, unfolding(crate::specs::grammar::TokenKinds::word_kind, crate::specs::grammar::TokenKinds::number_kind, crate::specs::grammar::TokenKinds::text_kind, tt_value::specs::calendar::Reading::day_of, tt_value::specs::calendar::Reading::clock_of, tt_value::specs::calendar::Reading::timestamp_of))]
pub fn kinds_by_example()
    ensures nine_digits { number_kind (codes "999999999") ≡ SHORT_NUMBER }
    ensures ten_digits { number_kind (codes "0000000001") ≡ NUMBER }
    ensures greatest { number_kind (codes "9223372036854775807") ≡ NUMBER }
    ensures least { number_kind (codes "9223372036854775808") ≡ LEAST_NUMBER }
    ensures too_large { number_kind (codes "9223372036854775809") ≡ LARGE_NUMBER }
    ensures leap_day { text_kind (codes "2024-02-29") ≡ DATE_TEXT }
    ensures no_leap_day { text_kind (codes "2023-02-29") ≡ OTHER_TEXT }
    ensures moment { text_kind (codes "2024-02-29T23:59:59.5Z") ≡ TIME_TEXT }
    ensures no_moment { text_kind (codes "2024-02-29 24:00:00") ≡ OTHER_TEXT }
    ensures unit { text_kind (codes "Hours") ≡ UNIT_TEXT }
    ensures quoted_name { text_kind (codes "t_1") ≡ NAME_TEXT }
    ensures quoted_reserved_word { text_kind (codes "select") ≡ OTHER_TEXT }
    ensures nothing { text_kind [] ≡ OTHER_TEXT }
{}

/// Statements and what their derivations note: the places, the names and the ways that were taken.
pub fn statements_by_example()
    ensures star { Notes 256 (tokens (codes "SELECT * FROM t"))
        (At 0 ∷ At 7 ∷ Way 0 ∷ from_t 14) }
    ensures count_all { Notes 256 (tokens (codes "SELECT count ( * ) FROM t"))
        (At 0 ∷ At 7 ∷ Way 4 ∷ Way 0 ∷ Way 1 ∷ from_t 24) }
    ensures count_is_a_name { Notes 256 (tokens (codes "SELECT count FROM t"))
        (At 0 ∷ Said (codes "COUNT") 7 ∷ column_item ++ from_t 18) }
    ensures least_number { Notes 256 (tokens (codes "SELECT - 9223372036854775808 FROM t"))
        (At 0 ∷ Meant (neg_ℤ (pos 9223372036854775808)) 7 ∷ number_item ++ from_t 34) }
    ensures minus_of_a_number_opens_no_level { Notes 0 (tokens (codes "SELECT - 5 FROM t"))
        (At 0 ∷ Meant (neg_ℤ (pos 5)) 7 ∷ number_item ++ from_t 16) }
    ensures temporary_is_a_name { Notes 256 (tokens (codes "DROP TABLE temporary"))
        (Said (codes "TEMPORARY") 11 ∷ Way 7 ∷ []) }
    ensures view_of_storage { Notes 256
        (tokens (codes "SELECT * FROM information_schema . table_storage_metrics"))
        (Way 17 ∷ []) }
    ensures not_and { Notes 256 (tokens (codes "DELETE FROM t WHERE NOT x = 1 AND y = 2"))
        (Said (codes "T") 12 ∷ Way 7
        ∷ equals (codes "X") 24 1 28 ++ Way 1 ∷ equals (codes "Y") 34 2 38
        ++ ways (0 ∷ 0 ∷ 1 ∷ 3 ∷ [])) }
    ensures either { Notes 256 (tokens (codes "DELETE FROM t WHERE x = 1 OR y = 2"))
        (Said (codes "T") 12
        ∷ equals (codes "X") 20 1 24 ++ Way 0 ∷ Way 1 ∷ equals (codes "Y") 29 2 33
        ++ ways (0 ∷ 0 ∷ 1 ∷ 3 ∷ [])) }
    ensures name_before_number { Notes 256
        (tokens (codes "CREATE TABLE t ( x INT ) DATA_RETENTION_TIME_IN_DAYS = 1 CLUSTER BY ( x )"))
        (Way 0 ∷ Way 0 ∷ Said (codes "T") 13 ∷ Said (codes "X") 17 ∷ Way 0 ∷ Way 0 ∷ Way 0
        ∷ Said (codes "X") 70 ∷ Way 1 ∷ Meant (pos 1) 55 ∷ Way 1 ∷ Way 5 ∷ []) }
{}

/// Faults and their places.
pub fn faults_by_example()
    ensures cut { Faults 256 (tokens (codes "SELECT *")) 8 8 }
    ensures misspelt { Faults 256 (tokens (codes "SELECT * FORM t")) 15 9 }
    ensures reserved_word { Faults 256 (tokens (codes "SELECT * FROM order")) 19 14 }
    ensures too_large { Faults 256 (tokens (codes "SELECT 9223372036854775808 FROM t")) 33 7 }
    ensures level_too_many { Faults 1 (tokens (codes "SELECT ( ( x ) ) FROM t")) 23 9 }
    ensures minus_too_many { Faults 0 (tokens (codes "SELECT - x FROM t")) 17 7 }
    ensures minus_before_no_factor { Faults 0 (tokens (codes "SELECT - FROM t")) 15 9 }
    ensures negation_too_many { Faults 1
        (tokens (codes "DELETE FROM t WHERE NOT NOT x = 1")) 33 24 }
    ensures option_twice { Faults 256
        (tokens (codes "CREATE TABLE t ( x INT ) CLUSTER BY ( x ) CLUSTER BY ( x )")) 58 42 }
    ensures wrong_unit { Faults 256 (tokens (codes "CALL SYSTEM$WAIT ( 3 , 'weeks' )")) 32 23 }
    ensures no_such_day { Faults 256
        (tokens (codes "DELETE FROM t WHERE x = DATE '2023-02-29'")) 41 29 }
    ensures no_temporary_table { Faults 256
        (tokens (codes "CREATE TEMPORARY TABLE t ( x INT )")) 34 7 }
    ensures no_table_in_front { Faults 256 (tokens (codes "SELECT t . x FROM t")) 19 9 }
    ensures no_schema_in_front { Faults 256 (tokens (codes "DROP TABLE s . t")) 16 13 }
    ensures more_behind { Faults 256 (tokens (codes "COMMIT WORK WORK")) 16 12 }
    // SELECT * FROM t WHERE with 256 and with 257 opening brackets behind it
    ensures levels_left { Faults 256 (deep 256) 533 533 }
    ensures levels_passed { Faults 256 (deep 257) 535 534 }
{}
