//! Statements whose meaning is worked out by hand. They compute nothing.

ghost use Rattle.std.specs.Prelude.{◌≡◌, ℤ, pos, neg_ℤ, true, false, [], ◌∷◌, Some, None, codes};
ghost use Rattle.tt_value.specs.declared.value.Value.TheVariants.{Null, Int, Text};
ghost use Rattle.tt_value.specs.declared.predicate.Truth.TheVariants.{True, False, Unknown};
ghost use Rattle.tt_value.specs.trees.Truths.{and_truth, or_truth, not_truth};
ghost use Rattle.tt_value.specs.trees.Predicates.{begins, truth_of};
ghost use Rattle.std.specs.Prelude.{◌-ℤ◌};
ghost use Rattle.tt_value.specs.trees.Expressions.{on_numbers, negated, in_range};
ghost use Rattle.tt_sql.specs.declared.query.Item.TheVariants as item;
ghost use Rattle.tt_sql.specs.meaning.Queries.{item_value, answer_of};
ghost use Rattle.tt_sql.specs.meaning.Changes.{Changes, NullInRow, update_change, delete_change, insert_change};
ghost use Rattle.tt_sql.specs.meaning.Examples.{scope, row_of, x_row, d_row, s_row, null_row, pair_row, ints, just_ints, x, d, s, int, null, text, x_plus, count_all, count_all_by_x, all_rows, all_rows_descending, first_rows, no_row_of_sums, answer, set_x, exchange, delete_all, insert_s_and_x, schema, strict, numbers, is_in, is_between, negation, of_x, one_or_two_with_s, equal_truth, x_in_truth, x_between_truth, x_truth};

/// NULL in comparisons, IN, BETWEEN, AND, OR and NOT; dates in quotes.
#[tactic(auto, unfolding(tt_value::specs::values::Order::value_cmp, tt_value::specs::calendar::Reading::day_of))]
pub fn predicates_by_example()
    // 1 = NULL, NULL = NULL
    ensures null_is_unknown { equal_truth (x_row 1) x null ≡ Unknown }
    ensures two_nulls { equal_truth null_row x null ≡ Unknown }
    // FALSE AND NULL, TRUE OR NULL, NOT NULL
    ensures false_and_null { and_truth False Unknown ≡ False }
    ensures null_and_true { and_truth Unknown True ≡ Unknown }
    ensures true_or_null { or_truth True Unknown ≡ True }
    ensures null_or_false { or_truth Unknown False ≡ Unknown }
    ensures not_null { not_truth Unknown ≡ Unknown }
    // 1 IN (2, NULL), 1 IN (1, NULL)
    ensures in_with_null { x_in_truth 1 (int 2 ∷ null ∷ []) ≡ Unknown }
    ensures in_with_null_found { x_in_truth 1 (int 1 ∷ null ∷ []) ≡ True }
    // 1 BETWEEN 2 AND NULL is false, and 1 BETWEEN 0 AND NULL is unknown
    ensures between_false { x_between_truth 1 (int 2) null ≡ False }
    ensures between_unknown { x_between_truth 1 (int 0) null ≡ Unknown }
    // 1970-01-02 = '1970-01-02' beside a DATE
    ensures date_in_quotes { equal_truth (d_row 1) d (text (codes "1970-01-02")) ≡ True }
    // 'abc' begins with 'ab'
    ensures begins_with { begins (Text (codes "abc")) (codes "ab") ≡ True }
    ensures null_begins { begins Null (codes "ab") ≡ Unknown }
{}

/// Sums, counts, groups, the order and the limit of an answer.
#[tactic(auto, unfolding(tt_value::specs::values::Order::value_cmp, tt_value::specs::values::Order::row_cmp, crate::specs::meaning::Queries::answer_of, crate::specs::meaning::Queries::selected_rows, crate::specs::meaning::Queries::arranged))]
pub fn answers_by_example()
    // COUNT(*) of two rows, COUNT of a column with one NULL, SUM over nothing, MIN of texts
    ensures count_all { item_value scope (ints (1 ∷ 2 ∷ [])) (item.CountAll 0)
        ≡ Some (Int (pos 2)) }
    ensures count_skips_null { item_value scope (null_row ∷ x_row 3 ∷ []) (item.Count 0 x)
        ≡ Some (Int (pos 1)) }
    ensures sum_of_nothing { item_value scope [] (item.Sum 0 x) ≡ Some Null }
    ensures sum_out_of_range { item_value scope (ints (9223372036854775807 ∷ 1 ∷ []))
        (item.Sum 0 x) ≡ None }
    ensures least_text { item_value scope
        (s_row (codes "b") ∷ s_row (codes "a") ∷ null_row ∷ []) (item.Min 0 s) ≡ Some (Text (codes "a")) }
    // SELECT COUNT(*) over no rows, with and without GROUP BY
    ensures count_of_none { answer count_all [] ≡ Some (just_ints (0 ∷ [])) }
    ensures no_groups { answer count_all_by_x [] ≡ Some [] }
    // GROUP BY takes NULLs as one group
    ensures null_group { answer count_all_by_x (null_row ∷ x_row 1 ∷ null_row ∷ [])
        ≡ Some (just_ints (1 ∷ 2 ∷ [])) }
    // ascending without ORDER BY; DESC has NULL first; LIMIT keeps the first
    ensures ascending { answer all_rows (ints (2 ∷ 1 ∷ 2 ∷ []))
        ≡ Some (ints (1 ∷ 2 ∷ 2 ∷ [])) }
    ensures descending { answer all_rows_descending (x_row 1 ∷ null_row ∷ [])
        ≡ Some (null_row ∷ x_row 1 ∷ []) }
    ensures limit { answer (first_rows 1) (ints (2 ∷ 1 ∷ [])) ≡ Some (ints (1 ∷ [])) }
    ensures limit_zero { answer (first_rows 0) (ints (2 ∷ 1 ∷ [])) ≡ Some [] }
{}

/// Arithmetic: NULL, and what leaves 64 bits.
pub fn numbers_by_example()
    ensures null_sum { on_numbers (λ a b. a -ℤ b) Null (Int (pos 1)) ≡ Some Null }
    ensures most { in_range (pos 9223372036854775807) ≡ Some (Int (pos 9223372036854775807)) }
    ensures too_much { in_range (pos 9223372036854775808) ≡ None }
    ensures least { in_range (neg_ℤ (pos 9223372036854775808))
        ≡ Some (Int (neg_ℤ (pos 9223372036854775808))) }
    ensures too_little { in_range (neg_ℤ (pos 9223372036854775809)) ≡ None }
    ensures least_negated { negated (Int (neg_ℤ (pos 9223372036854775808))) ≡ None }
{}

/// A sum out of range in a row that the limit cuts off, two rows alike that are changed, and SETs that read the old row.
#[tactic(auto, using(crate::proofs::meaning::Examples::value_of_sum, crate::proofs::meaning::Examples::value_of_column), unfolding(tt_value::specs::values::Order::value_cmp, tt_value::specs::values::Order::row_cmp, crate::specs::meaning::Queries::answer_of, crate::specs::meaning::Queries::selected_rows, crate::specs::meaning::Queries::arranged))]
pub fn changes_by_example()
    // SELECT x + 1 FROM t LIMIT 0 over the greatest number
    ensures limit_hides_nothing { answer no_row_of_sums (ints (9223372036854775807 ∷ []))
        ≡ None }
    // UPDATE t SET x = x + 10 over 1, 1
    ensures update_copies { update_change schema (ints (1 ∷ 1 ∷ [])) (set_x (x_plus (int 10)))
        ≡ Changes (ints (1 ∷ 1 ∷ [])) (ints (11 ∷ 11 ∷ [])) 2 }
    // UPDATE t SET x = y, y = x exchanges, since both read the old row
    ensures exchange { update_change numbers (pair_row 1 2 ∷ []) exchange
        ≡ Changes (pair_row 1 2 ∷ []) (pair_row 2 1 ∷ []) 1 }
    // UPDATE t SET x = x + NULL where x is NOT NULL
    ensures null_in_row { update_change strict (ints (1 ∷ [])) (set_x (x_plus null))
        ≡ NullInRow 1 }
    // DELETE FROM t
    ensures delete_all { delete_change schema (ints (1 ∷ 1 ∷ [])) delete_all
        ≡ Changes (ints (1 ∷ 1 ∷ [])) [] 2 }
    // INSERT INTO t (S, X) VALUES ('a', 1)
    ensures listed_columns { insert_change schema [] [] insert_s_and_x
        ≡ Changes [] (row_of (Int (pos 1)) Null (Text (codes "a")) ∷ []) 1 }
{}

/// Whole predicates: AND binds tighter than OR, and NOT of what is unknown is unknown.
pub fn whole_predicates_by_example()
    // x = 1 OR x = 2 AND s IS NOT NULL, on 2 and on 1
    ensures and_before_or { truth_of scope (x_row 2) one_or_two_with_s ≡ False }
    ensures first_of_or { truth_of scope (x_row 1) one_or_two_with_s ≡ True }
    // NOT x IN (2, NULL), on 1
    ensures not_in_with_null { x_truth 1 (negation (is_in of_x false (int 2 ∷ null ∷ [])))
        ≡ Unknown }
    // x NOT IN (1, NULL), on 1
    ensures in_and_negated { x_truth 1 (is_in of_x true (int 1 ∷ null ∷ [])) ≡ False }
    // x NOT BETWEEN NULL AND 0, on 1
    ensures not_between { x_truth 1 (is_between of_x true null (int 0)) ≡ True }
{}
