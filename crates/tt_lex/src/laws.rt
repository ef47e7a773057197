//! Laws of the tokens of a text. They compute nothing.

ghost use Rattle.std.specs.Prelude.{ℕ, List, length, All};
ghost use Rattle.tt_lex.specs.Lexis.{HasTokens, HasFault, AreInOrder, IsBetweenCharacters, IsSpelled};
ghost use Rattle.tt_lex.specs.Laws.{TokensAre, TokensInUtf8Are, HasAnswer, HasNotBoth, HoldsOfOne, IsOkExactly, IsErrExactly};
ghost use Rattle.tt_lex.specs.TokensOf.{tokens_of};

/// The tokens of a text stand in it in order and between its characters, and the bytes of each are a word, a
/// number, a quoted text or a sign, as its kind says.
pub fn tokens_stand_in_their_text()
    ensures order { TokensAre (λ text tokens. AreInOrder 0 (length text) tokens) }
    ensures characters { TokensInUtf8Are (λ text tokens. All (IsBetweenCharacters text) tokens) }
    ensures spelled { TokensAre (λ text tokens. All (IsSpelled text) tokens) }
{}

/// A text has one list of tokens, or one first fault, and never both.
pub fn a_text_has_one_answer()
    ensures some { (text : List ℕ) → HasAnswer text }
    ensures tokens { (text : List ℕ) → HoldsOfOne (HasTokens text) }
    ensures fault { (text : List ℕ) → HoldsOfOne (HasFault text) }
    ensures not_both { (text : List ℕ) → HasNotBoth text }
{}

/// The function that contracts cite gives exactly this answer.
pub fn tokens_of_a_text()
    ensures tokens { (text : List ℕ) → IsOkExactly (tokens_of text) (HasTokens text) }
    ensures fault { (text : List ℕ) → IsErrExactly (tokens_of text) (HasFault text) }
{}
