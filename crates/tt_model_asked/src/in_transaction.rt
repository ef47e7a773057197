//! 19, InTransaction: BEGIN in an open transaction.

ghost use Rattle.std.specs.Prelude.{◌≡◌};
ghost use Rattle.tt_plain.specs.asked.Asked.{state_asked};
ghost use Rattle.tt_plain.specs.refusal.InTransaction.{in_transaction as refused_in_transaction};
ghost use Rattle.tt_model_asked.specs.AskedAs.{asked_in, IsAskedOf};

use crate::asked::Asked;
use tt_history::Refusal;
use tt_sql::Statement;

/// Whether the session has a transaction open.
pub fn is_in_transaction(asked: &Asked<'_>) -> bool
    ensures { result ≡ (state_asked (asked_in asked.now)).transaction }
{
    match asked.store.sessions.get(asked.session as usize) {
        Some(state) => state.transaction,
        None => false,
    }
}

/// Why a BEGIN is refused.
pub fn in_transaction(asked: &Asked<'_>, statement: &Statement) -> Option<Refusal>
    requires { IsAskedOf asked.now statement.now }
    ensures { result ≡ refused_in_transaction (asked_in asked.now) }
{
    let Statement::Begin = statement else {
        return None;
    };
    if is_in_transaction(asked) {
        Some(Refusal::InTransaction)
    } else {
        None
    }
}
