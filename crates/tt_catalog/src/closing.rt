//! What is kept of a statement that was open, once it has ended.

ghost use Rattle.std.specs.Prelude.{◌≡◌};
ghost use Rattle.tt_state.specs.Kept.{kept_of};
ghost use Rattle.tt_state.specs.Moves.{IsReady};
ghost use Rattle.tt_catalog.specs.Ends.{pins_without, with_answered, with_given_up, with_released, with_unpinned};

use tt_plain::tally::TallyPin;
use tt_script::Program;
use tt_state::State;

// The pins of all other sessions.
fn without_session(pins: &mut Vec<TallyPin>, session: u32)
    ensures { pins.new.items ≡ pins_without session pins.old.items }
{
    pins.retain(|pin| pin.session != session);
}

// The session's open statement reads no part any more.
fn unpin(state: &mut State, session: u32)
    ensures { kept_of state.new ≡ with_unpinned (kept_of state.old) session }
{
    without_session(&mut state.pins, session);
}

// All marks of the session end: outside a transaction they are those of its open statement.
fn release(state: &mut State, session: u32)
    ensures { kept_of state.new ≡ with_released (kept_of state.old) session }
{
    state.marks.release(session);
}

/// The session's open query has ended, at the next moment.
pub fn close_query(state: &mut State, program: &Program, session: u32, index: u32)
    requires { IsReady program.now (kept_of state.old) session index }
    ensures { kept_of state.new ≡ with_answered program.now (kept_of state.old) session index }
{
    unpin(state, session);
    state.end_statement(program, session, index);
}

/// The session's open statement is given up, at the next moment.
pub fn give_up(state: &mut State, program: &Program, session: u32, index: u32)
    requires { IsReady program.now (kept_of state.old) session index }
    ensures { kept_of state.new ≡ with_given_up program.now (kept_of state.old) session index }
{
    release(state, session);
    close_query(state, program, session, index);
}
