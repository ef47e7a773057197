//! The top call: from the words and the bytes that come in to the bytes that go out.

ghost use Rattle.std.specs.Prelude.{◌≡◌, [], ◌<◌, ◌≤◌, ◌+◌, ◌-◌, ◌^◌, ◌↔◌, ℕ, Ok, Err, Some, take, length, false, IfOk, IfErr, OnOk, IfSome, OnSome, IfNone, IsSome, IsErrOf};
ghost use Rattle.std.specs.Io.KnownBytes.{Appends, IsAtEnd, Keeps};
ghost use Rattle.tt_edge.specs.Outside.{RoseBy, RoseIn};
ghost use Rattle.tt_script.specs.Answers.{Answers};
ghost use Rattle.tt_script.specs.Script.{answer_of};
ghost use Rattle.tt_run.specs.Outcomes.{FormsBags, HasCompleteHistory, HasLegalHistory, IsFinished, IsInOrder, IsTranscript, KeepsRows, Stands, StoresTrueParts, TellsTrueFacts, text_of};
ghost use Rattle.tt_run.specs.Top.{number_of, input_status, rows_wanted, are_right, status_for, IsRightInput, OnBadInput, GaveTooMuch, GaveText, HasGivenText, GaveWhole, IsDueToWhole, LosesWhatItGave, IsDue, IsDueOrMemory, IsScriptOf, IsFaultOf, HasStoreWhereWritten, IfBadInput, IsEarly, IsLate};

use crate::run::{Finished, run_program};
use crate::words::partition_rows;
use std::alloc::Global;
use tt_edge::{Sink, Source, Unread, Unwritten, read_all, write_all};
use tt_script::{BadInput, Program, ReadError, read};
use tt_state::Catalog;

/// The most bytes of an input.
const LONGEST_INPUT: u32 = 67_108_864;

/// How the call went. A place is a byte offset in the input.
#[derive(Clone, Copy, PartialEq, Eq)]
pub enum Status {
    Ok,
    BadWords,
    BadInput(u64),
    ReadFault,
    WriteFault,
    OutOfMemory,
    TooLong,
}

impl Status {
    /// The number with which the program ends.
    pub fn number(self) -> u8
        ensures { result ≡ number_of self }
    {
        match self {
            Status::Ok => 0,
            Status::BadWords => 2,
            Status::BadInput(_) => 3,
            Status::ReadFault => 4,
            Status::WriteFault => 5,
            Status::OutOfMemory => 6,
            Status::TooLong => 7,
        }
    }
}

/// The status, and the store where the run was done and something of it may have been written.
#[derive(Drop)]
pub struct Outcome {
    pub status: Status,
    pub store: Option<Catalog>,
}

// Reads the script. The text of a program is the script.
fn read_script(alloc: Global, bytes: Vec<u8>) -> Result<Program, ReadError>
    requires { length bytes.items < 2 ^ 32 }
    ensures read { Answers (λ program. program) result (answer_of bytes.items) }
    ensures text { IfOk result (λ program. program.text ≡ bytes.items) }
    ensures turns { IfOk result (λ program. program.turns ≡ []) }
{
    read(alloc, bytes)
}

// Reads the input to its end and the script from it.
fn read_program<S: Source>(alloc: Global, source: &mut S) -> Result<Program, Status>
    ensures read { IfOk result (IsScriptOf (S.left source.old)) }
    ensures spelled { IfOk result (λ program. answer_of program.text ≡ Ok program) }
    ensures turns { IfOk result (λ program. program.turns ≡ []) }
    ensures counted { IfOk result (λ program. RoseBy S.given source.old source.new (length program.text)) }
    ensures short { IfOk result (λ program. length program.text < 2 ^ 32) }
    ensures given { IfOk result (λ program. GaveText S.left S.given source.old source.new program.text) }
    ensures whole_ok { OnOk result (GaveWhole S.left S.given source.old source.new Status.Ok) }
    ensures whole { IfErr result (IsDueToWhole S.left S.given source.old source.new) }
    ensures end { OnOk result (IsAtEnd (S.left source.new)) }
    ensures taken { LosesWhatItGave S.left S.given source.old source.new }
    ensures early { IfErr result IsEarly }
    ensures bad_input { IfErr result (OnBadInput (IsAtEnd (S.left source.new))) }
    ensures place { IfErr result (λ status. IfBadInput status (IsFaultOf (S.left source.old))) }
    ensures due { IfSome (S.left source.old) (λ input. IfErr result (IsDue (input_status input))) }
    ensures due_ok { IfSome (S.left source.old) (λ input. OnOk result (IsRightInput input)) }
    ensures too_long { IsErrOf result Status.TooLong ↔ GaveTooMuch S.given source.old source.new }
    ensures failed { IsErrOf result Status.ReadFault → RoseIn S.faults source.old source.new }
{
    let bytes = match read_all(alloc, source, LONGEST_INPUT) {
        Ok(bytes) => bytes,
        Err(Unread::Failed) => return Err(Status::ReadFault),
        Err(Unread::TooLong) => return Err(Status::TooLong),
        Err(Unread::Memory) => return Err(Status::OutOfMemory),
    };
    match read_script(alloc, bytes) {
        Ok(program) => Ok(program),
        Err(ReadError::Bad(BadInput { place })) => Err(Status::BadInput(place)),
        Err(ReadError::Memory) => Err(Status::OutOfMemory),
    }
}

// Writes the transcript, and says how far it came.
fn finish<K: Sink>(sink: &mut K, finished: Finished) -> Outcome
    ensures kept { IfSome result.store (λ store. store ≡ finished.store) }
    ensures whole { result.status ≡ Status.Ok
        → Appends (K.holds sink.old) (K.holds sink.new) finished.text.items }
    ensures whole_counted { result.status ≡ Status.Ok
        → K.received sink.new ≡ K.received sink.old + length finished.text.items }
    ensures prefix { OnSome result.store ((written : ℕ)
        × (written ≤ length finished.text.items)
        × Appends (K.holds sink.old) (K.holds sink.new) (take written finished.text.items)
        × (K.received sink.new ≡ K.received sink.old + written)) }
    ensures nothing { IfNone result.store (K.received sink.new ≡ K.received sink.old) }
    ensures untouched { IfNone result.store (Keeps (K.holds sink.old) (K.holds sink.new)) }
    ensures ok { result.status ≡ Status.Ok → IsSome result.store }
    ensures fault { result.status ≡ Status.WriteFault → IsSome result.store }
    ensures memory { HasStoreWhereWritten result (K.received sink.old) (K.received sink.new) }
    ensures failed { result.status ≡ Status.WriteFault → RoseIn K.faults sink.old sink.new }
    ensures late { IsLate result.status }
{
    let Finished { store, text } = finished;
    let Err(unfinished) = write_all(sink, text.as_slice()) else {
        return Outcome {
            status: Status::Ok,
            store: Some(store),
        };
    };
    match unfinished.why {
        Unwritten::Failed => Outcome {
            status: Status::WriteFault,
            store: Some(store),
        },
        Unwritten::Memory => Outcome {
            status: Status::OutOfMemory,
            store: (unfinished.written > 0).then_some(store),
        },
    }
}

/// Serves `replay`: reads a script, runs its sessions one after the other and writes the transcript.
/// Nothing is written before the run is done.
pub fn top_alone<S: Source, K: Sink>(
    alloc: Global,
    words: &[String],
    source: &mut S,
    sink: &mut K,
) -> Outcome
    // The returned store's history is legal and complete for the program that it keeps, and it stands for it.
    ensures legal { IfSome result.store HasLegalHistory }
    ensures complete { IfSome result.store HasCompleteHistory }
    ensures serial_order { IfSome result.store IsInOrder }
    ensures stands { IfSome result.store Stands }
    ensures true_facts { IfSome result.store TellsTrueFacts }
    ensures true_parts { IfSome result.store StoresTrueParts }
    ensures bags { IfSome result.store FormsBags }
    ensures kept_rows { IfSome result.store KeepsRows }
    ensures cap { IfSome result.store (λ store. rows_wanted words.now ≡ Some store.cap) }

    // The bytes written are the transcript, or a prefix of it where writing failed.
    ensures transcript { result.status ≡ Status.Ok → IfSome result.store (λ store.
        Appends (K.holds sink.old) (K.holds sink.new) (text_of store)) }
    ensures counted { result.status ≡ Status.Ok → IfSome result.store (λ store.
        K.received sink.new ≡ K.received sink.old + length (text_of store)) }
    ensures prefix { IfSome result.store (λ store. (written : ℕ)
        × (written ≤ length (text_of store))
        × Appends (K.holds sink.old) (K.holds sink.new) (take written (text_of store))
        × (K.received sink.new ≡ K.received sink.old + written)) }
    ensures nothing { IfNone result.store (K.received sink.new ≡ K.received sink.old) }
    ensures untouched { IfNone result.store (Keeps (K.holds sink.old) (K.holds sink.new)) }

    // The program is what the grammar reads from all that the source gave, to its end. Where the source tells
    // its bytes, these are they; else there are as many.
    ensures spelled { IfSome result.store (λ store. answer_of store.program.text ≡ Ok store.program) }
    ensures read { IfSome result.store (λ store. IsScriptOf (S.left source.old) store.program) }
    ensures given { IfSome result.store (HasGivenText S.left S.given source.old source.new) }
    ensures end { OnSome result.store (IsAtEnd (S.left source.new)) }
    ensures taken { LosesWhatItGave S.left S.given source.old source.new }

    // When there is a store.
    ensures ok { result.status ≡ Status.Ok → IsSome result.store }
    ensures fault { result.status ≡ Status.WriteFault → IsSome result.store }
    ensures memory { HasStoreWhereWritten result (K.received sink.old) (K.received sink.new) }
    ensures late { OnSome result.store (IsLate result.status) }

    // Each status by its cause.
    ensures words { (result.status ≡ Status.BadWords) ↔ (are_right words.now ≡ false) }
    ensures read_fault { result.status ≡ Status.ReadFault → RoseIn S.faults source.old source.new }
    ensures too_long { (result.status ≡ Status.TooLong) ↔ GaveTooMuch S.given source.old source.new }
    ensures bad_input { IfBadInput result.status (λ place. IsAtEnd (S.left source.new)
        × IsFaultOf (S.left source.old) place) }
    ensures whole { IsDueToWhole S.left S.given source.old source.new result.status }
    ensures write_fault { result.status ≡ Status.WriteFault → RoseIn K.faults sink.old sink.new }

    // Where the source tells its bytes, the words and the bytes say which status is due. Faults and want of
    // memory alone may stand in its place, and where no count of faults rose, want of memory alone.
    ensures due { IfSome (S.left source.old) (λ input. IsDue (status_for words.now input) result.status) }
    ensures answered { IfSome (S.left source.old) (λ input.
        (RoseIn S.faults source.old source.new → ⊥) → (RoseIn K.faults sink.old sink.new → ⊥)
        → IsDueOrMemory (status_for words.now input) result.status) }
{
    let Some(rows) = partition_rows(words) else {
        return Outcome {
            status: Status::BadWords,
            store: None,
        };
    };
    let program = match read_program(alloc, source) {
        Ok(program) => program,
        Err(status) => {
            return Outcome {
                status,
                store: None,
            };
        }
    };
    let Ok(finished) = run_program(alloc, &program, rows) else {
        return Outcome {
            status: Status::OutOfMemory,
            store: None,
        };
    };
    finish(sink, finished)
}
