ghost use Rattle.std.specs.Prelude.{◌≡◌, ℕ, List, None, Some, IfErr, IfOk};
ghost use Rattle.caption_streams.specs.Verifications.{BeginsVerifying, verifier_of};
ghost use Rattle.caption_streams.specs.declared.verifying.Verifying.{Verifying as VerifyingOf};
ghost use Rattle.caption_streams.specs.Verifiers.{HasVerified};
ghost use Rattle.ccsuite_c.specs.Codes.{closed_code};
ghost use Rattle.ccsuite_c.specs.Handles.{HasNoVerifier, state_in};
ghost use Rattle.ccsuite_c.specs.States.{IsNoVerifier, WasFed};
ghost use Rattle.ccsuite_c.specs.Told.{read_so};
ghost use Rattle.ccsuite_c.specs.Verifiers.{OpenedVerifier, RefusesList, VerdictAnswer, VerifiesAnswer};
ghost use Rattle.ccsuite_c.specs.declared.state.State.TheVariants as held;

use crate::handle::Handle;
use crate::state::State;
use crate::told::{CLOSED, FOUND, FedBytes, NOTHING, tell};
use caption_streams::Verifying;
use command_base::Status;
use reported_runs::{Report, report_of};
use std::alloc::Global;

/// Opens a verifier against a cue list, which was fed nothing; what the handle held before is freed. A list that is refused leaves it
/// closed.
#[unsafe(no_mangle)]
pub extern "C" fn ccsuite_verifier_open(
    alloc: Global,
    list: &[u8],
    verifier: &mut Handle,
    report: &mut Report,
) -> u32
    ensures opened { OpenedVerifier list.now (state_in verifier.new) report.new }
    ensures status { result ≡ report.new.status }
{
    let _ = verifier.take(alloc);
    match open(alloc, list) {
        Ok(verifying) => {
            *verifier = Handle::of(verifying);
            *report = report_of(Status::Ok, 0);
        }
        Err(status) => *report = report_of(status, 0),
    }
    report.status
}

// The verifier against a list, which was fed nothing.
fn open(alloc: Global, list: &[u8]) -> Result<Box<State>, Status>
    ensures begins { IfOk result (λ state. (v : VerifyingOf)
        × (state.value ≡ held.Verifying v) × BeginsVerifying list.now v) }
    ensures fed { IfOk result (λ state. WasFed state.value) }
    ensures refused { IfErr result (RefusesList list.now) }
{
    let verifying = Verifying::read(alloc, list)?;
    match Box::new(alloc, State::Verifying(verifying)) {
        Ok(state) => Ok(state),
        Err(_) => Err(Status::Memory),
    }
}

/// Feeds words, up to the end of an ancillary packet: 0, and 9 where something was found at a frame that ended in them; the verdict tells
/// what. Where nothing is read: 32 where there is no open verifier, 9 where something was found before, 6 where a word is refused, and from
/// then on, 34 where 4,294,967,295 frames have ended.
#[unsafe(no_mangle)]
pub extern "C" fn ccsuite_verifier_feed(
    alloc: Global,
    verifier: &mut Handle,
    words: &[u8],
    fed: &mut FedBytes,
) -> u32
    ensures verifies { (v : VerifyingOf) (before : List ℕ)
        → state_in verifier.old ≡ Some (held.Verifying v)
        → HasVerified before (verifier_of v)
        → VerifiesAnswer before words.now v result fed.new (state_in verifier.new) }
    ensures closed { HasNoVerifier (state_in verifier.old)
        → (result ≡ closed_code) × (fed.new ≡ read_so 0 0)
        × (state_in verifier.new ≡ state_in verifier.old) }
{
    match verifier.take(alloc) {
        None => {
            *fed = NOTHING;
            CLOSED
        }
        Some(mut state) => {
            let code = feed(&mut state, words, fed);
            *verifier = Handle::of(state);
            code
        }
    }
}

fn feed(state: &mut State, words: &[u8], fed: &mut FedBytes) -> u32
    requires { WasFed state.old }
    ensures verifies { (v : VerifyingOf) (before : List ℕ) → state.old ≡ held.Verifying v
        → HasVerified before (verifier_of v)
        → VerifiesAnswer before words.now v result fed.new (Some state.new) }
    ensures closed { IsNoVerifier state.old
        → (result ≡ closed_code) × (fed.new ≡ read_so 0 0) × (state.new ≡ state.old) }
    ensures on { WasFed state.new }
{
    match state {
        State::Verifying(verifying) => feed_on(verifying, words, fed),
        _ => {
            *fed = NOTHING;
            CLOSED
        }
    }
}

fn feed_on(verifying: &mut Verifying, words: &[u8], fed: &mut FedBytes) -> u32
    requires { (before : List ℕ) × HasVerified before (verifier_of verifying.old) }
    ensures verifies { (before : List ℕ) → HasVerified before (verifier_of verifying.old)
        → VerifiesAnswer before words.now verifying.old result fed.new
        (Some (held.Verifying verifying.new)) }
    ensures on { (after : List ℕ) × HasVerified after (verifier_of verifying.new) }
{
    let code = tell(verifying.feed(words), fed);
    if code == 0 && verifying.finding().is_some() {
        FOUND
    } else {
        code
    }
}

/// Reports on the words that were fed, if they end here: Differs with the first finding, where there is one; else Malformed with the first
/// offending word, or where they may not end. Else it reports Short, where there are fewer frames than the list has, or Ok. 32 where there
/// is no open verifier, and then nothing is reported.
#[unsafe(no_mangle)]
pub extern "C" fn ccsuite_verifier_verdict(
    alloc: Global,
    verifier: &mut Handle,
    report: &mut Report,
) -> u32
    ensures verdict { (v : VerifyingOf) (bytes : List ℕ)
        → state_in verifier.old ≡ Some (held.Verifying v)
        → HasVerified bytes (verifier_of v)
        → VerdictAnswer bytes v result report.new }
    ensures closed { HasNoVerifier (state_in verifier.old)
        → (result ≡ closed_code) × (report.new ≡ report.old) }
    ensures kept { state_in verifier.new ≡ state_in verifier.old }
{
    match verifier.take(alloc) {
        None => CLOSED,
        Some(state) => {
            let code = verdict(&state, report);
            *verifier = Handle::of(state);
            code
        }
    }
}

fn verdict(state: &State, report: &mut Report) -> u32
    ensures verdict { (v : VerifyingOf) (bytes : List ℕ) → state.now ≡ held.Verifying v
        → HasVerified bytes (verifier_of v)
        → VerdictAnswer bytes v result report.new }
    ensures closed { IsNoVerifier state.now
        → (result ≡ closed_code) × (report.new ≡ report.old) }
{
    match state.verifying() {
        Some(verifying) => {
            *report = report_of(verifying.verdict(), 0);
            report.status
        }
        None => CLOSED,
    }
}

/// Closes a verifier, and frees what it holds; a closed one, and one of another kind, stays as it is.
#[unsafe(no_mangle)]
pub extern "C" fn ccsuite_verifier_close(alloc: Global, verifier: &mut Handle)
    ensures closed { (v : VerifyingOf) → state_in verifier.old ≡ Some (held.Verifying v)
        → state_in verifier.new ≡ None }
    ensures other { HasNoVerifier (state_in verifier.old)
        → state_in verifier.new ≡ state_in verifier.old }
{
    if let Some(state) = verifier.take(alloc) {
        if state.verifying().is_none() {
            *verifier = Handle::of(state);
        }
    }
}
