ghost use Rattle.std.specs.Prelude.{◌≡◌, ◌≤◌, ◌↔◌, ◌⊎◌, ℕ, true, List, [], length, Some, None, IsSome, OnOk, IfOk, IfErr, IfSome};
ghost use Rattle.io_ports.specs.Faults.{Rose};
ghost use Rattle.program_words.specs.declared.Form.{Form as WordForm};
ghost use Rattle.pcitree.specs.Words.{is_of, form_of, misfit};
ghost use Rattle.pcitree.specs.Given.{number_of, given, left, IsGiven, reads_file};
ghost use Rattle.program_status.specs.Subjects.{IsSuccess, IsUsage, IsRefusal, IsBeforeWriting, Serves};
ghost use Rattle.pcitree.specs.Answers.{IsServed, IsServedMachine, Causes};
ghost use Rattle.command_boards.specs.import.Answers.{GivesUp};
ghost use Rattle.pcitree.specs.Ends.{ReadsInput, AnswersInput, RefusesInput, Finishes, StopsInText, WritesRun, writes_run};
ghost use Rattle.pcitree.specs.Stops.{StopsAnswering, StopsServing, StopsRunning};
ghost use Rattle.program_words.specs.Shapes.{parts_of};

use crate::answering::{answer, answer_owned};
use crate::words::{form_of, misfit, number_of};
use command_runs::{
    Gate, finished_traces_are_complete, written_devices_are_complete, written_runs_are_complete,
};
use io_ports::{ReadError, Sink, Source, read_all, write_all};
use program_status::{Answered, Status};
use program_words::{Called, Form};
use std::alloc::Global;
use std::thread::Threads;

/// Does what the words say: reads the source to its end, or takes the number among the words in its
/// place, and writes the text that answers it to the sink. The first of these that holds is the
/// answer: `Usage`, `ReadFault`, `TooLong`, a refusal of the input, `WriteFault`; `NoMemory` may come
/// at any moment. `run` works each bus in a thread of its own, and the gate is told of its turns.
pub fn pcitree<R: Threads + Sync, S: Source, K: Sink, G: Gate + Sync>(
    rt: &R,
    alloc: Global,
    words: &Called,
    source: &mut S,
    sink: &mut K,
    gate: &G,
) -> Status
    // Usage, exactly where the words are of no form. Then nothing was read.
    ensures usage { IsUsage result ↔ (form_of words.now ≡ None) }
    ensures misfit { (word : ℕ) → result ≡ Status.Usage word → word ≡ misfit words.now }
    ensures unread { IsUsage result → source.new ≡ source.old }
    // Where a number among the words is the input, the source is not read.
    ensures unasked { (form : WordForm) → form_of words.now ≡ Some form
        → IsSome (number_of form words.now) → source.new ≡ source.old }
    // The faults of the ports.
    ensures read_fault { result ≡ Status.ReadFault
        → Rose (S.faults source.old) (S.faults source.new) }
    ensures write_fault { result ≡ Status.WriteFault
        → Rose (K.faults sink.old) (K.faults sink.new) }
    // Where the answer is a success, no call of a port failed.
    ensures clean { IsSuccess result → (S.faults source.new ≡ S.faults source.old) ×
        (K.faults sink.new ≡ K.faults sink.old) }
    // What the sink has: the whole text with `Done`, with `NotSafe` of `safe`, `DrawnTo` of `draw` and
    // `ToldTo` of `observe --acts`.
    ensures unwritten { IsBeforeWriting result → sink.new ≡ sink.old }
    ensures front { result ≡ Status.WriteFault → IfSome (form_of words.now) (λ form.
        StopsInText form words.now (given form words.now (S.held source.old))
        (left form words.now (S.held source.new)) (K.taken sink.old) (K.taken sink.new)) }
    ensures done { IsSuccess result → IfSome (form_of words.now) (λ form.
        Finishes form words.now (given form words.now (S.held source.old))
        (left form words.now (S.held source.new)) (K.taken sink.old) (K.taken sink.new) result) }
    // What `run`, `finish`, `devices` or `adverse` wrote is a complete run, as `check` wants it.
    ensures checked { (form : WordForm) → result ≡ Status.Done → form_of words.now ≡ Some form
        → writes_run form ≡ true → WritesRun (K.taken sink.old) (K.taken sink.new) }
    ensures refused { IsRefusal result → IfSome (form_of words.now) (λ form.
        RefusesInput form words.now (given form words.now (S.held source.old))
        (left form words.now (S.held source.new)) result) }
    // Where the source tells what it holds, each answer has its cause in that, and an input that is
    // served is answered, unless a port fails or there is no memory.
    ensures cause { (form : WordForm) (input : List ℕ) → form_of words.now ≡ Some form
        → given form words.now (S.held source.old) ≡ Some input
        → Causes form words.now input result }
    ensures served { (form : WordForm) (input : List ℕ) → form_of words.now ≡ Some form
        → given form words.now (S.held source.old) ≡ Some input
        → IsServed form words.now input → Serves result }
    // What `lspci` wrote is answered too, or it is given up (I5).
    ensures served_import { (input : List ℕ)
        → form_of words.now ≡ Some WordForm.Import
        → given WordForm.Import words.now (S.held source.old) ≡ Some input
        → IsServedMachine input → Serves result ⊎ GivesUp input result }
{
    written_runs_are_complete();
    finished_traces_are_complete();
    written_devices_are_complete();
    match run(rt, alloc, words, source, sink, gate) {
        Ok(ending) => ending,
        Err(status) => status,
    }
}

fn run<R: Threads + Sync, S: Source, K: Sink, G: Gate + Sync>(
    rt: &R,
    alloc: Global,
    words: &Called,
    source: &mut S,
    sink: &mut K,
    gate: &G,
) -> Result<Status, Status>
    ensures form { OnOk result (IsSome (form_of words.now)) }
    ensures done { IfOk result (λ ending. IfSome (form_of words.now) (λ form.
        Finishes form words.now (given form words.now (S.held source.old))
        (left form words.now (S.held source.new)) (K.taken sink.old) (K.taken sink.new) ending)) }
    ensures clean { OnOk result ((S.faults source.new ≡ S.faults source.old) ×
        (K.faults sink.new ≡ K.faults sink.old)) }
    ensures misfit { (word : ℕ) → result ≡ Err (Status.Usage word) → word ≡ misfit words.now }
    ensures stopped { IfErr result (StopsRunning S K S.held S.faults K.taken K.faults
        (form_of words.now) words.now source.old source.new sink.old sink.new) }
    ensures unasked { (form : WordForm) → form_of words.now ≡ Some form
        → IsSome (number_of form words.now) → source.new ≡ source.old }
{
    match form_of(words) {
        None => Err(Status::Usage {
            word: misfit(words),
        }),
        Some(form) => serve(rt, alloc, form, words, source, sink, gate),
    }
}

/// Takes the input, from the words or from the source, and writes the text that answers it.
fn serve<R: Threads + Sync, S: Source, K: Sink, G: Gate + Sync>(
    rt: &R,
    alloc: Global,
    form: Form,
    words: &Called,
    source: &mut S,
    sink: &mut K,
    gate: &G,
) -> Result<Status, Status>
    requires { is_of (parts_of form) [] words.now ≡ true }
    ensures done { IfOk result (Finishes form words.now (given form words.now (S.held source.old))
        (left form words.now (S.held source.new)) (K.taken sink.old) (K.taken sink.new)) }
    ensures clean { OnOk result ((S.faults source.new ≡ S.faults source.old) ×
        (K.faults sink.new ≡ K.faults sink.old)) }
    ensures stopped { IfErr result (StopsServing S K S.held S.faults K.taken K.faults
        form words.now (number_of form words.now) source.old source.new sink.old sink.new) }
    ensures unasked { IsSome (number_of form words.now) → source.new ≡ source.old }
{
    let Answered { text, ending } = answer_of(rt, alloc, form, words, source, gate)?;
    match write_all(sink, &text) {
        Ok(()) => Ok(ending),
        Err(_) => Err(Status::WriteFault),
    }
}

/// The text that answers the number among the words, or what the source holds.
fn answer_of<R: Threads + Sync, S: Source, G: Gate + Sync>(
    rt: &R,
    alloc: Global,
    form: Form,
    words: &Called,
    source: &mut S,
    gate: &G,
) -> Result<Answered, Status>
    requires { is_of (parts_of form) [] words.now ≡ true }
    ensures ok { IfOk result (λ answer. AnswersInput form words.now
        (given form words.now (S.held source.old)) (left form words.now (S.held source.new))
        answer.text.items answer.ending) }
    ensures clean { OnOk result (S.faults source.new ≡ S.faults source.old) }
    ensures stopped { IfErr result (StopsAnswering form words.now
        (given form words.now (S.held source.old)) (left form words.now (S.held source.new))
        (S.faults source.old) (S.faults source.new)) }
    ensures unasked { IsSome (number_of form words.now) → source.new ≡ source.old }
{
    match number_of(form, words) {
        Some(number) => answer(rt, alloc, form, words, number.as_bytes(), gate),
        None => read_and_answer(rt, alloc, form, words, source, gate),
    }
}

/// Reads an input, or takes it as the source lends it, and makes the text that answers it.
fn read_and_answer<R: Threads + Sync, S: Source, G: Gate + Sync>(
    rt: &R,
    alloc: Global,
    form: Form,
    words: &Called,
    source: &mut S,
    gate: &G,
) -> Result<Answered, Status>
    requires { reads_file form ≡ true }
    ensures ok { IfOk result (λ answer. AnswersInput form words.now
        (S.held source.old) (S.held source.new) answer.text.items answer.ending) }
    ensures clean { OnOk result (S.faults source.new ≡ S.faults source.old) }
    ensures stopped { IfErr result (StopsAnswering form words.now
        (S.held source.old) (S.held source.new) (S.faults source.old) (S.faults source.new)) }
{
    if let Some(input) = source.lent() {
        if input.len() > form.row().limit {
            return Err(Status::TooLong);
        }
        let answered = answer(rt, alloc, form, words, input, gate);
        source.end();
        return answered;
    }
    let input = read_input(alloc, form, source)?;
    answer_owned(rt, alloc, form, words, input, gate)
}

/// Reads an input to its end.
fn read_input<S: Source>(alloc: Global, form: Form, source: &mut S) -> Result<Vec<u8>, Status>
    ensures ok { IfOk result (λ input.
        ReadsInput form (S.held source.old) (S.held source.new) input.items) }
    ensures clean { OnOk result (S.faults source.new ≡ S.faults source.old) }
    ensures stopped { (words : List (List ℕ)) → IfErr result (StopsAnswering form words
        (S.held source.old) (S.held source.new) (S.faults source.old) (S.faults source.new)) }
{
    match read_all(alloc, source, form.row().limit) {
        Ok(input) => Ok(input),
        Err(ReadError::NoMemory) => Err(Status::NoMemory),
        Err(ReadError::Failed) => Err(Status::ReadFault),
        Err(ReadError::TooLong) => Err(Status::TooLong),
    }
}
