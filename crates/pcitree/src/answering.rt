ghost use Rattle.std.specs.Prelude.{◌≡◌, ◌<◌, ◌^◌, Ok, Err, IfOk, IfErr, length};
ghost use Rattle.pcitree.specs.Answers.{AnswersTo, Refuses};
ghost use Rattle.pcitree.specs.Given.{IsGiven};

use crate::words::{operation_in, operations_in, rows_in};
use command_runs::Gate;
use program_status::{Answered, Status};
use program_words::{Called, Form};
use std::alloc::Global;
use std::thread::Threads;

/// The text that answers an input, for words of this form. The gate is told of the work of each
/// bus in `run`.
pub(crate) fn answer<R: Threads + Sync, G: Gate + Sync>(
    rt: &R,
    alloc: Global,
    form: Form,
    words: &Called,
    input: &[u8],
    gate: &G,
) -> Result<Answered, Status>
    requires short { length input.now < 2 ^ 31 }
    requires given { IsGiven form input.now }
    ensures ok { IfOk result (λ answer. AnswersTo form words.now input.now
        answer.text.items answer.ending) }
    ensures err { IfErr result (Refuses form words.now input.now) }
{
    match form {
        Form::Safe => command_safe::answer_safe(alloc, input),
        Form::Adverse => {
            let (read, write) = operations_in(words);
            done(command_safe::answer_adverse(alloc, input, read, write))
        }
        Form::Run => done(command_runs::answer_run(rt, alloc, input, gate)),
        Form::RunSteady => done(command_runs::answer_run_steady(alloc, input)),
        Form::Headers => done(command_boards::answer_headers(alloc, input)),
        Form::Check => done(command_traces::answer_check(alloc, input)),
        Form::Finish => done(command_runs::answer_finish(alloc, input)),
        Form::Fill => done(command_traces::answer_fill(alloc, input)),
        Form::Observe => done(command_observe::answer_observe(alloc, input)),
        Form::ObserveActs => command_observe::answer_acts(alloc, input),
        Form::Audit => done(command_traces::answer_audit(alloc, input)),
        Form::Report => done(command_traces::answer_report(alloc, input)),
        Form::Waves => done(command_traces::answer_waves(alloc, input)),
        Form::Draw => command_traces::answer_draw(alloc, input, rows_in(words)),
        Form::DrawRows => command_traces::answer_draw(alloc, input, rows_in(words)),
        Form::DrawOperation => {
            command_traces::answer_draw_operation(alloc, input, operation_in(words))
        }
        Form::Untagged => done(command_traces::answer_untagged(alloc, input)),
        Form::Combine => done(command_boards::answer_combine(alloc, input)),
        Form::Generate => done(command_runs::answer_generate(alloc, input)),
        Form::Devices => done(command_runs::answer_devices(alloc, input)),
        Form::Import => done(command_boards::answer_import(alloc, input)),
        Form::Tree => done(command_boards::answer_tree(alloc, input)),
    }
}

/// The same of an input that was read for it, and is let go as soon as the form can do so.
pub(crate) fn answer_owned<R: Threads + Sync, G: Gate + Sync>(
    rt: &R,
    alloc: Global,
    form: Form,
    words: &Called,
    input: Vec<u8>,
    gate: &G,
) -> Result<Answered, Status>
    requires short { length input.items < 2 ^ 31 }
    requires given { IsGiven form input.items }
    ensures ok { IfOk result (λ answer. AnswersTo form words.now input.items
        answer.text.items answer.ending) }
    ensures err { IfErr result (Refuses form words.now input.items) }
{
    if form.row().lets_go {
        done(command_observe::answer_observe_owned(alloc, input))
    } else {
        answer(rt, alloc, form, words, input.as_slice(), gate)
    }
}

/// Of the other words each text ends with `Done`.
fn done(text: Result<Vec<u8>, Status>) -> Result<Answered, Status>
    ensures ok { IfOk result (λ answer. (text ≡ Ok answer.text) × (answer.ending ≡ Status.Done)) }
    ensures err { IfErr result (λ status. text ≡ Err status) }
{
    let (text, ending) = (text?, Status::Done);
    Ok(Answered { text, ending })
}
