//! The job `replay`.
ghost use Rattle.std.specs.Prelude.{◌≡◌, ◌++◌, List, [], ◌∷◌, Result, IfOk, take};
ghost use Rattle.event_script.specs.EventScript.{script_of};
ghost use Rattle.machine_model.specs.Answer.{play, play_event};
ghost use Rattle.machine_model.specs.declared.event.Refused.{Refused};
ghost use Rattle.jobs.specs.declared.job.ReplayEmit.TheVariants as emit;
ghost use Rattle.sequencer.specs.Machines.{SameRing, state, units_of};
ghost use Rattle.report_texts.specs.CertificateTexts.{OfCertificate};
ghost use Rattle.verdict_report.specs.MachineText.{machine_text};
ghost use Rattle.result_files.specs.Writing.{Grows};
ghost use Rattle.verdict_report.specs.Playing.{machine_emit, played_so_far};
ghost use Rattle.verdict_report.specs.Prepared.{LeadsTo, told_status};
ghost use Rattle.verdict_report.specs.ReplayText.{IsEventsReport, IsReplayText, IsScriptReport, answers_text, first_events};

use crate::event_text::{refused_script, write_answers};
use crate::machine_text::{picture_of, standing_status_of, summary_of, timeline_of, write_machine};
use crate::replay_form::{MachineForm, ReplayForm, ToldForm, form_of};
use event_script::fault::ScriptFault;
use event_script::reading::read;
use event_trace::places::places;
use event_trace::ring::Ring;
use event_trace::source::EventSource;
use event_trace::streaming::{StreamFault, stream_trace, trace};
use event_trace::telling::TraceForm;
use jobs::job::{CertificateSource, ReplayEmit, Texts};
use limits::ranges::{Budget, Units};
use machine_model::event::{Event, Refused};
use machine_model::laws::next_is_after;
use mark_checker::accept::Accepted;
use report_texts::judging::{Judged, judge};
use report_texts::report::JobReport;
use sequencer::machine::Machine;
use std::alloc::{AllocError, Global};
use std::io::Write;
use strict_replay::stand::stand;

/// A replay before anything of it is written.
#[derive(Drop)]
pub(crate) enum Prepared {
    /// What is to be written.
    Whole(JobReport),
    /// The events to play for an accepted program, which are to be told meanwhile.
    Told(ToldForm, Accepted, Vec<Event>),
}

/// The report of `replay` on a program text, the name of the program, the text of its certificate and the text of a
/// script, on a machine of `units` units: for all events, or for the first `until`.
///
/// # Errors
///
/// `AllocError` where memory was refused.
pub fn replay(
    alloc: Global,
    source: CertificateSource,
    units: Units,
    emit: ReplayEmit,
    until: Option<Budget>,
    texts: &Texts,
) -> Result<JobReport, AllocError>
    ensures { IfOk result (λ report. OfCertificate source texts.now.program.items texts.now.certificate (λ certificate.
        IsReplayText emit units until texts.now.program.items certificate texts.now.script.items report)) }
{
    match prepare(alloc, source, units, emit, until, texts)? {
        Prepared::Whole(report) => Ok(report),
        Prepared::Told(form, accepted, events) => {
            told_report(alloc, units, form, texts, &accepted, events.as_slice())
        }
    }
}

/// Judges the texts of a replay, and plays its events, if what is to be written is not told on the way.
pub(crate) fn prepare(
    alloc: Global,
    source: CertificateSource,
    units: Units,
    emit: ReplayEmit,
    until: Option<Budget>,
    texts: &Texts,
) -> Result<Prepared, AllocError>
    ensures { IfOk result (LeadsTo (λ report. OfCertificate source texts.now.program.items texts.now.certificate (λ certificate.
        IsReplayText emit units until texts.now.program.items certificate texts.now.script.items report)) units) }
{
    match judge(alloc, source, texts)? {
        Judged::Refused(report) => Ok(Prepared::Whole(report)),
        Judged::Accepted(accepted) => {
            let name = texts.name.as_str();
            let text = texts.program.as_slice();
            prepare_script(
                alloc,
                units,
                emit,
                until,
                name,
                text,
                accepted,
                &texts.script,
            )
        }
    }
}

// The same for an accepted program with its name and text, and the text of a script.
fn prepare_script(
    alloc: Global,
    units: Units,
    emit: ReplayEmit,
    until: Option<Budget>,
    name: &str,
    text: &[u8],
    accepted: Accepted,
    script: &[u8],
) -> Result<Prepared, AllocError>
    ensures { IfOk result (LeadsTo (IsScriptReport emit units until accepted.program (script_of accepted.program script.now)) units) }
{
    match read(alloc, script, accepted.program()) {
        Ok(events) => match form_of(emit) {
            ReplayForm::Told(form) => {
                Ok(Prepared::Told(form, accepted, first_events(events, until)))
            }
            ReplayForm::OfMachine(form) => {
                let played = first_events(events, until);
                let report = machine_report(
                    alloc,
                    units,
                    form,
                    name,
                    text,
                    &accepted,
                    played.as_slice(),
                )?;
                Ok(Prepared::Whole(report))
            }
        },
        Err(ScriptFault::OutOfMemory) => Err(AllocError),
        Err(fault) => Ok(Prepared::Whole(refused_script(alloc, fault)?)),
    }
}

// What is told of events, whole.
fn told_report(
    alloc: Global,
    units: Units,
    form: ToldForm,
    texts: &Texts,
    accepted: &Accepted,
    events: &[Event],
) -> Result<JobReport, AllocError>
    ensures { IfOk result (λ report. report.status ≡ told_status units accepted.now.program events.now) }
{
    let text = texts.program.as_slice();
    let form = trace_form(form, texts.name.as_str());
    let (bytes, standing) = trace(alloc, accepted, units.get(), text, events, form)?;
    Ok(JobReport::new(bytes, standing_status_of(standing)))
}

// How events are told of a program of this name.
fn trace_form(form: ToldForm, name: &str) -> TraceForm<'_> {
    match form {
        ToldForm::Trace => TraceForm::Words,
        ToldForm::Lines => TraceForm::Json {
            name,
            source: EventSource::Script,
            run: None,
            is_out_of_budget: false,
        },
    }
}

/// Writes what is told of events while they are played, and answers the status that they leave.
///
/// # Errors
///
/// A part may have been written.
pub(crate) fn write_told<W: Write>(
    alloc: Global,
    units: Units,
    form: ToldForm,
    texts: &Texts,
    accepted: &Accepted,
    events: &[Event],
    writer: &mut W,
) -> Result<u8, StreamFault>
    ensures status { IfOk result (λ status. status ≡ told_status units accepted.now.program events.now) }
    ensures grows { Grows (W.contents writer.old) (W.contents writer.new) }
{
    let text = texts.program.as_slice();
    let form = trace_form(form, texts.name.as_str());
    let standing = stream_trace(alloc, writer, accepted, units.get(), text, events, form)?;
    Ok(standing_status_of(standing))
}

// The events that are played.
fn first_events(events: Vec<Event>, until: Option<Budget>) -> Vec<Event>
    ensures { result.items ≡ first_events until events.items }
{
    let mut events = events;
    if let Some(most) = until {
        events.truncate(most.get() as usize);
    }
    events
}

// What is written for the machine that the events leave.
fn machine_report(
    alloc: Global,
    units: Units,
    form: MachineForm,
    name: &str,
    text: &[u8],
    accepted: &Accepted,
    events: &[Event],
) -> Result<JobReport, AllocError>
    ensures { IfOk result (λ report. IsEventsReport (machine_emit form) units accepted.now.program events.now report) }
{
    let mut machine = Machine::with_units(alloc, accepted, units)?;
    let answers = play_events(alloc, &mut machine, events)?;
    let bytes = bytes_of(alloc, units, form, name, text, accepted, &machine, &answers)?;
    Ok(JobReport::new(bytes, standing_status_of(machine.outcome())))
}

// What is written for a machine after the events of a script, with its answers.
fn bytes_of(
    alloc: Global,
    units: Units,
    form: MachineForm,
    name: &str,
    text: &[u8],
    accepted: &Accepted,
    machine: &Machine<'_>,
    answers: &[Result<(), Refused>],
) -> Result<Vec<u8>, AllocError>
    requires over { machine.now.accepted.program ≡ accepted.now.program }
    requires units { units_of machine.now ≡ units }
    ensures { IfOk result (λ bytes. machine_emit form ≡ emit.Answers → bytes.items ≡ answers_text answers.now ++ machine_text (state machine.now)) }
{
    let program = accepted.program();
    match form {
        MachineForm::Answers => answers_of(alloc, answers, machine),
        MachineForm::Summary(format) => summary_of(alloc, units, format, machine, program),
        MachineForm::Picture => picture_of(alloc, units, name, text, "", machine, accepted),
        MachineForm::Timeline => {
            timeline_of(
                alloc,
                units,
                name,
                text,
                EventSource::Script,
                &[],
                machine,
                accepted,
            )
        },
        MachineForm::State => state_of(alloc, units, text, accepted, machine),
    }
}

// The answers, and how the machine then stands.
fn answers_of(
    alloc: Global,
    answers: &[Result<(), Refused>],
    machine: &Machine<'_>,
) -> Result<Vec<u8>, AllocError>
    ensures { IfOk result (λ bytes. bytes.items ≡ answers_text answers.now ++ machine_text (state machine.now)) }
{
    let mut text = String::new(alloc);
    write_answers(&mut text, answers)?;
    write_machine(&mut text, machine)?;
    Ok(text.into_bytes())
}

// How the machine stands that runs an accepted program with this text, and its units.
fn state_of(
    alloc: Global,
    units: Units,
    text: &[u8],
    accepted: &Accepted,
    machine: &Machine<'_>,
) -> Result<Vec<u8>, AllocError> {
    let mut told = String::new(alloc);
    write_machine(&mut told, machine)?;
    let ring = Ring::of(machine, units.get());
    let places = places(alloc, text)?;
    let stand = stand(alloc, accepted.program(), &places, &ring, machine)?;
    told.push_str(stand.as_str())?;
    Ok(told.into_bytes())
}

// Applies the events to a machine at its start. What it answers to each.
fn play_events(
    alloc: Global,
    machine: &mut Machine<'_>,
    events: &[Event],
) -> Result<Vec<Result<(), Refused>>, AllocError>
    requires start { played_so_far machine.old [] ≡ play machine.old.accepted.program (units_of machine.old) [] }
    ensures answers { IfOk result (λ answers.
        played_so_far machine.new answers.items ≡ play machine.old.accepted.program (units_of machine.old) events.now) }
    ensures kept { SameRing machine.old machine.new }
{
    let mut answers = Vec::with_capacity(alloc, events.len())?;
    for event in events {
        answers.push(play_event_of(machine, *event)?)?;
    }
    Ok(answers)
}

// Applies an event to a machine, and returns what the machine answers to it.
fn play_event_of(machine: &mut Machine<'_>, event: Event) -> Result<Result<(), Refused>, AllocError>
    ensures answer { IfOk result (λ said. (answers : List (Result (Unit {0}) Refused)) →
        played_so_far machine.new (answers ++ said ∷ [])
        ≡ play_event machine.old.accepted.program (units_of machine.old) (played_so_far machine.old answers) event) }
    ensures kept { SameRing machine.old machine.new }
{
    next_is_after();
    match machine.apply(event) {
        Ok(()) => Ok(Ok(())),
        Err(refusal) => match refusal {
            Refused::OutOfMemory => Err(AllocError),
            _ => Ok(Err(refusal)),
        },
    }
}
