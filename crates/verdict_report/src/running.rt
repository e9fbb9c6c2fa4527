//! The job `run`.
ghost use Rattle.std.specs.Prelude.{◌≡◌, ◌≤◌, Err, Ok, IfOk, OnErr};
ghost use Rattle.sequencer.specs.Machines.{state, units_of};
ghost use Rattle.verdict_report.specs.RunText.{IsRunReport, IsRunText, ending_status, ending_text};
ghost use Rattle.report_texts.specs.CertificateTexts.{OfCertificate};
ghost use Rattle.event_script.specs.EventScript.{script_of};
ghost use Rattle.event_script.specs.ScriptText.{script_text};

use crate::fault::ServeFault;
use crate::machine_text::{
    picture_of, single_waits, standing_status_of, summary_of, timeline_of, write_machine,
};
use crate::ran::{Extent, Ran};
use crate::scheduled::run_scheduled;
use event_script::writing::write;
use event_trace::pipeline::pipeline;
use event_trace::source::EventSource;
use event_trace::streaming::trace;
use event_trace::telling::{RunTold, TraceForm};
use jobs::job::{CertificateSource, Prediction, RunEmit, StepRange, TableFormat, Texts};
use limits::ranges::{Budget, Units};
use mark_checker::accept::Accepted;
use report_texts::judging::{Judged, judge};
use report_texts::plain_text::write_words;
use report_texts::report::JobReport;
use run_picture::events::single_events;
use sequencer::machine::Machine;
use std::alloc::{AllocError, Global};
use std::sync::Wait;
use std::thread::Threads;
use step_picture::drawing::draw;
use step_picture::predictor_text::{write_predictor, write_whole};
use strict_replay::writing::write_valued;
use task_descriptor::program::Program;
use task_lives::laws::histories_fit;
use threaded_runner::report::How;
use unit_waits::waveform::waveform;
use wait_table::csv::csv_table;
use wait_table::text::table;

/// The report of `run` on a program text, the name of the program and the text of its certificate. For each form that no
/// clause names, only the status is proved.
///
/// # Errors
///
/// `OutOfMemory` where memory was refused, or a thread could not be made.
pub fn run<R: Threads + Wait + Sync>(
    rt: &R,
    alloc: Global,
    extent: Extent,
    predict: &Prediction,
    emit: RunEmit,
    source: CertificateSource,
    texts: &Texts,
) -> Result<JobReport, ServeFault>
    ensures report { IfOk result (λ report. OfCertificate source texts.now.program.items texts.now.certificate (λ certificate.
        IsRunText extent.schedule extent.units extent.budget predict.now emit texts.now.program.items certificate report)) }
    ensures memory { OnErr result (result ≡ Err ServeFault.OutOfMemory) }
{
    match judge(alloc, source, texts)? {
        Judged::Refused(report) => Ok(report),
        Judged::Accepted(accepted) => {
            let name = texts.name.as_str();
            let text = texts.program.as_slice();
            run_accepted(rt, alloc, extent, predict, emit, name, text, &accepted)
        }
    }
}

// What `run` writes for an accepted program with its name and text.
fn run_accepted<R: Threads + Wait + Sync>(
    rt: &R,
    alloc: Global,
    extent: Extent,
    predict: &Prediction,
    emit: RunEmit,
    name: &str,
    text: &[u8],
    accepted: &Accepted,
) -> Result<JobReport, ServeFault>
    ensures report { IfOk result (λ report. IsRunReport extent.schedule extent.units extent.budget predict.now emit accepted.now.program report) }
    ensures memory { OnErr result (result ≡ Err ServeFault.OutOfMemory) }
{
    let units = extent.units;
    let budget = extent.budget;
    let ran = run_scheduled(rt, alloc, extent, predict, accepted)?;
    let report = report_of_run(
        alloc, emit, units, budget, predict, &ran, name, text, accepted,
    )?;
    Ok(report)
}

/// What is written for a run, and the status.
pub(crate) fn report_of_run(
    alloc: Global,
    emit: RunEmit,
    units: Units,
    budget: Budget,
    predict: &Prediction,
    ran: &Ran<'_>,
    name: &str,
    text: &[u8],
    accepted: &Accepted,
) -> Result<JobReport, AllocError>
    requires over { ran.now.machine.accepted ≡ accepted.now }
    requires units { (units_of ran.now.machine ≤ 16) × (units_of ran.now.machine ≡ units) }
    ensures ended { IfOk result (λ report. emit ≡ RunEmit.Report → report.bytes ≡ ending_text ran.now.how (state ran.now.machine)) }
    ensures script { IfOk result (λ report. emit ≡ RunEmit.Script → (report.bytes ≡ script_text accepted.now.program ran.now.machine.history)
        × (script_of accepted.now.program report.bytes ≡ Ok ran.now.machine.history)) }
    ensures status { IfOk result (λ report. report.status ≡ ending_status ran.now.how (state ran.now.machine)) }
{
    let bytes = match emit {
        RunEmit::Report => ending(alloc, ran)?,
        RunEmit::Script => write(alloc, ran.machine.history(), accepted.program())?,
        _ => {
            view_of(
                alloc, emit, units, budget, predict, ran, name, text, accepted,
            )?
        }
    };
    Ok(JobReport::new(bytes, ending_status_of(ran)))
}

// The output words, and how the run ended.
fn ending(alloc: Global, ran: &Ran<'_>) -> Result<Vec<u8>, AllocError>
    ensures { IfOk result (λ bytes. bytes.items ≡ ending_text ran.now.how (state ran.now.machine)) }
{
    let mut text = String::new(alloc);
    match ran.how {
        How::Ended => write_machine(&mut text, &ran.machine)?,
        How::OutOfBudget => {
            write_words(&mut text, ran.machine.output())?;
            writeln!(text, "out of budget")?;
        }
    }
    Ok(text.into_bytes())
}

// A run in one of the other forms.
fn view_of(
    alloc: Global,
    emit: RunEmit,
    units: Units,
    budget: Budget,
    predict: &Prediction,
    ran: &Ran<'_>,
    name: &str,
    text: &[u8],
    accepted: &Accepted,
) -> Result<Vec<u8>, AllocError>
    requires over { ran.now.machine.accepted ≡ accepted.now }
    requires units { (units_of ran.now.machine ≤ 16) × (units_of ran.now.machine ≡ units) }
{
    let program = accepted.program();
    let machine = &ran.machine;
    let count = units.get();
    match emit {
        RunEmit::Summary(format) => summary(alloc, units, format, ran, program),
        RunEmit::Picture => event_picture(alloc, units, name, text, predict, machine, accepted),
        RunEmit::StepPicture(range) => {
            step_picture(alloc, units, name, text, predict, range, machine, accepted)
        }
        RunEmit::Timeline => {
            let waits = match ran.steps {
                None => Vec::new(alloc),
                Some(_) => single_waits(alloc, units, machine, accepted)?,
            };
            timeline_of(
                alloc,
                units,
                name,
                text,
                source_of(ran),
                &waits,
                machine,
                accepted,
            )
        }
        _ => {
            let events = single_events(alloc, machine.history())?;
            match emit {
                RunEmit::ScriptWithValues => write_valued(alloc, accepted, count, &events),
                RunEmit::Waits(TableFormat::Text) => {
                    Ok(table(alloc, accepted, count, text, &events)?.into_bytes())
                }
                RunEmit::Waits(TableFormat::Csv) => {
                    Ok(csv_table(alloc, accepted, count, text, &events)?.into_bytes())
                }
                RunEmit::Waveform => Ok(waveform(alloc, accepted, count, &events)?.into_bytes()),
                RunEmit::Pipeline => {
                    Ok(pipeline(alloc, accepted, count, text, &events)?.into_bytes())
                }
                _ => {
                    let mut predictor = String::new(alloc);
                    write_whole(&mut predictor, predict)?;
                    let run = RunTold {
                        predictor: predictor.as_str(),
                        budget: budget.get(),
                    };
                    let form = trace_form(emit, name, run, ran);
                    let (bytes, _) = trace(alloc, accepted, count, text, &events, form)?;
                    Ok(bytes)
                }
            }
        }
    }
}

// How the tasks ended, and in the table of a run in steps how many they were, and how many instructions retired in them.
fn summary(
    alloc: Global,
    units: Units,
    format: TableFormat,
    ran: &Ran<'_>,
    program: &Program,
) -> Result<Vec<u8>, AllocError>
    requires over { ran.now.machine.accepted.program ≡ program.now }
    requires units { units_of ran.now.machine ≡ units }
{
    let mut bytes = summary_of(alloc, units, format, &ran.machine, program)?;
    if let (TableFormat::Text, Some(steps)) = (format, ran.steps) {
        let (committed, _) = ran.machine.counts();
        let line = format!(in alloc; "steps {steps}, retired instructions {committed}\n")?;
        bytes.extend_from_slice(line.as_bytes())?;
    }
    Ok(bytes)
}

// How the events are told of a run of a program of this name, which was made so.
fn trace_form<'n>(emit: RunEmit, name: &'n str, run: RunTold<'n>, ran: &Ran<'_>) -> TraceForm<'n> {
    match emit {
        RunEmit::Json => TraceForm::Json {
            name,
            source: source_of(ran),
            run: Some(run),
            is_out_of_budget: matches!(ran.how, How::OutOfBudget),
        },
        _ => TraceForm::Words,
    }
}

// The picture of the events of a run of a program of this name and text, with the predictor.
fn event_picture(
    alloc: Global,
    units: Units,
    name: &str,
    text: &[u8],
    predict: &Prediction,
    machine: &Machine<'_>,
    accepted: &Accepted,
) -> Result<Vec<u8>, AllocError>
    requires over { machine.now.accepted ≡ accepted.now }
    requires units { units_of machine.now ≡ units }
{
    let mut said = String::from_str(alloc, "predictor: ")?;
    write_predictor(&mut said, predict)?;
    picture_of(alloc, units, name, text, said.as_str(), machine, accepted)
}

// The picture of some steps of a run in steps of a program of this name and text.
fn step_picture(
    alloc: Global,
    units: Units,
    name: &str,
    text: &[u8],
    predict: &Prediction,
    range: StepRange,
    machine: &Machine<'_>,
    accepted: &Accepted,
) -> Result<Vec<u8>, AllocError>
    requires over { machine.now.accepted ≡ accepted.now }
    requires units { (units_of machine.now ≤ 16) × (units_of machine.now ≡ units) }
{
    histories_fit();
    let picture = draw(
        alloc,
        accepted,
        name,
        text,
        units.get(),
        predict,
        range,
        machine.outcome(),
        machine.history(),
    )?;
    Ok(picture.into_bytes())
}

// Who chose the events of a run.
fn source_of(ran: &Ran<'_>) -> EventSource {
    match ran.steps {
        None => EventSource::Threads,
        Some(_) => EventSource::Steps,
    }
}

// The status of a run.
fn ending_status_of(ran: &Ran<'_>) -> u8
    ensures { result ≡ ending_status ran.now.how (state ran.now.machine) }
{
    match ran.how {
        How::Ended => standing_status_of(ran.machine.outcome()),
        How::OutOfBudget => 3,
    }
}
