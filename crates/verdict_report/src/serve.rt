//! Doing a job: its text is built whole, and then written; a trace is written while its events are played.
ghost use Rattle.std.specs.Prelude.{◌≡◌, ◌≢◌, ◌⊎◌, Err, true, false, IfOk, IfErr, OnOk, OnErr};
ghost use Rattle.std.specs.Io.KnownBytes.{Appends, Keeps};
ghost use Rattle.verdict_report.specs.CurveProgress.{IsProgress, progress_lines};
ghost use Rattle.report_texts.specs.CertificateTexts.{OfCertificate};
ghost use Rattle.report_texts.specs.CheckText.{IsCheckReport, check_text};
ghost use Rattle.report_texts.specs.OutputTexts.{Report};
ghost use Rattle.report_texts.specs.PrintText.{IsPrintReport};
ghost use Rattle.result_files.specs.Writing.{Grows};
ghost use Rattle.verdict_report.specs.Delivering.{IsAdded, IsBegun, is_cut};
ghost use Rattle.verdict_report.specs.JobTexts.{IsCutOff, IsDone, IsReportOf};
ghost use Rattle.verdict_report.specs.Prepared.{told_status};
ghost use Rattle.verdict_report.specs.ReplayText.{IsReplayText};
ghost use Rattle.result_files.specs.Writing.{Begins};

use crate::curving::{ToldReport, curve, curve_told};
use crate::fault::ServeFault;
use crate::ran::Extent;
use crate::replay_form::ToldForm;
use crate::replaying::{Prepared, prepare, replay, write_told};
use crate::running::run;
use demonstration::report::demonstrate;
use event_trace::streaming::StreamFault;
use explain_report::explaining::explain;
use jobs::job::{CertificateSource, CheckFormat, Job, ReplayEmit, Texts};
use limits::ranges::{Budget, Units, Workers};
use machine_model::event::Event;
use mark_checker::accept::Accepted;
use report_texts::annotating::annotate;
use report_texts::check_lines::check_lines;
use report_texts::checking::check;
use report_texts::listing::listing;
use report_texts::printing::print;
use report_texts::report::JobReport;
use report_texts::sequential::seq;
use result_files::writing::write_bytes;
use std::alloc::{AllocError, Global};
use std::io::Write;
use std::sync::Wait;
use std::thread::Threads;
use strict_replay::replaying::replay_strictly;

/// Does a job: builds its text whole, writes it, and returns the exit status, 0 to 3. What `replay` tells of each event is
/// written while the events are played, so that it takes no memory that grows with them. `check` and `run` make threads.
///
/// # Errors
///
/// `OutOfMemory` where memory was refused or a thread could not be made; nothing was written then. `Write` where the
/// writer failed, and `PartWritten` where memory was refused while a text was written: what was written is then a
/// beginning of the text.
pub fn serve<W: Write, R: Threads + Wait + Sync>(
    rt: &R,
    alloc: Global,
    job: &Job,
    texts: &Texts,
    writer: &mut W,
) -> Result<u8, ServeFault>
    ensures done { IfOk result (λ status. IsDone job.now texts.now status
        (W.contents writer.old) (W.contents writer.new)) }
    ensures nothing { IfErr result (λ fault. is_cut fault ≡ false →
        Keeps (W.contents writer.old) (W.contents writer.new)) }
    ensures begun { IfErr result (λ fault. is_cut fault ≡ true →
        IsCutOff job.now texts.now (W.contents writer.old) (W.contents writer.new)) }
    ensures own { result ≢ Err ServeFault.Foreign }
{
    match job {
        Job::Replay {
            certificate,
            units,
            emit,
            until,
        } => write_replay(alloc, *certificate, *units, *emit, *until, texts, writer),
        _ => {
            let report = report_of(rt, alloc, job, texts)?;
            write_report(writer, &report)
        }
    }
}

// Does the job `replay`.
fn write_replay<W: Write>(
    alloc: Global,
    source: CertificateSource,
    units: Units,
    emit: ReplayEmit,
    until: Option<Budget>,
    texts: &Texts,
    writer: &mut W,
) -> Result<u8, ServeFault>
    ensures done { IfOk result (λ status. IsAdded (λ report. OfCertificate source texts.now.program.items texts.now.certificate (λ certificate.
        IsReplayText emit units until texts.now.program.items certificate texts.now.script.items report)) status
        (W.contents writer.old) (W.contents writer.new)) }
    ensures nothing { IfErr result (λ fault. is_cut fault ≡ false →
        Keeps (W.contents writer.old) (W.contents writer.new)) }
    ensures begun { IfErr result (λ fault. is_cut fault ≡ true →
        IsBegun (λ report. OfCertificate source texts.now.program.items texts.now.certificate (λ certificate.
        IsReplayText emit units until texts.now.program.items certificate texts.now.script.items report))
        (W.contents writer.old) (W.contents writer.new)) }
    ensures own { result ≢ Err ServeFault.Foreign }
{
    match prepare(alloc, source, units, emit, until, texts)? {
        Prepared::Whole(report) => write_report(writer, &report),
        Prepared::Told(form, accepted, events) => {
            tell_events(
                alloc,
                units,
                form,
                texts,
                &accepted,
                events.as_slice(),
                writer,
            )
        }
    }
}

// Writes what is told of events while they are played, so that it arrives.
fn tell_events<W: Write>(
    alloc: Global,
    units: Units,
    form: ToldForm,
    texts: &Texts,
    accepted: &Accepted,
    events: &[Event],
    writer: &mut W,
) -> Result<u8, ServeFault>
    ensures status { IfOk result (λ status. status ≡ told_status units accepted.now.program events.now) }
    ensures grows { Grows (W.contents writer.old) (W.contents writer.new) }
    ensures cut { IfErr result (λ fault. (fault ≡ ServeFault.Write) ⊎ (fault ≡ ServeFault.PartWritten)) }
{
    match write_told(alloc, units, form, texts, accepted, events, writer) {
        Ok(status) => match writer.flush() {
            Ok(()) => Ok(status),
            Err(_) => Err(ServeFault::Write),
        },
        Err(fault) => Err(cut_fault(fault)),
    }
}

// The fault of a text that could not be written whole.
fn cut_fault(fault: StreamFault) -> ServeFault
    ensures { (result ≡ ServeFault.Write) ⊎ (result ≡ ServeFault.PartWritten) }
{
    match fault {
        StreamFault::Write => ServeFault::Write,
        StreamFault::OutOfMemory => ServeFault::PartWritten,
    }
}

// Writes a report whole, and answers its status.
fn write_report<W: Write>(writer: &mut W, report: &JobReport) -> Result<u8, ServeFault>
    ensures whole { IfOk result (λ status. (status ≡ report.now.status) × Appends (W.contents writer.old) (W.contents writer.new) report.now.bytes) }
    ensures part { IfErr result (λ fault. (fault ≡ ServeFault.Write) × Begins (W.contents writer.old) (W.contents writer.new) report.now.bytes) }
{
    deliver(writer, report.bytes())?;
    Ok(report.status())
}

/// The report of a job, as `serve` writes it. Meanwhile the job's progress is written to `errors`: `curve` writes a line
/// for each finished run, with the name of the program. After a line that cannot be written no other is tried, and the job
/// continues.
///
/// # Errors
///
/// `OutOfMemory` where memory was refused or a thread could not be made; some of the lines may have been written then.
pub fn report_told<E: Write, R: Threads + Wait + Sync>(
    rt: &R,
    alloc: Global,
    job: &Job,
    texts: &Texts,
    name: &str,
    errors: &mut E,
) -> Result<ToldReport, ServeFault>
    ensures report { IfOk result (λ told. IsReportOf job.now texts.now told.report) }
    ensures said { IfOk result (λ told. IsProgress job.now texts.now name.now told.is_told
        (E.contents errors.old) (E.contents errors.new)) }
    ensures begun { Begins (E.contents errors.old) (E.contents errors.new) (progress_lines job.now name.now) }
    ensures memory { OnErr result (result ≡ Err ServeFault.OutOfMemory) }
{
    match job {
        Job::Curve {
            certificate,
            units,
            budget,
            predict,
            emit,
        } => {
            let told = curve_told(
                alloc,
                *units,
                *budget,
                predict,
                *emit,
                *certificate,
                texts,
                name,
                errors,
            )?;
            Ok(told)
        }
        _ => Ok(ToldReport {
            report: report_of(rt, alloc, job, texts)?,
            is_told: true,
        }),
    }
}

// What a job writes, and the status.
fn report_of<R: Threads + Wait + Sync>(
    rt: &R,
    alloc: Global,
    job: &Job,
    texts: &Texts,
) -> Result<JobReport, ServeFault>
    ensures report { IfOk result (λ report. IsReportOf job.now texts.now report) }
    ensures memory { OnErr result (result ≡ Err ServeFault.OutOfMemory) }
{
    let program = texts.program.as_slice();
    match job {
        Job::Seq { budget } => Ok(seq(alloc, *budget, program)?),
        Job::Print { listing } => Ok(print_in(alloc, *listing, program)?),
        Job::Annotate { emit } => Ok(annotate(alloc, *emit, program)?),
        Job::Explain {
            name,
            certificate,
            script,
            warnings,
            format,
            colors,
        } => {
            let report = explain(
                alloc,
                *format,
                name,
                certificate,
                script,
                *warnings,
                *colors,
                texts,
            )?;
            Ok(report)
        }
        Job::Check {
            certificate,
            workers,
            format,
        } => Ok(check_in(rt, alloc, *certificate, *workers, *format, texts)?),
        Job::Replay {
            certificate,
            units,
            emit,
            until,
        } => Ok(replay(alloc, *certificate, *units, *emit, *until, texts)?),
        Job::ReplayStrictly {
            certificate,
            units,
            is_complete,
            format,
        } => {
            let complete = *is_complete;
            Ok(replay_strictly(alloc, *certificate, *units, complete, *format, texts)?)
        }
        Job::Run {
            certificate,
            schedule,
            units,
            workers,
            budget,
            predict,
            emit,
        } => {
            let extent = Extent {
                schedule: *schedule,
                units: *units,
                workers: *workers,
                budget: *budget,
            };
            run(rt, alloc, extent, predict, *emit, *certificate, texts)
        }
        Job::Curve {
            certificate,
            units,
            budget,
            predict,
            emit,
        } => Ok(curve(alloc, *units, *budget, predict, *emit, *certificate, texts)?),
        Job::Demonstrate { units, steps, emit } => {
            Ok(demonstrate(alloc, *units, *steps, *emit, program)?)
        }
    }
}

// What `print` writes: the canonical text, or the listing.
fn print_in(alloc: Global, is_listed: bool, program: &[u8]) -> Result<JobReport, AllocError>
    ensures { IfOk result (IsPrintReport is_listed program.now) }
{
    if is_listed {
        listing(alloc, program)
    } else {
        print(alloc, program)
    }
}

// What `check` writes in a format.
fn check_in<R: Threads + Sync>(
    rt: &R,
    alloc: Global,
    source: CertificateSource,
    workers: Workers,
    format: CheckFormat,
    texts: &Texts,
) -> Result<JobReport, AllocError>
    ensures { IfOk result (λ report. (said : Report) × OfCertificate source texts.now.program.items texts.now.certificate (λ certificate.
        said ≡ check_text texts.now.program.items certificate) × IsCheckReport format said report) }
{
    let report = check(rt, alloc, source, workers, texts)?;
    match format {
        CheckFormat::Text => Ok(report),
        CheckFormat::Json => check_lines(alloc, texts.name.as_str(), &texts.program, &report),
    }
}

// Writes the whole text.
fn deliver<W: Write>(writer: &mut W, text: &[u8]) -> Result<(), ServeFault>
    ensures ok { OnOk result (Appends (W.contents writer.old) (W.contents writer.new) text.now) }
    ensures part { Begins (W.contents writer.old) (W.contents writer.new) text.now }
    ensures err { OnErr result (result ≡ Err ServeFault.Write) }
{
    write_bytes(text, writer).map_err(|_| ServeFault::Write)?;
    writer.flush().map_err(|_| ServeFault::Write)
}
