//! The reader of standard error, and what is written there in addition to a report.
ghost use Rattle.std.specs.Prelude.{◌≡◌, ◌||◌, IfOk};
ghost use Rattle.program_edge.specs.Beside.{IsBeside, IsRest, is_played, rest_said};
ghost use Rattle.program_edge.specs.Hints.{IsHint};

use crate::hint::hint_for;
use crate::reports::report_of;
use explain_report::proposal::{LeftOver, left_over};
use jobs::job::{Job, ReplayEmit, TableFormat, Texts};
use report_texts::report::JobReport;
use shown_names::name::shown_name;
use std::alloc::{AllocError, Global};
use std::marker::Model;
use std::sync::Wait;
use std::thread::Threads;

/// Who reads standard error.
#[derive(Drop)]
pub(crate) struct Reader {
    /// Whether it is a terminal.
    pub is_terminal: bool,
    /// Whether what is left to mend by hand is asked for.
    pub wants_rest: bool,
    /// The name of the program's file.
    pub name: String,
}

impl Model for Reader {
    ghost use Rattle.std.specs.String.{string_bytes};
    ghost use Rattle.program_edge.specs.Beside.{Audience};

    ghost Value = { Audience };

    ghost view = { λ r. record { is_terminal = r.is_terminal; wants_rest = r.wants_rest; name = string_bytes r.name } };
}

impl Reader {
    ghost use Rattle.std.specs.Prelude.{◌≡◌, ◌||◌};

    /// Whether anything may be written beside a report.
    pub(crate) fn listens(&self) -> bool
        ensures { result ≡ (self.now.is_terminal || self.now.wants_rest) }
    {
        self.is_terminal || self.wants_rest
    }
}

/// Whether the job writes what it tells of each event while the events are played.
pub(crate) fn is_played(job: &Job) -> bool
    ensures { result ≡ is_played job.now }
{
    matches!(
        job,
        Job::Replay {
            emit: ReplayEmit::Trace | ReplayEmit::Json,
            ..
        }
    )
}

/// What is told beside a report of this job, behind a line.
pub(crate) fn told_beside(
    alloc: Global,
    job: &Job,
    texts: &Texts,
    reader: &Reader,
    report: &JobReport,
    line: Vec<u8>,
) -> Result<Vec<u8>, AllocError>
    ensures { IfOk result (λ told. IsBeside reader.now line.items job.now texts.now.program.items report.now told.items) }
{
    let name = reader.name.as_str();
    let program = texts.program.as_slice();
    let (bytes, status) = (report.bytes(), report.status());
    let hint = hint_for(alloc, reader.is_terminal, job, name, program, status, bytes)?;
    let rest = rest_of(alloc, job, texts, reader, report)?;
    let mut told = line;
    told.extend_from_slice(hint.as_slice())?;
    told.extend_from_slice(rest.as_slice())?;
    Ok(told)
}

/// The hint beside a report with this status that was not kept. Of what a replay tells, only a refusal has one, which
/// its summary says, too. Empty where memory was refused.
pub(crate) fn hint_unkept<R: Threads + Wait + Sync>(
    rt: &R,
    alloc: Global,
    job: &Job,
    texts: &Texts,
    reader: &Reader,
    status: u8,
) -> Vec<u8>
    ensures { IsHint reader.now.is_terminal job.now status result.items }
{
    if !reader.is_terminal || status != 1 {
        return Vec::new(alloc);
    }
    let Job::Replay {
        certificate,
        units,
        until,
        ..
    } = job
    else {
        return Vec::new(alloc);
    };
    let summary = Job::Replay {
        certificate: *certificate,
        units: *units,
        emit: ReplayEmit::Summary(TableFormat::Text),
        until: *until,
    };
    let Ok(report) = report_of(rt, alloc, &summary, texts) else {
        return Vec::new(alloc);
    };
    let name = reader.name.as_str();
    let program = texts.program.as_slice();
    let bytes = report.bytes();
    match hint_for(alloc, reader.is_terminal, job, name, program, status, bytes) {
        Ok(hint) => hint,
        Err(AllocError) => Vec::new(alloc),
    }
}

// The text about what the job leaves that wrote this.
fn rest_of(
    alloc: Global,
    job: &Job,
    texts: &Texts,
    reader: &Reader,
    report: &JobReport,
) -> Result<Vec<u8>, AllocError>
    ensures { IfOk result (λ rest. IsRest (reader.now.is_terminal || reader.now.wants_rest) reader.now.wants_rest job.now
        texts.now.program.items reader.now.name report.now rest.items) }
{
    if !reader.listens() {
        return Ok(Vec::new(alloc));
    }
    let program = texts.program.as_slice();
    let name = shown_name(alloc, reader.name.as_str())?;
    let bytes = report.bytes();
    let left = left_over(alloc, job, program, name.as_str(), report.status(), bytes)?;
    Ok(rest_said(alloc, reader.wants_rest, left))
}

// The text about what is left; nothing, where nothing is left and it was not asked for.
fn rest_said(alloc: Global, asked: bool, left: Option<LeftOver>) -> Vec<u8>
    ensures { result.items ≡ rest_said asked left }
{
    match left {
        Some(left) if asked || left.count > 0 => left.said,
        _ => Vec::new(alloc),
    }
}
