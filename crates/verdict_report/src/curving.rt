//! The job `curve`.
ghost use Rattle.std.specs.Prelude.{◌≡◌, ◌≤◌, IfOk, true, false};
ghost use Rattle.std.specs.Io.KnownBytes.{Appends, Keeps};
ghost use Rattle.speed_curve.specs.Curve.{AreRows};
ghost use Rattle.verdict_report.specs.RunText.{predictor_of as predictor_by};
ghost use Rattle.verdict_report.specs.CurveText.{IsCurveReport, IsCurveText, end_status as end_status_of, rows_status as rows_status_of};
ghost use Rattle.verdict_report.specs.CurveProgress.{IsSaidIf, curve_lines, run_lines};
ghost use Rattle.result_files.specs.Writing.{Begins};
ghost use Rattle.report_texts.specs.CertificateTexts.{OfCertificate};
ghost use Rattle.report_texts.specs.JudgedTexts.{judgement};

use crate::curve_caption::write_caption;
use crate::scheduled::predictor_of;
use crate::telling::tell;
use jobs::job::{CertificateSource, CurveEmit, Prediction, TableFormat, Texts};
use limits::ranges::{Budget, Units};
use machine_model::event::Standing;
use mark_checker::accept::Accepted;
use report_texts::judging::{Judged, judge};
use report_texts::report::JobReport;
use speed_curve::csv::write_csv;
use speed_curve::drawing::draw;
use speed_curve::row::{Row, row_of};
use speed_curve::table::write;
use std::alloc::{AllocError, Global};
use std::io::Write;

/// The report of `curve` on a program text and the text of its certificate: a table or a picture of the program's runs in
/// steps on 1, 2, 3 units and more, up to `units`.
///
/// # Errors
///
/// `AllocError` where memory was refused.
pub fn curve(
    alloc: Global,
    units: Units,
    budget: Budget,
    predict: &Prediction,
    emit: CurveEmit,
    source: CertificateSource,
    texts: &Texts,
) -> Result<JobReport, AllocError>
    ensures { IfOk result (λ report. OfCertificate source texts.now.program.items texts.now.certificate (λ certificate.
        IsCurveText units budget predict.now texts.now.program.items certificate report)) }
{
    let mut nobody = Vec::new(alloc);
    let told = curve_heard(
        alloc,
        units,
        budget,
        predict,
        emit,
        source,
        texts,
        false,
        "",
        &mut nobody,
    )?;
    Ok(told.report)
}

/// The report of a job that also told its progress.
#[derive(Debug, Drop)]
pub struct ToldReport {
    /// The report.
    pub report: JobReport,
    /// Whether all lines about its progress were written.
    pub is_told: bool,
}

/// The report of `curve`, while a line for each finished run, with the name of the program, is written to `errors`. After
/// a line that cannot be written no other is tried, and the runs continue.
///
/// # Errors
///
/// `AllocError` where memory was refused; some of the lines may have been written then.
pub fn curve_told<E: Write>(
    alloc: Global,
    units: Units,
    budget: Budget,
    predict: &Prediction,
    emit: CurveEmit,
    source: CertificateSource,
    texts: &Texts,
    name: &str,
    errors: &mut E,
) -> Result<ToldReport, AllocError>
    ensures report { IfOk result (λ told. OfCertificate source texts.now.program.items texts.now.certificate (λ certificate.
        IsCurveText units budget predict.now texts.now.program.items certificate told.report)) }
    ensures said { IfOk result (λ told. OfCertificate source texts.now.program.items texts.now.certificate (λ certificate.
        told.is_told ≡ true → Appends (E.contents errors.old) (E.contents errors.new)
        (curve_lines name.now units (judgement texts.now.program.items certificate)))) }
    ensures begun { Begins (E.contents errors.old) (E.contents errors.new) (run_lines name.now units units) }
{
    curve_heard(
        alloc, units, budget, predict, emit, source, texts, true, name, errors,
    )
}

// What `curve` writes; `errors` gets a line for each run if that is asked for.
fn curve_heard<E: Write>(
    alloc: Global,
    units: Units,
    budget: Budget,
    predict: &Prediction,
    emit: CurveEmit,
    source: CertificateSource,
    texts: &Texts,
    asked: bool,
    name: &str,
    errors: &mut E,
) -> Result<ToldReport, AllocError>
    ensures report { IfOk result (λ told. OfCertificate source texts.now.program.items texts.now.certificate (λ certificate.
        IsCurveText units budget predict.now texts.now.program.items certificate told.report)) }
    ensures said { IfOk result (λ told. OfCertificate source texts.now.program.items texts.now.certificate (λ certificate.
        told.is_told ≡ true → Appends (E.contents errors.old) (E.contents errors.new)
        (curve_lines name.now units (judgement texts.now.program.items certificate)))) }
    ensures begun { asked ≡ true → Begins (E.contents errors.old) (E.contents errors.new) (run_lines name.now units units) }
{
    match judge(alloc, source, texts)? {
        Judged::Refused(report) => Ok(ToldReport {
            report,
            is_told: asked,
        }),
        Judged::Accepted(accepted) => {
            let title = texts.name.as_str();
            curve_of_accepted(
                alloc, units, budget, predict, emit, title, &accepted, asked, name, errors,
            )
        }
    }
}

// What `curve` writes for an accepted program with this title.
fn curve_of_accepted<E: Write>(
    alloc: Global,
    units: Units,
    budget: Budget,
    predict: &Prediction,
    emit: CurveEmit,
    title: &str,
    accepted: &Accepted,
    asked: bool,
    name: &str,
    errors: &mut E,
) -> Result<ToldReport, AllocError>
    ensures report { IfOk result (λ told. IsCurveReport units budget predict.now accepted.now.program told.report) }
    ensures told { IfOk result (λ told. IsSaidIf asked told.is_told (run_lines name.now units units)
        (E.contents errors.old) (E.contents errors.new)) }
    ensures begun { asked ≡ true → Begins (E.contents errors.old) (E.contents errors.new) (run_lines name.now units units) }
{
    let told = rows_of(alloc, units, budget, predict, accepted, asked, name, errors)?;
    let bytes = rows_text(alloc, title, budget, predict, emit, &told.rows)?;
    Ok(ToldReport {
        report: JobReport::new(bytes, rows_status(&told.rows)),
        is_told: told.is_told,
    })
}

// The rows as a table, or as a picture with a line above it.
fn rows_text(
    alloc: Global,
    title: &str,
    budget: Budget,
    predict: &Prediction,
    emit: CurveEmit,
    rows: &[Row],
) -> Result<Vec<u8>, AllocError> {
    match emit {
        CurveEmit::Table(TableFormat::Text) => write(alloc, rows),
        CurveEmit::Table(TableFormat::Csv) => write_csv(alloc, rows),
        CurveEmit::Picture => {
            let mut caption = String::new(alloc);
            write_caption(&mut caption, title, budget.get(), predict)?;
            let picture = draw(alloc, caption.as_str(), rows)?;
            Ok(picture.into_bytes())
        }
    }
}

// Rows, and whether all lines about their runs were written.
#[derive(Drop)]
struct ToldRows {
    rows: Vec<Row>,
    is_told: bool,
}

// The rows of the runs on 1, 2, 3 units and more, each with the predictor as it was at first.
fn rows_of<E: Write>(
    alloc: Global,
    most: Units,
    budget: Budget,
    predict: &Prediction,
    accepted: &Accepted,
    asked: bool,
    name: &str,
    errors: &mut E,
) -> Result<ToldRows, AllocError>
    ensures rows { IfOk result (λ told. AreRows accepted.now.program budget (predictor_by predict.now) most told.rows.items) }
    ensures told { IfOk result (λ told. IsSaidIf asked told.is_told (run_lines name.now most most)
        (E.contents errors.old) (E.contents errors.new)) }
    ensures begun { asked ≡ true → Begins (E.contents errors.old) (E.contents errors.new) (run_lines name.now most most) }
{
    let last = most.get();
    let events = budget.get();
    let mut rows = Vec::new(alloc);
    let mut is_told = asked;
    for count in 0..last {
        let predictor = predictor_of(alloc, predict)?;
        let row = row_of(alloc, accepted, count + 1, events, predictor)?;
        rows.push(row)?;
        is_told = tell(alloc, is_told, name, count + 1, last, errors);
    }
    Ok(ToldRows { rows, is_told })
}

// The status of the first run that did not halt; 0 where each halted.
fn rows_status(rows: &[Row]) -> u8
    ensures { result ≡ rows_status_of rows.now }
{
    for row in rows {
        let status = end_status(row.standing);
        if status != 0 {
            return status;
        }
    }
    0
}

// The status that `run` has for a run with this standing.
fn end_status(standing: Standing) -> u8
    ensures { result ≡ end_status_of standing }
{
    match standing {
        Standing::Running => 3,
        Standing::Halted => 0,
        Standing::Trapped(_) | Standing::Unlisted(_) => 1,
    }
}
