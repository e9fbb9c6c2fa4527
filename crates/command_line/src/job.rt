//! The job that the values of a subcommand ask for, and its files.
ghost use Rattle.std.specs.Prelude.{◌≡◌, IfOk, IfErr, Some, codes, is_some, map, not, option_map};
ghost use Rattle.std.specs.String.{string_bytes};
ghost use Rattle.command_line.specs.Asked.{Gives, IsRequested, Names, Refuses, destination_in, emit_in, fixes_in, further_in, is_given, number_at, predict_in, values_in, warnings_in};
ghost use Rattle.command_line.specs.Words.{emit_of};
ghost use Rattle.jobs.specs.Files.{HasFilesOf, is_in_file};

use crate::prediction::read_prediction;
use crate::request::Request;
use crate::values::Values;
use crate::words::UsageFault;
use clap::error::ErrorKind;
use jobs::job::{
    ALL_STEPS, CertificateSource, CheckFormat, Colors, CurveEmit, DemonstrateEmit, Emit, Format,
    Job, Paths, Prediction, ReplayEmit, RunEmit, Schedule, StepRange, TableFormat, VerdictFormat,
    Warnings,
};
use limits::ranges::{Budget, Units, Workers};
use std::alloc::AllocError;

static FORMATS: [(&str, Format); 3] = [
    ("text", Format::Text),
    ("sarif", Format::Sarif),
    ("json", Format::Json),
];

static CHECK_FORMATS: [(&str, CheckFormat); 2] = [
    ("text", CheckFormat::Text),
    ("json", CheckFormat::Json),
];

static COLORS: [(&str, Colors); 3] = [
    ("auto", Colors::Auto),
    ("always", Colors::Always),
    ("never", Colors::Never),
];

static SCHEDULES: [(&str, Schedule); 2] = [
    ("threads", Schedule::Threads),
    ("steps", Schedule::Steps),
];

static REPLAY_EMITS: [(&str, ReplayEmit); 7] = [
    ("answers", ReplayEmit::Answers),
    ("summary", ReplayEmit::Summary(TableFormat::Text)),
    ("svg", ReplayEmit::Picture),
    ("trace", ReplayEmit::Trace),
    ("json", ReplayEmit::Json),
    ("perfetto", ReplayEmit::Timeline),
    ("state", ReplayEmit::State),
];

static RUN_EMITS: [(&str, RunEmit); 10] = [
    ("report", RunEmit::Report),
    ("script", RunEmit::Script),
    ("summary", RunEmit::Summary(TableFormat::Text)),
    ("svg", RunEmit::Picture),
    ("trace", RunEmit::Trace),
    ("json", RunEmit::Json),
    ("waits", RunEmit::Waits(TableFormat::Text)),
    ("vcd", RunEmit::Waveform),
    ("perfetto", RunEmit::Timeline),
    ("kanata", RunEmit::Pipeline),
];

static CURVE_EMITS: [(&str, CurveEmit); 2] = [
    ("table", CurveEmit::Table(TableFormat::Text)),
    ("svg", CurveEmit::Picture),
];

static DEMONSTRATE_EMITS: [(&str, DemonstrateEmit); 2] = [
    ("events", DemonstrateEmit::Events),
    ("svg", DemonstrateEmit::Picture),
];

/// What a subcommand asks for.
pub(crate) fn request_in(values: &Values<'_, '_>) -> Result<Request, UsageFault>
    ensures files { IfOk result (λ r. HasFilesOf r.job r.paths) }
    ensures request { IfOk result (IsRequested values.now.name.now (values_in values.now.matches.now)) }
    ensures fault { IfErr result (Refuses values.now.name.now (values_in values.now.matches.now)) }
{
    let job = job_in(values)?;
    let paths = paths_in(values, &job)?;
    let output = output_in(values, &job)?;
    let fixes = fixes_in(values, &job)?;
    let further = further_in(values, &job)?;
    let releases = releases_in(values, &job)?;
    if !further.is_empty() {
        expect_alone(values, &job, output.is_some(), fixes.is_some())?;
    }
    Ok(Request {
        job,
        paths,
        output,
        fixes,
        further,
        releases,
        report: values.is_given("report"),
        progress: values.is_given("progress"),
    })
}

// The job of a subcommand.
fn job_in(values: &Values<'_, '_>) -> Result<Job, UsageFault>
    ensures value { IfOk result (Gives values.now.name.now (values_in values.now.matches.now)) }
    ensures fault { IfErr result (Refuses values.now.name.now (values_in values.now.matches.now)) }
{
    match values.name {
        "seq" => Ok(Job::Seq {
            budget: budget_in(values, "budget")?,
        }),
        "print" => Ok(Job::Print {
            listing: values.is_given("listing"),
        }),
        "annotate" => match emit_in(values) {
            Some(emit) => Ok(Job::Annotate { emit }),
            None => Err(UsageFault::Emit),
        },
        "explain" => explain_in(values),
        "check" => Ok(Job::Check {
            certificate: check_source_in(values)?,
            workers: values.there(values.number("workers").and_then(Workers::new))?,
            format: values.word(
                "format",
                &CHECK_FORMATS,
                "the value of --format is text or json",
            )?,
        }),
        "replay" => replay_in(values),
        "run" => run_in(values),
        "curve" => curve_in(values),
        "demonstrate" => Ok(Job::Demonstrate {
            units: units_in(values)?,
            steps: budget_in(values, "steps")?,
            emit: values.word(
                "emit",
                &DEMONSTRATE_EMITS,
                "the value of --emit is events or svg",
            )?,
        }),
        _ => Err(values.no_job()),
    }
}

// The value of `--emit` of `annotate`.
fn emit_in(values: &Values<'_, '_>) -> Option<Emit>
    ensures { result ≡ emit_in (values_in values.now.matches.now) }
{
    let is_own = values.is_given("in-place") || values.is_given("releases");
    let otherwise = if is_own { "marks" } else { "text" };
    emit_named(values.text("emit").unwrap_or(otherwise))
}

fn emit_named(text: &str) -> Option<Emit>
    ensures { result ≡ emit_of text.now }
{
    match text {
        "text" => Some(Emit::Text),
        "cert" => Some(Emit::Cert),
        "keep" => Some(Emit::Keep),
        "marks" => Some(Emit::Marks),
        _ => None,
    }
}

fn explain_in(values: &Values<'_, '_>) -> Result<Job, UsageFault>
    requires { values.now.name.now ≡ codes "explain" }
    ensures value { IfOk result (Gives values.now.name.now (values_in values.now.matches.now)) }
    ensures fault { IfErr result (Refuses values.now.name.now (values_in values.now.matches.now)) }
{
    Ok(Job::Explain {
        name: values.path("program")?,
        certificate: values.free_path("certificate")?,
        script: values.free_path("script")?,
        warnings: warnings_in(values)?,
        format: values.word(
            "format",
            &FORMATS,
            "the value of --format is text, sarif or json",
        )?,
        colors: values.word(
            "color",
            &COLORS,
            "the value of --color is auto, always or never",
        )?,
    })
}

// What is done about marks that cost speed. `--no-warnings` leaves no warning that could count.
fn warnings_in(values: &Values<'_, '_>) -> Result<Warnings, UsageFault>
    ensures value { IfOk result (λ warnings. warnings ≡ warnings_in (values_in values.now.matches.now)) }
    ensures fault { IfErr result (Refuses values.now.name.now (values_in values.now.matches.now)) }
{
    match (values.is_given("no-warnings"), values.is_given("werror")) {
        (true, true) => Err(values.fault(
            ErrorKind::ArgumentConflict,
            "with --no-warnings there is no --werror",
        )),
        (true, false) => Ok(Warnings::Silent),
        (false, true) => Ok(Warnings::AsErrors),
        (false, false) => Ok(Warnings::Told),
    }
}

fn replay_in(values: &Values<'_, '_>) -> Result<Job, UsageFault>
    requires { values.now.name.now ≡ codes "replay" }
    ensures value { IfOk result (Gives values.now.name.now (values_in values.now.matches.now)) }
    ensures fault { IfErr result (Refuses values.now.name.now (values_in values.now.matches.now)) }
{
    let certificate = source_in(values, "script")?;
    let units = units_in(values)?;
    let emit = values.word(
        "emit",
        &REPLAY_EMITS,
        "the value of --emit is answers, summary, svg, trace, json, perfetto or state",
    )?;
    let until = match values.number("until") {
        Some(most) => Some(values.there(Budget::new(most))?),
        None => None,
    };
    let is_complete = values.is_given("complete");
    if !values.is_given("strict") {
        if is_complete {
            return Err(values.fault(ErrorKind::ArgumentConflict, "--complete is for --strict"));
        }
        let emit = played_emit_in(values, emit)?;
        return Ok(Job::Replay {
            certificate,
            units,
            emit,
            until,
        });
    }
    let format = verdict_format_in(values)?;
    let why = if emit != ReplayEmit::Answers {
        "with --strict there is no other --emit"
    } else if until.is_some() {
        "with --strict there is no --until"
    } else {
        return Ok(Job::ReplayStrictly {
            certificate,
            units,
            is_complete,
            format,
        });
    };
    Err(values.fault(ErrorKind::ArgumentConflict, why))
}

// How the verdict of a strict replay is written.
fn verdict_format_in(values: &Values<'_, '_>) -> Result<VerdictFormat, UsageFault>
    ensures { IfErr result (Refuses values.now.name.now (values_in values.now.matches.now)) }
{
    match values.text("format") {
        None | Some("text") => Ok(VerdictFormat::Text),
        Some("json") => Ok(VerdictFormat::Json),
        Some(_) => Err(values.fault(
            ErrorKind::InvalidValue,
            "with --strict the value of --format is text or json",
        )),
    }
}

// What `replay` writes that is not strict: `--format` goes with a summary.
fn played_emit_in(values: &Values<'_, '_>, named: ReplayEmit) -> Result<ReplayEmit, UsageFault>
    ensures { IfErr result (Refuses values.now.name.now (values_in values.now.matches.now)) }
{
    let message = "without --strict, --format goes with --emit summary, as text or csv";
    match (named, table_format_in(values, message)?) {
        (named, None) => Ok(named),
        (ReplayEmit::Summary(_), Some(format)) => Ok(ReplayEmit::Summary(format)),
        _ => Err(values.fault(ErrorKind::ArgumentConflict, message)),
    }
}

// How a table is laid out, where that is said; `message` says which values there are.
fn table_format_in(
    values: &Values<'_, '_>,
    message: &str,
) -> Result<Option<TableFormat>, UsageFault>
    ensures { IfErr result (Refuses values.now.name.now (values_in values.now.matches.now)) }
{
    match values.text("format") {
        None => Ok(None),
        Some("text") => Ok(Some(TableFormat::Text)),
        Some("csv") => Ok(Some(TableFormat::Csv)),
        Some(_) => Err(values.fault(ErrorKind::InvalidValue, message)),
    }
}

fn run_in(values: &Values<'_, '_>) -> Result<Job, UsageFault>
    requires { values.now.name.now ≡ codes "run" }
    ensures value { IfOk result (Gives values.now.name.now (values_in values.now.matches.now)) }
    ensures fault { IfErr result (Refuses values.now.name.now (values_in values.now.matches.now)) }
{
    let certificate = source_in(values, "certificate")?;
    let schedule = values.word(
        "schedule",
        &SCHEDULES,
        "the value of --schedule is threads or steps",
    )?;
    let emit = tabled_in(values, run_emit_in(values, schedule)?)?;
    let units = units_in(values)?;
    let workers = values.number("workers").unwrap_or(units.get());
    let workers = values.there(Workers::new(workers))?;
    let budget = budget_in(values, "budget")?;
    match predict_in(values)? {
        Some(predict) => Ok(Job::Run {
            certificate,
            schedule,
            units,
            workers,
            budget,
            predict,
            emit,
        }),
        None => Err(UsageFault::Predict),
    }
}

// What `run` writes. `--with-values` goes with a script, `--axis` with a picture, `--from` and `--to` with one of steps, and
// waits, a waveform, a log of instructions and the columns of steps with a run in steps.
fn run_emit_in(values: &Values<'_, '_>, schedule: Schedule) -> Result<RunEmit, UsageFault>
    ensures { IfErr result (Refuses values.now.name.now (values_in values.now.matches.now)) }
{
    let named = values.word(
        "emit",
        &RUN_EMITS,
        "the value of --emit is report, script, summary, svg, trace, json, perfetto or, with --schedule steps, waits, vcd or kanata",
    )?;
    let in_steps = schedule == Schedule::Steps;
    let valued = values.is_given("with-values");
    let range = range_in(values);
    let is_part = is_part_in(values);
    let emit = match (named, values.text("axis")) {
        (RunEmit::Script, None) if valued && !is_part => Some(RunEmit::ScriptWithValues),
        _ if valued => None,
        (RunEmit::Picture, None | Some("steps")) if in_steps && range.first <= range.last => {
            Some(RunEmit::StepPicture(range))
        }
        _ if is_part => None,
        (RunEmit::Picture, None | Some("events")) => Some(RunEmit::Picture),
        (_, Some(_)) => None,
        (RunEmit::Waits(_) | RunEmit::Waveform | RunEmit::Pipeline, None) if !in_steps => None,
        (named, None) => Some(named),
    };
    match emit {
        Some(emit) => Ok(emit),
        None => Err(values.fault(
            ErrorKind::ArgumentConflict,
            misfit_of(values, named, in_steps),
        )),
    }
}

// The steps that `--from` and `--to` ask for, and whether one of the two is given.
fn range_in(values: &Values<'_, '_>) -> StepRange {
    StepRange {
        first: values.number("from").unwrap_or(ALL_STEPS.first),
        last: values.number("to").unwrap_or(ALL_STEPS.last),
    }
}

fn is_part_in(values: &Values<'_, '_>) -> bool {
    values.number("from").is_some() || values.number("to").is_some()
}

// Which of the options of `run` does not fit `--emit` and the schedule.
fn misfit_of(values: &Values<'_, '_>, named: RunEmit, in_steps: bool) -> &'static str {
    let axis = values.text("axis");
    let range = range_in(values);
    if values.is_given("with-values") && named != RunEmit::Script {
        "--with-values goes with --emit script"
    } else if !matches!(axis, None | Some("events" | "steps")) {
        "the value of --axis is events or steps"
    } else if axis.is_some() && named != RunEmit::Picture {
        "--axis goes with --emit svg"
    } else if axis == Some("steps") && !in_steps {
        "--axis steps goes with --schedule steps"
    } else if is_part_in(values) && range.first > range.last {
        "the step of --to is before that of --from"
    } else if is_part_in(values) {
        "--from and --to go with --schedule steps --emit svg, and not with --axis events"
    } else {
        "--emit waits, vcd and kanata go with --schedule steps"
    }
}

// What `run` writes, laid out as `--format` says, which goes with tables.
fn tabled_in(values: &Values<'_, '_>, emit: RunEmit) -> Result<RunEmit, UsageFault>
    ensures { IfErr result (Refuses values.now.name.now (values_in values.now.matches.now)) }
{
    let message = "--format, text or csv, goes with --emit summary and waits";
    match (emit, table_format_in(values, message)?) {
        (emit, None) => Ok(emit),
        (RunEmit::Summary(_), Some(format)) => Ok(RunEmit::Summary(format)),
        (RunEmit::Waits(_), Some(format)) => Ok(RunEmit::Waits(format)),
        _ => Err(values.fault(ErrorKind::ArgumentConflict, message)),
    }
}

fn curve_in(values: &Values<'_, '_>) -> Result<Job, UsageFault>
    requires { values.now.name.now ≡ codes "curve" }
    ensures value { IfOk result (Gives values.now.name.now (values_in values.now.matches.now)) }
    ensures fault { IfErr result (Refuses values.now.name.now (values_in values.now.matches.now)) }
{
    let certificate = source_in(values, "certificate")?;
    let units = units_in(values)?;
    let budget = budget_in(values, "budget")?;
    let Some(predict) = predict_in(values)? else {
        let message =
            "the value of --predict is first, last, or 1 to 64 numbers 0 to 15 separated by commas, as in 1,0";
        return Err(values.fault(ErrorKind::InvalidValue, message));
    };
    let emit = curve_emit_in(values)?;
    Ok(Job::Curve {
        certificate,
        units,
        budget,
        predict,
        emit,
    })
}

// What `curve` writes: `--format` goes with the table.
fn curve_emit_in(values: &Values<'_, '_>) -> Result<CurveEmit, UsageFault>
    ensures { IfErr result (Refuses values.now.name.now (values_in values.now.matches.now)) }
{
    let emit = values.word("emit", &CURVE_EMITS, "the value of --emit is table or svg")?;
    let message = "--format, text or csv, goes with --emit table";
    match (emit, table_format_in(values, message)?) {
        (emit, None) => Ok(emit),
        (CurveEmit::Table(_), Some(format)) => Ok(CurveEmit::Table(format)),
        _ => Err(values.fault(ErrorKind::ArgumentConflict, message)),
    }
}

fn units_in(values: &Values<'_, '_>) -> Result<Units, UsageFault>
    ensures value { IfOk result (λ units. number_at (codes "units") (values_in values.now.matches.now) ≡ Some units) }
    ensures fault { IfErr result (Refuses values.now.name.now (values_in values.now.matches.now)) }
{
    values.there(values.number("units").and_then(Units::new))
}

fn budget_in(values: &Values<'_, '_>, id: &str) -> Result<Budget, UsageFault>
    ensures value { IfOk result (λ budget. number_at id.now (values_in values.now.matches.now) ≡ Some budget) }
    ensures fault { IfErr result (Refuses values.now.name.now (values_in values.now.matches.now)) }
{
    values.there(values.number(id).and_then(Budget::new))
}

// What the value of `--predict` stands for.
fn predict_in(values: &Values<'_, '_>) -> Result<Option<Prediction>, AllocError>
    ensures { IfOk result (λ r. r ≡ predict_in (values_in values.now.matches.now)) }
{
    match values.text("predict") {
        Some(text) => read_prediction(values.alloc, text),
        None => Ok(None),
    }
}

// Where the certificate comes from: with `--least` there is one file fewer, and so none of this name, the last.
fn source_in(values: &Values<'_, '_>, last: &str) -> Result<CertificateSource, UsageFault>
    ensures value { IfOk result (λ source. is_in_file source ≡ not (is_given (codes "least") (values_in values.now.matches.now))) }
    ensures fault { IfErr result (Refuses values.now.name.now (values_in values.now.matches.now)) }
{
    match (values.text(last), values.is_given("least")) {
        (Some(_), false) => Ok(CertificateSource::File),
        (None, true) => Ok(CertificateSource::Least),
        (Some(_), true) => Err(values.fault(
            ErrorKind::ArgumentConflict,
            "there is a file too many: with --least there is no CERT",
        )),
        (None, false) => Err(file_missing(values)),
    }
}

// Where `check` takes the certificate from: with `--least` the files after the program are further programs.
fn check_source_in(values: &Values<'_, '_>) -> Result<CertificateSource, UsageFault>
    ensures value { IfOk result (λ source. is_in_file source ≡ not (is_given (codes "least") (values_in values.now.matches.now))) }
    ensures fault { IfErr result (Refuses values.now.name.now (values_in values.now.matches.now)) }
{
    if values.is_given("least") {
        return Ok(CertificateSource::Least);
    }
    match values.matches.get_strs("certificate") {
        None => Err(file_missing(values)),
        Some([_]) => Ok(CertificateSource::File),
        Some(_) => Err(values.fault(
            ErrorKind::UnknownArgument,
            "there is a file too many: there is one CERT; with --least there are several programs",
        )),
    }
}

fn file_missing(values: &Values<'_, '_>) -> UsageFault
    ensures { Refuses values.now.name.now (values_in values.now.matches.now) result }
{
    values.fault(
        ErrorKind::MissingRequiredArgument,
        "a file is missing: give CERT, or --least in its place",
    )
}

// The files of a job. Without a certificate the script of `replay` stands in its place.
fn paths_in(values: &Values<'_, '_>, job: &Job) -> Result<Paths, UsageFault>
    ensures files { IfOk result (HasFilesOf job.now) }
    ensures names { IfOk result (Names (values_in values.now.matches.now) job.now) }
    ensures fault { IfErr result (Refuses values.now.name.now (values_in values.now.matches.now)) }
{
    let program = values.path("program")?;
    let mut certificate = String::new(values.alloc);
    let mut script = String::new(values.alloc);
    if job.has_certificate() {
        certificate = values.path("certificate")?;
    }
    if job.has_script() {
        let is_last = job.has_certificate() || matches!(job, Job::Explain { .. });
        script = values.path(if is_last { "script" } else { "certificate" })?;
    }
    Ok(Paths {
        program,
        certificate,
        script,
    })
}

// The file that takes the result of a job, if it is not standard output.
fn output_in(values: &Values<'_, '_>, job: &Job) -> Result<Option<String>, UsageFault>
    ensures value { IfOk result (λ output. option_map string_bytes output ≡ destination_in (values_in values.now.matches.now)) }
    ensures fault { IfErr result (Refuses values.now.name.now (values_in values.now.matches.now)) }
{
    if values.is_given("fix") {
        return Ok(None);
    }
    let output = values.text("output");
    if !values.is_given("in-place") {
        return match output {
            Some("-") | None => Ok(None),
            Some(_) => Ok(values.free_path("output")?),
        };
    }
    match job {
        Job::Explain { .. } => {
            Err(values.fault(ErrorKind::ArgumentConflict, "--in-place goes with --fix"))
        }
        Job::Annotate {
            emit: Emit::Text | Emit::Marks,
        } if output.is_none() && values.text("program") != Some("-") => {
            Ok(values.free_path("program")?)
        }
        _ => Err(values.fault(
            ErrorKind::ArgumentConflict,
            "with --in-place PROGRAM is a file, there is no --output, and the value of --emit is marks or text",
        )),
    }
}

// Whether releases are put in, which goes with the author's own text alone.
fn releases_in(values: &Values<'_, '_>, job: &Job) -> Result<bool, UsageFault>
    ensures value { IfOk result (λ releases. releases ≡ is_given (codes "releases") (values_in values.now.matches.now)) }
    ensures fault { IfErr result (Refuses values.now.name.now (values_in values.now.matches.now)) }
{
    match (values.is_given("releases"), job) {
        (true, Job::Annotate { emit: Emit::Marks }) => Ok(true),
        (true, _) => Err(values.fault(
            ErrorKind::ArgumentConflict,
            "--releases goes with --emit marks",
        )),
        (false, _) => Ok(false),
    }
}

// The file that takes the program's text with fixes, if that is asked for.
fn fixes_in(values: &Values<'_, '_>, job: &Job) -> Result<Option<String>, UsageFault>
    ensures value { IfOk result (λ fixes. option_map string_bytes fixes ≡ fixes_in (values_in values.now.matches.now)) }
    ensures given { IfOk result (λ fixes. is_some fixes ≡ is_given (codes "fix") (values_in values.now.matches.now)) }
    ensures fault { IfErr result (Refuses values.now.name.now (values_in values.now.matches.now)) }
{
    if !values.is_given("fix") {
        return Ok(None);
    }
    if values.text("program") == Some("-") || has_log(job) {
        return Err(values.fault(
            ErrorKind::ArgumentConflict,
            "with --fix PROGRAM is a file, and the value of --format is text",
        ));
    }
    match (values.text("output"), values.is_given("in-place")) {
        (None | Some("-"), false) => Err(values.fault(
            ErrorKind::MissingRequiredArgument,
            "a file is missing: with --fix give --output FILE or --in-place",
        )),
        (Some(_), false) => Ok(Some(values.path("output")?)),
        (None, true) => Ok(Some(values.path("program")?)),
        (Some(_), true) => Err(values.fault(
            ErrorKind::ArgumentConflict,
            "there is a file too many: with --in-place there is no --output",
        )),
    }
}

// Whether a job writes a log for machines.
fn has_log(job: &Job) -> bool {
    matches!(
        job,
        Job::Explain {
            format: Format::Sarif | Format::Json,
            ..
        }
    )
}

// The names of the programs after the first.
fn further_in(values: &Values<'_, '_>, job: &Job) -> Result<Vec<String>, AllocError>
    ensures { IfOk result (λ names. map string_bytes names.items ≡ further_in job.now (values_in values.now.matches.now)) }
{
    match job {
        Job::Explain { .. } => values.names("further"),
        Job::Check {
            certificate: CertificateSource::Least,
            ..
        } => values.names("certificate"),
        _ => Ok(Vec::new(values.alloc)),
    }
}

// Refuses a job that further programs cannot also have: they would share what is of one.
fn expect_alone(
    values: &Values<'_, '_>,
    job: &Job,
    has_output: bool,
    has_fixes: bool,
) -> Result<(), UsageFault>
    ensures { IfErr result (Refuses values.now.name.now (values_in values.now.matches.now)) }
{
    let shared = if has_output {
        "--output is for the result of one program"
    } else if has_fixes {
        "--fix is for one program"
    } else {
        match job {
            Job::Explain {
                certificate: Some(_),
                ..
            } => "--certificate is for one program",
            Job::Explain {
                script: Some(_),
                ..
            } => "--script is for one program",
            _ => return Ok(()),
        }
    };
    let message = format!(in values.alloc; "{shared}: give each program a command of its own")?;
    Err(values.fault(ErrorKind::ArgumentConflict, message.as_str()))
}
