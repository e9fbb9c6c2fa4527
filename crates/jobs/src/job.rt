//! A job of the program, with its files.

use crate::ranges::PredictionList;
use limits::ranges::{Budget, Units, Workers};
use text_pieces::text::Text;

/// The source of the certificate that a job uses.
#[derive(Clone, Copy, Debug, PartialEq, Eq)]
pub enum CertificateSource {
    /// From a file.
    File,
    /// No file: the job makes the least certificate of the program text that it is given.
    Least,
}

/// The text that `annotate` writes.
#[derive(Clone, Copy, Debug, PartialEq, Eq)]
pub enum Emit {
    /// The program with the proposed marks, in canonical text.
    Text,
    /// The certificate of that program.
    Cert,
    /// The least certificate of the given program, with its own marks.
    Keep,
    /// The author's own text, with the proposed create masks and forward bits.
    Marks,
}

/// The layout of the report of `explain`.
#[derive(Clone, Copy, Debug, PartialEq, Eq)]
pub enum Format {
    /// Lines for a person, in the form that compilers use.
    Text,
    /// A log in SARIF 2.1.0, for tools.
    Sarif,
    /// An object of JSON on each line, for tools.
    Json,
}

/// The treatment by `explain` of marks that are right but cost speed.
#[derive(Clone, Copy, Debug, PartialEq, Eq)]
pub enum Warnings {
    /// No warnings.
    Silent,
    /// Warnings; the status stays 0.
    Told,
    /// Warnings, which make the status 1.
    AsErrors,
}

/// The layout of the report of `check`.
#[derive(Clone, Copy, Debug, PartialEq, Eq)]
pub enum CheckFormat {
    /// A line for each finding, and one for the verdict.
    Text,
    /// An object of JSON on each line, for tools.
    Json,
}

/// Whether the lines that `explain` writes for a person have colours.
#[derive(Clone, Copy, Debug, PartialEq, Eq)]
pub enum Colors {
    /// On a terminal, where a person sees them, unless the environment asks for none.
    Auto,
    /// Wherever they go.
    Always,
    /// Nowhere.
    Never,
}

/// The layout of the verdict of `replay --strict`.
#[derive(Clone, Copy, Debug, PartialEq, Eq)]
pub enum VerdictFormat {
    /// Lines for a person.
    Text,
    /// An object of JSON, for tools.
    Json,
}

/// How a table is laid out.
#[derive(Clone, Copy, Debug, PartialEq, Eq)]
pub enum TableFormat {
    /// In columns, for a person.
    Text,
    /// As comma separated values, for spreadsheets and scripts.
    Csv,
}

/// Steps of a run, from one to another, which is not before it; the first step of a run is 1. What is beyond the run's end
/// is left out.
#[derive(Clone, Copy, Debug, PartialEq, Eq)]
pub struct StepRange {
    /// The first of them.
    pub first: u32,
    /// The last of them.
    pub last: u32,
}

/// All steps of a run.
pub const ALL_STEPS: StepRange = StepRange {
    first: 1,
    last: u32::MAX,
};

/// The text that `run` writes for a run.
#[derive(Clone, Copy, Debug, PartialEq, Eq)]
pub enum RunEmit {
    /// The output words, and how the run ended.
    Report,
    /// The history, as an event script that `replay` reads.
    Script,
    /// The history with what each event did, as a script that `replay --strict` judges.
    ScriptWithValues,
    /// How often each task was assigned, how that ended, and how much of its work was useful, as a table.
    Summary(TableFormat),
    /// The run as a picture, in SVG, with a column for each event.
    Picture,
    /// These steps of the run as a picture, in SVG, with a column for each step: of a run in steps.
    StepPicture(StepRange),
    /// Each event of the history with what it changed.
    Trace,
    /// Each event of the history with what it changed, in JSON, an object on each line, for tools.
    Json,
    /// How many steps each task waited, where, and for what, as a table: of a run in steps.
    Waits(TableFormat),
    /// What each unit does in each step, as a Value Change Dump (IEEE 1364): of a run in steps.
    Waveform,
    /// The tasks on each unit as a timeline, in the Trace Event Format, which Perfetto opens.
    Timeline,
    /// Each instruction from where it is executed to where its task ends, as a log that the pipeline viewer Konata reads: of a
    /// run in steps.
    Pipeline,
}

/// The text that `replay` writes for a script.
#[derive(Clone, Copy, Debug, PartialEq, Eq)]
pub enum ReplayEmit {
    /// What the machine answers to each event, and how it is after them.
    Answers,
    /// How often each task was assigned, how that ended, and how much of its work was useful, as a table.
    Summary(TableFormat),
    /// The events that were allowed as a picture, in SVG.
    Picture,
    /// Each event of the script with what the machine answers to it, and what it changed.
    Trace,
    /// Each event of the script with the answer and the change, in JSON, an object on each line, for tools.
    Json,
    /// The events that were allowed as a timeline, in the Trace Event Format, which Perfetto opens.
    Timeline,
    /// The state of the machine after the events, and of each of its units.
    State,
}

/// The layout of the results of `curve`.
#[derive(Clone, Copy, Debug, PartialEq, Eq)]
pub enum CurveEmit {
    /// A table with a row for each run.
    Table(TableFormat),
    /// A picture of the runs, in SVG.
    Picture,
}

/// The form in which `demonstrate` writes a run that shows the harm of a wrong mark.
#[derive(Clone, Copy, Debug, PartialEq, Eq)]
pub enum DemonstrateEmit {
    /// Its events, as a script, and what they show.
    Events,
    /// A picture of it, in SVG.
    Picture,
}

/// How the sequencer of `run` predicts the task after a running one (the paper, section 2.1, leaves it open).
#[derive(Debug, Drop)]
pub enum Prediction {
    /// The first target.
    First,
    /// The last target.
    Last,
    /// The targets at these positions, one after another, over and over.
    List(PredictionList),
}

/// How the units of a run take turns.
#[derive(Clone, Copy, Debug, PartialEq, Eq)]
pub enum Schedule {
    /// By threads, in any order.
    Threads,
    /// On one thread, in steps in which each unit does at most one event: the same run every time.
    Steps,
}

/// One job of the program, with all that it takes but the texts of its files.
#[derive(Debug, Drop)]
pub enum Job {
    /// Runs the program on the sequential machine, at most `budget` instructions.
    Seq {
        budget: Budget,
    },
    /// Writes the canonical text of the program.
    Print {
        /// Whether its instructions are listed instead, each with its address and mask.
        listing: bool,
    },
    /// Proposes marks, or makes the certificate of the given ones.
    Annotate {
        emit: Emit,
    },
    /// Explains each wrong mark of a program: what is wrong, on which path, and what to do.
    Explain {
        /// The program's file as the command line names it, for the diagnostics.
        name: String,
        /// The certificate's file as the command line names it, where one is to be explained, too.
        certificate: Option<String>,
        /// The event script's file as the command line names it, where one is to be explained, too.
        script: Option<String>,
        /// What is done about marks that are right but cost speed.
        warnings: Warnings,
        /// How the report is laid out.
        format: Format,
        /// Whether the lines for a person have colours.
        colors: Colors,
    },
    /// Checks the marks of the program with its certificate, by this many threads.
    Check {
        certificate: CertificateSource,
        workers: Workers,
        /// How the report is laid out.
        format: CheckFormat,
    },
    /// Applies the events of a script to a machine of this many units: all, or the first `until`.
    Replay {
        certificate: CertificateSource,
        units: Units,
        emit: ReplayEmit,
        until: Option<Budget>,
    },
    /// Applies the events of a script with expectations to a machine of this many units, up to the first that is not
    /// allowed or does not do what is expected; where `is_complete`, also up to the first that does what its line does not
    /// list.
    ReplayStrictly {
        certificate: CertificateSource,
        units: Units,
        is_complete: bool,
        format: VerdictFormat,
    },
    /// Runs the program on a machine of this many units, which this many threads serve, up to this many
    /// events. More threads than units count as one for each unit; a run in steps has one thread.
    Run {
        certificate: CertificateSource,
        schedule: Schedule,
        units: Units,
        workers: Workers,
        budget: Budget,
        predict: Prediction,
        emit: RunEmit,
    },
    /// Runs the program in steps on machines of 1, 2, 3 units and more, up to `units`, each run up to this
    /// many events.
    Curve {
        certificate: CertificateSource,
        units: Units,
        budget: Budget,
        predict: Prediction,
        emit: CurveEmit,
    },
    /// Looks for a run that shows the harm of a wrong mark, on machines of 2, 3 units and more, up to `units`, each
    /// run up to this many events.
    Demonstrate {
        units: Units,
        steps: Budget,
        emit: DemonstrateEmit,
    },
}

impl Job {
    ghost use Rattle.std.specs.Prelude.{◌≡◌};
    ghost use Rattle.jobs.specs.Files.{has_certificate, has_script};

    /// Whether the job reads a certificate from a file.
    pub fn has_certificate(&self) -> bool
        ensures { result ≡ has_certificate self.now }
    {
        match self {
            Job::Explain { certificate, .. } => certificate.is_some(),
            Job::Check { certificate, .. } => matches!(certificate, CertificateSource::File),
            Job::Replay { certificate, .. } => matches!(certificate, CertificateSource::File),
            Job::ReplayStrictly { certificate, .. } => {
                matches!(certificate, CertificateSource::File)
            }
            Job::Run { certificate, .. } => matches!(certificate, CertificateSource::File),
            Job::Curve { certificate, .. } => matches!(certificate, CertificateSource::File),
            _ => false,
        }
    }

    /// Whether the job reads an event script.
    pub fn has_script(&self) -> bool
        ensures { result ≡ has_script self.now }
    {
        match self {
            Job::Explain { script, .. } => script.is_some(),
            Job::Replay { .. } => true,
            Job::ReplayStrictly { .. } => true,
            _ => false,
        }
    }
}

/// The names of a job's files; empty for a file that the job does not use.
#[derive(Debug, Drop)]
pub struct Paths {
    /// The program text.
    pub program: String,
    /// The certificate: of `explain`, `check`, `replay`, `run` and `curve`, where it is in a file.
    pub certificate: String,
    /// The event script: of `replay`, and of `explain` where it is to explain one.
    pub script: String,
}

/// The bytes of a job's files; empty for a file that the job does not use.
#[derive(Debug, Drop)]
pub struct Texts {
    /// The name that pictures and lines of JSON give the program; they give none where it is empty.
    pub name: String,
    /// The program text.
    pub program: Vec<u8>,
    /// The certificate: of `explain`, `check`, `replay`, `run` and `curve`, where it is in a file.
    pub certificate: Text,
    /// The event script: of `replay`, and of `explain` where it is to explain one.
    pub script: Vec<u8>,
}
