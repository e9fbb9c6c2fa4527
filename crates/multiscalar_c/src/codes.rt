//! The meaning of the numbers that a caller passes.
ghost use Rattle.std.specs.Prelude.{◌≡◌, MatchResult, None, Some, slice_get, ◌⊎◌};
ghost use Rattle.multiscalar_c.specs.Codes.{curve_emits, emits, formats, prediction_of, replay_emits, run_emits, source_of, warnings_of};
ghost use Rattle.multiscalar_c.specs.declared.answer.Fault.TheVariants.{Memory, Range};

use crate::answer::Fault;
use jobs::job::{
    ALL_STEPS, CertificateSource, CurveEmit, Emit, Format, Prediction, ReplayEmit, RunEmit,
    TableFormat, Warnings,
};
use jobs::ranges::PredictionList;
use std::alloc::Global;

/// Where the certificate comes from.
pub(crate) fn source(is_least: bool) -> CertificateSource
    ensures { result ≡ source_of is_least }
{
    if is_least {
        CertificateSource::Least
    } else {
        CertificateSource::File
    }
}

/// What `annotate` writes; `None` for a number that stands for nothing.
pub(crate) fn emit(code: u32) -> Option<Emit>
    ensures { result ≡ slice_get emits code }
{
    match code {
        0 => Some(Emit::Text),
        1 => Some(Emit::Cert),
        2 => Some(Emit::Keep),
        3 => Some(Emit::Marks),
        _ => None,
    }
}

/// How `explain` lays out what it says; `None` for a number that stands for nothing.
pub(crate) fn format(code: u32) -> Option<Format>
    ensures { result ≡ slice_get formats code }
{
    match code {
        0 => Some(Format::Text),
        1 => Some(Format::Sarif),
        2 => Some(Format::Json),
        _ => None,
    }
}

/// What `explain` does about marks that cost speed.
pub(crate) fn warnings(is_told: bool) -> Warnings
    ensures { result ≡ warnings_of is_told }
{
    if is_told {
        Warnings::Told
    } else {
        Warnings::Silent
    }
}

/// What `run` writes; `None` for a number that stands for nothing.
pub(crate) fn run_emit(code: u32) -> Option<RunEmit>
    ensures { result ≡ slice_get run_emits code }
{
    match code {
        0 => Some(RunEmit::Report),
        1 => Some(RunEmit::Script),
        2 => Some(RunEmit::Summary(TableFormat::Text)),
        3 => Some(RunEmit::Picture),
        4 => Some(RunEmit::Trace),
        5 => Some(RunEmit::Json),
        6 => Some(RunEmit::ScriptWithValues),
        7 => Some(RunEmit::Waits(TableFormat::Text)),
        8 => Some(RunEmit::Waveform),
        9 => Some(RunEmit::Timeline),
        10 => Some(RunEmit::StepPicture(ALL_STEPS)),
        11 => Some(RunEmit::Pipeline),
        12 => Some(RunEmit::Summary(TableFormat::Csv)),
        13 => Some(RunEmit::Waits(TableFormat::Csv)),
        _ => None,
    }
}

/// What `replay` writes; `None` for a number that stands for nothing.
pub(crate) fn replay_emit(code: u32) -> Option<ReplayEmit>
    ensures { result ≡ slice_get replay_emits code }
{
    match code {
        0 => Some(ReplayEmit::Answers),
        1 => Some(ReplayEmit::Summary(TableFormat::Text)),
        2 => Some(ReplayEmit::Picture),
        3 => Some(ReplayEmit::Trace),
        4 => Some(ReplayEmit::Json),
        5 => Some(ReplayEmit::Timeline),
        6 => Some(ReplayEmit::State),
        7 => Some(ReplayEmit::Summary(TableFormat::Csv)),
        _ => None,
    }
}

/// What `curve` writes; `None` for a number that stands for nothing.
pub(crate) fn curve_emit(code: u32) -> Option<CurveEmit>
    ensures { result ≡ slice_get curve_emits code }
{
    match code {
        0 => Some(CurveEmit::Table(TableFormat::Text)),
        1 => Some(CurveEmit::Picture),
        2 => Some(CurveEmit::Table(TableFormat::Csv)),
        _ => None,
    }
}

/// How the next task is guessed.
///
/// # Errors
///
/// `Range` exactly where number and list stand for nothing; `Memory` where memory was refused.
pub(crate) fn prediction(alloc: Global, code: u32, numbers: &[u32]) -> Result<Prediction, Fault>
    ensures { MatchResult result
        (λ prediction. prediction_of code numbers.now ≡ Some prediction)
        (λ fault. (fault ≡ Memory) ⊎ ((fault ≡ Range) × (prediction_of code numbers.now ≡ None))) }
{
    match code {
        0 => Ok(Prediction::First),
        1 => Ok(Prediction::Last),
        2 => match PredictionList::new(Vec::from_slice(alloc, numbers)?) {
            Some(list) => Ok(Prediction::List(list)),
            None => Err(Fault::Range),
        },
        _ => Err(Fault::Range),
    }
}
