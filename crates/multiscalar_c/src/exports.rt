//! The calls. The crate's own comment lists what they return, and what `out` and `len` then have.
ghost use Rattle.std.specs.Prelude.{◌≡◌, ⊤, IsSome, slice_get};
ghost use Rattle.multiscalar_c.specs.Answers.{Answers, Made};
ghost use Rattle.multiscalar_c.specs.Codes.{curve_emits, emits, run_emits};
ghost use Rattle.multiscalar_c.specs.Jobs.{ExplainTakes, IsAnnotated, IsChecked, IsCurve, IsExplained, IsReplayed, IsReplayedStrictly, IsRun, ReplayTakes, RunTakes, file_of};
ghost use Rattle.demonstration.specs.DemonstrateText.{IsDemonstrateReport};
ghost use Rattle.limits.specs.Limits.{IsBudget, IsUnits};
ghost use Rattle.report_texts.specs.PrintText.{print_text};
ghost use Rattle.report_texts.specs.SeqText.{seq_text};

use crate::answer::{Fault, hand_out};
use crate::codes;
use crate::texts::{name, texts};
use demonstration::report::demonstrate;
use explain_report::explaining::explain;
use jobs::job::{Colors, DemonstrateEmit, VerdictFormat};
use limits::ranges::{Budget, Units};
use report_texts::annotating::annotate;
use report_texts::printing::print;
use report_texts::report::JobReport;
use report_texts::sequential::seq;
use std::alloc::Global;
use strict_replay::replaying::replay_strictly;
use verdict_report::alone::{StepsRun, check_alone, run_alone};
use verdict_report::curving::curve;
use verdict_report::replaying::replay;

/// `seq`: runs a program text sequentially, at most `budget` instructions, 1..=1,000,000.
#[unsafe(no_mangle)]
pub extern "C" fn multiscalar_c_seq(
    alloc: Global,
    budget: u32,
    program: &[u8],
    out: &mut [u8],
    len: &mut usize,
) -> u32
    ensures { Answers (IsBudget budget) (λ report. report ≡ seq_text budget program.now) result out.old out.new len.new }
{
    hand_out(seq_of(alloc, budget, program), out, len)
}

fn seq_of(alloc: Global, budget: u32, program: &[u8]) -> Result<JobReport, Fault>
    ensures { Made (IsBudget budget) (λ report. report ≡ seq_text budget program.now) result }
{
    let budget = Budget::new(budget).ok_or(Fault::Range)?;
    Ok(seq(alloc, budget, program)?)
}

/// `print`: writes the canonical text of a program.
#[unsafe(no_mangle)]
pub extern "C" fn multiscalar_c_print(
    alloc: Global,
    program: &[u8],
    out: &mut [u8],
    len: &mut usize,
) -> u32
    ensures { Answers ⊤ (λ report. report ≡ print_text program.now) result out.old out.new len.new }
{
    hand_out(print_of(alloc, program), out, len)
}

fn print_of(alloc: Global, program: &[u8]) -> Result<JobReport, Fault>
    ensures { Made ⊤ (λ report. report ≡ print_text program.now) result }
{
    Ok(print(alloc, program)?)
}

/// `annotate`: proposes marks. `emit` is 0 for the annotated program, 1 for its certificate, 2 for the least certificate
/// of the given program, 3 for the author's text with the proposed marks.
#[unsafe(no_mangle)]
pub extern "C" fn multiscalar_c_annotate(
    alloc: Global,
    emit: u32,
    program: &[u8],
    out: &mut [u8],
    len: &mut usize,
) -> u32
    ensures { Answers (IsSome (slice_get emits emit)) (IsAnnotated emit program.now) result out.old out.new len.new }
{
    hand_out(annotate_of(alloc, emit, program), out, len)
}

fn annotate_of(alloc: Global, emit: u32, program: &[u8]) -> Result<JobReport, Fault>
    ensures { Made (IsSome (slice_get emits emit)) (IsAnnotated emit program.now) result }
{
    let emit = codes::emit(emit).ok_or(Fault::Range)?;
    Ok(annotate(alloc, emit, program)?)
}

/// `check`: judges the marks of a program by the text of its certificate, or, if `is_least`, by the least certificate.
#[unsafe(no_mangle)]
pub extern "C" fn multiscalar_c_check(
    alloc: Global,
    is_least: bool,
    program: &[u8],
    certificate: &[u8],
    out: &mut [u8],
    len: &mut usize,
) -> u32
    ensures { Answers ⊤ (IsChecked is_least program.now certificate.now) result out.old out.new len.new }
{
    hand_out(check_of(alloc, is_least, program, certificate), out, len)
}

fn check_of(
    alloc: Global,
    is_least: bool,
    program: &[u8],
    certificate: &[u8],
) -> Result<JobReport, Fault>
    ensures { Made ⊤ (IsChecked is_least program.now certificate.now) result }
{
    let texts = texts(alloc, program, certificate, b"")?;
    Ok(check_alone(alloc, codes::source(is_least), &texts)?)
}

/// `explain`: reports what is wrong with a program, whose file has this name, and, if `has_certificate`, with the text of
/// a certificate. Names are UTF-8. `format` is 0 for text, 1 for SARIF, 2 for lines of JSON; `warnings` also reports marks
/// that are right but cost speed.
#[unsafe(no_mangle)]
pub extern "C" fn multiscalar_c_explain(
    alloc: Global,
    format: u32,
    warnings: bool,
    has_certificate: bool,
    name: &[u8],
    program: &[u8],
    certificate_name: &[u8],
    certificate: &[u8],
    out: &mut [u8],
    len: &mut usize,
) -> u32
    ensures { Answers (ExplainTakes format name.now (file_of has_certificate certificate_name.now))
        (IsExplained format warnings name.now (file_of has_certificate certificate_name.now) program.now certificate.now)
        result out.old out.new len.new }
{
    let report = explain_of(
        alloc,
        format,
        warnings,
        has_certificate,
        name,
        program,
        certificate_name,
        certificate,
    );
    hand_out(report, out, len)
}

fn explain_of(
    alloc: Global,
    format: u32,
    warnings: bool,
    has_certificate: bool,
    title: &[u8],
    program: &[u8],
    certificate_name: &[u8],
    certificate: &[u8],
) -> Result<JobReport, Fault>
    ensures { Made (ExplainTakes format title.now (file_of has_certificate certificate_name.now))
        (IsExplained format warnings title.now (file_of has_certificate certificate_name.now) program.now certificate.now) result }
{
    let format = codes::format(format).ok_or(Fault::Range)?;
    let title = name(title)?;
    let file = if has_certificate {
        Some(String::from_str(alloc, name(certificate_name)?)?)
    } else {
        None
    };
    let texts = texts(alloc, program, certificate, b"")?;
    let none: Option<String> = None;
    let never = Colors::Never;
    let warnings = codes::warnings(warnings);
    Ok(explain(alloc, format, title, &file, &none, warnings, never, &texts)?)
}

/// `replay`: plays a script of events on a machine of `units` units, 1..=16. If `is_least`, the certificate is the least
/// one. `emit` is 0 for the answers, 1 for the summary, 2 for the picture, 3 for the trace, 4 for lines of JSON, 5 for the
/// timeline, 6 for the state of the machine and its units, 7 for the summary as comma separated values.
#[unsafe(no_mangle)]
pub extern "C" fn multiscalar_c_replay(
    alloc: Global,
    is_least: bool,
    units: u32,
    emit: u32,
    program: &[u8],
    certificate: &[u8],
    script: &[u8],
    out: &mut [u8],
    len: &mut usize,
) -> u32
    ensures { Answers (ReplayTakes units emit) (IsReplayed is_least units emit program.now certificate.now script.now) result out.old out.new len.new }
{
    let report = replay_of(alloc, is_least, units, emit, program, certificate, script);
    hand_out(report, out, len)
}

fn replay_of(
    alloc: Global,
    is_least: bool,
    units: u32,
    emit: u32,
    program: &[u8],
    certificate: &[u8],
    script: &[u8],
) -> Result<JobReport, Fault>
    ensures { Made (ReplayTakes units emit) (IsReplayed is_least units emit program.now certificate.now script.now) result }
{
    let units = Units::new(units).ok_or(Fault::Range)?;
    let emit = codes::replay_emit(emit).ok_or(Fault::Range)?;
    let texts = texts(alloc, program, certificate, script)?;
    Ok(replay(alloc, codes::source(is_least), units, emit, None, &texts)?)
}

/// `replay --strict`: judges a script with expectations on a machine of `units` units, 1..=16. If `is_least`, the
/// certificate is the least one.
#[unsafe(no_mangle)]
pub extern "C" fn multiscalar_c_replay_strictly(
    alloc: Global,
    is_least: bool,
    units: u32,
    program: &[u8],
    certificate: &[u8],
    script: &[u8],
    out: &mut [u8],
    len: &mut usize,
) -> u32
    ensures { Answers (IsUnits units) (IsReplayedStrictly is_least units program.now certificate.now script.now) result out.old out.new len.new }
{
    let report = replay_strictly_of(alloc, is_least, units, program, certificate, script);
    hand_out(report, out, len)
}

fn replay_strictly_of(
    alloc: Global,
    is_least: bool,
    units: u32,
    program: &[u8],
    certificate: &[u8],
    script: &[u8],
) -> Result<JobReport, Fault>
    ensures { Made (IsUnits units) (IsReplayedStrictly is_least units program.now certificate.now script.now) result }
{
    let units = Units::new(units).ok_or(Fault::Range)?;
    let texts = texts(alloc, program, certificate, script)?;
    let source = codes::source(is_least);
    Ok(replay_strictly(alloc, source, units, false, VerdictFormat::Text, &texts)?)
}

/// `run --schedule steps`: runs the program in steps on `units` units, 1..=16, until it ends or `budget` events,
/// 1..=1,000,000, are spent. If `is_least`, the certificate is the least one.
///
/// `predict` is 0 for the first target, 1 for the last, 2 for the targets at the positions in `list`, from 0: 1 to 64
/// numbers, each 0..=15. `emit` is 0 for the output words and the end, 1 for the script, 2 for the summary, 3 for the
/// picture, 4 for the trace, 5 for lines of JSON, 6 for the script with what each event did, 7 for the table of waits, 8
/// for the waveform, 9 for the timeline, 10 for the picture by steps, 11 for the log of instructions, 12 for the summary and
/// 13 for the waits as comma separated values.
#[unsafe(no_mangle)]
pub extern "C" fn multiscalar_c_run_steps(
    alloc: Global,
    is_least: bool,
    units: u32,
    budget: u32,
    predict: u32,
    list: &[u32],
    emit: u32,
    program: &[u8],
    certificate: &[u8],
    out: &mut [u8],
    len: &mut usize,
) -> u32
    ensures { Answers (RunTakes run_emits units budget predict list.now emit)
        (IsRun is_least units budget predict list.now emit program.now certificate.now) result out.old out.new len.new }
{
    let report = run_of(
        alloc,
        is_least,
        units,
        budget,
        predict,
        list,
        emit,
        program,
        certificate,
    );
    hand_out(report, out, len)
}

fn run_of(
    alloc: Global,
    is_least: bool,
    units: u32,
    budget: u32,
    predict: u32,
    list: &[u32],
    emit: u32,
    program: &[u8],
    certificate: &[u8],
) -> Result<JobReport, Fault>
    ensures { Made (RunTakes run_emits units budget predict list.now emit)
        (IsRun is_least units budget predict list.now emit program.now certificate.now) result }
{
    let units = Units::new(units).ok_or(Fault::Range)?;
    let budget = Budget::new(budget).ok_or(Fault::Range)?;
    let emit = codes::run_emit(emit).ok_or(Fault::Range)?;
    let predict = &codes::prediction(alloc, predict, list)?;
    let texts = texts(alloc, program, certificate, b"")?;
    let steps = StepsRun {
        units,
        budget,
        predict,
        emit,
    };
    Ok(run_alone(alloc, &steps, codes::source(is_least), &texts)?)
}

/// `curve`: runs the program in steps on 1, 2, 3 units and more, up to `units`, each run up to `budget` events. `emit` is
/// 0 for a table, 1 for a picture; the other numbers are as for `multiscalar_c_run_steps`.
#[unsafe(no_mangle)]
pub extern "C" fn multiscalar_c_curve(
    alloc: Global,
    is_least: bool,
    units: u32,
    budget: u32,
    predict: u32,
    list: &[u32],
    emit: u32,
    program: &[u8],
    certificate: &[u8],
    out: &mut [u8],
    len: &mut usize,
) -> u32
    ensures { Answers (RunTakes curve_emits units budget predict list.now emit)
        (IsCurve is_least units budget predict list.now emit program.now certificate.now) result out.old out.new len.new }
{
    let report = curve_of(
        alloc,
        is_least,
        units,
        budget,
        predict,
        list,
        emit,
        program,
        certificate,
    );
    hand_out(report, out, len)
}

fn curve_of(
    alloc: Global,
    is_least: bool,
    units: u32,
    budget: u32,
    predict: u32,
    list: &[u32],
    emit: u32,
    program: &[u8],
    certificate: &[u8],
) -> Result<JobReport, Fault>
    ensures { Made (RunTakes curve_emits units budget predict list.now emit)
        (IsCurve is_least units budget predict list.now emit program.now certificate.now) result }
{
    let units = Units::new(units).ok_or(Fault::Range)?;
    let budget = Budget::new(budget).ok_or(Fault::Range)?;
    let emit = codes::curve_emit(emit).ok_or(Fault::Range)?;
    let predict = codes::prediction(alloc, predict, list)?;
    let texts = texts(alloc, program, certificate, b"")?;
    let source = codes::source(is_least);
    Ok(curve(alloc, units, budget, &predict, emit, source, &texts)?)
}

/// `demonstrate`: looks for a run that shows the harm of a wrong mark, on machines of 2 units, of 3, and so on up to
/// `units`, 1..=16, each run up to `steps` events, 1..=1,000,000.
#[unsafe(no_mangle)]
pub extern "C" fn multiscalar_c_demonstrate(
    alloc: Global,
    units: u32,
    steps: u32,
    program: &[u8],
    out: &mut [u8],
    len: &mut usize,
) -> u32
    ensures { Answers (IsUnits units × IsBudget steps) (IsDemonstrateReport units steps program.now) result out.old out.new len.new }
{
    hand_out(demonstrate_of(alloc, units, steps, program), out, len)
}

fn demonstrate_of(alloc: Global, units: u32, steps: u32, program: &[u8]) -> Result<JobReport, Fault>
    ensures { Made (IsUnits units × IsBudget steps) (IsDemonstrateReport units steps program.now) result }
{
    let units = Units::new(units).ok_or(Fault::Range)?;
    let steps = Budget::new(steps).ok_or(Fault::Range)?;
    let emit = DemonstrateEmit::Events;
    Ok(demonstrate(alloc, units, steps, emit, program)?)
}
