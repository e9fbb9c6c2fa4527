//! The job `replay --strict`.

ghost use Rattle.std.specs.Prelude.{◌≡◌, IfOk};
ghost use Rattle.std.specs.Option.{option_map_or};
ghost use Rattle.report_texts.specs.CertificateTexts.{OfCertificate};
ghost use Rattle.strict_replay.specs.StrictReplay.{IsStrictReport};

use crate::judging::{Verdict, judge as judge_script};
use crate::text::Page;
use event_trace::places::places;
use jobs::job::{CertificateSource, Texts, VerdictFormat};
use limits::ranges::Units;
use report_texts::judging::{Judged, judge};
use report_texts::report::JobReport;
use std::alloc::{AllocError, Global};
use task_descriptor::program::Program;

/// The report of `replay --strict` on a program text, the text of its certificate and the text of a script, on a machine of
/// `units` units. A complete script lists all that its events did, and ends its run.
///
/// # Errors
///
/// `AllocError` where memory was refused.
pub fn replay_strictly(
    alloc: Global,
    source: CertificateSource,
    units: Units,
    is_complete: bool,
    format: VerdictFormat,
    texts: &Texts,
) -> Result<JobReport, AllocError>
    ensures { IfOk result (λ report. OfCertificate source texts.now.program.items texts.now.certificate (λ certificate.
        IsStrictReport is_complete units texts.now.program.items certificate texts.now.script.items report)) }
{
    match judge(alloc, source, texts)? {
        Judged::Refused(report) => Ok(report),
        Judged::Accepted(accepted) => {
            let verdict = judge_script(alloc, &accepted, units.get(), &texts.script, is_complete)?;
            let status = status_of(&verdict);
            let said = said_of(alloc, accepted.program(), units, format, texts, verdict)?;
            Ok(JobReport::new(said, status))
        }
    }
}

/// The status of a verdict: 1 where a line departs.
fn status_of(verdict: &Verdict<'_>) -> u8
    ensures { result ≡ option_map_or (λ departed. 1) verdict.now.departed 0 }
{
    u8::from(verdict.departed.is_some())
}

/// What is told of a script.
fn said_of(
    alloc: Global,
    program: &Program,
    units: Units,
    format: VerdictFormat,
    texts: &Texts,
    verdict: Verdict<'_>,
) -> Result<Vec<u8>, AllocError> {
    let places = places(alloc, &texts.program)?;
    let page = Page {
        alloc,
        program,
        places: &places,
        texts,
        units,
        verdict: &verdict,
    };
    match format {
        VerdictFormat::Text => page.text(),
        VerdictFormat::Json => page.object(),
    }
}
