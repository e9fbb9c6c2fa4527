//! The report of a job, and the reports of refusals.
ghost use Rattle.std.specs.Prelude.{◌≡◌, IfOk};
ghost use Rattle.report_texts.specs.OutputTexts.{program_refused};

use annotated_asm::fault::AsmFault;
use std::alloc::{AllocError, Global};
use std::marker::Model;

/// The report of a job: the bytes that it writes, and the exit status of the program.
#[derive(Debug, Drop)]
pub struct JobReport {
    bytes: Vec<u8>,
    status: u8,
}

impl Model for JobReport {
    ghost use Rattle.report_texts.specs.OutputTexts.{Report as Said};

    ghost Value = { Said };

    ghost view = { λ r. record { bytes = r.bytes.items; status = r.status } };
}

impl JobReport {
    /// The report with these bytes and this status.
    pub fn new(bytes: Vec<u8>, status: u8) -> JobReport
        ensures { result ≡ record { bytes = bytes.items; status = status } }
    {
        JobReport { bytes, status }
    }

    /// The bytes that the job writes.
    pub fn bytes(&self) -> &[u8]
        ensures { result.now ≡ self.now.bytes }
    {
        self.bytes.as_slice()
    }

    /// The exit status, 0 to 3.
    pub fn status(&self) -> u8
        ensures { result ≡ self.now.status }
    {
        self.status
    }
}

/// The report of every job on a text that spells no program, for this fault; its status is 1.
///
/// # Errors
///
/// `AllocError` where memory was refused.
pub fn refused_program(alloc: Global, fault: AsmFault) -> Result<JobReport, AllocError>
    ensures { IfOk result (λ report. report ≡ program_refused fault) }
{
    let mut text = String::new(alloc);
    writeln!(text, "program refused: {fault}")?;
    Ok(JobReport::new(text.into_bytes(), 1))
}
