//! How an answer goes out.
ghost use Rattle.std.specs.Prelude.{Ok};
ghost use Rattle.multiscalar_c.specs.Answers.{Left};

use report_texts::report::JobReport;
use std::alloc::AllocError;

/// What is answered where `out` is too short.
const TOO_SHORT: u32 = 256;

/// What is answered where memory ran out.
const OUT_OF_MEMORY: u32 = 257;

/// What is answered where a number is out of its range, or a name is not UTF-8.
const OUT_OF_RANGE: u32 = 258;

/// Why there is no report.
#[derive(Clone, Copy, Debug, PartialEq, Eq)]
pub(crate) enum Fault {
    /// Memory ran out.
    Memory,
    /// A number is out of its range, or a name is not UTF-8.
    Range,
}

impl From<AllocError> for Fault {
    ghost use Rattle.std.specs.Prelude.{◌≡◌};
    ghost use Rattle.multiscalar_c.specs.declared.answer.Fault.TheVariants.{Memory};

    ghost from_gives = { λ _ e. e ≡ Memory };

    fn from(_error: AllocError) -> Fault {
        Fault::Memory
    }
}

/// Hands out a report: its bytes at the start of `out`, their number in `len`, and its status.
pub(crate) fn hand_out(made: Result<JobReport, Fault>, out: &mut [u8], len: &mut usize) -> u32
    ensures { Left made result out.old out.new len.new }
{
    match made {
        Ok(report) => hand_out_report(&report, out, len),
        Err(fault) => {
            *len = 0;
            match fault {
                Fault::Memory => OUT_OF_MEMORY,
                Fault::Range => OUT_OF_RANGE,
            }
        }
    }
}

// Hands out a report, or says which length it needs.
fn hand_out_report(report: &JobReport, out: &mut [u8], len: &mut usize) -> u32
    ensures { Left (Ok report.now) result out.old out.new len.new }
{
    let bytes = report.bytes();
    *len = bytes.len();
    if bytes.len() > out.len() {
        return TOO_SHORT;
    }
    out[..bytes.len()].copy_from_slice(bytes);
    u32::from(report.status())
}
