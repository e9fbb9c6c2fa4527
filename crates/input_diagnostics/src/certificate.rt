//! Diagnostics for a certificate that is given with a program.

ghost use Rattle.std.specs.Prelude.{IfOk};
ghost use Rattle.input_diagnostics.specs.CertificateErrors.{AreCertificateErrors};

use crate::masks::{Compared, own_findings};
use crate::refused::{digits_in, refused_error};
use diagnostics::diagnostic::{Diagnostic, Span};
use mask_certificate::certificate::Cert;
use mask_certificate::fault::CertFault;
use mask_certificate::reading::read;
use std::alloc::{AllocError, Global};
use task_descriptor::program::Program;

/// The lines of a program text, and the places of its instructions in them.
#[derive(Clone, Copy)]
pub struct ProgramLines<'a> {
    /// The lines, line 1 first, each without its LF.
    pub rows: &'a [&'a [u8]],
    /// The places of the instructions, by code index; where one is missing, no line is named.
    pub code: &'a [Span],
}

/// The errors of a certificate's text that is given with a program; `lines` and `least` are the program's lines and its
/// least certificate.
///
/// There is one error where the text is refused, or where it is of another program text, which shows in a task with
/// another number of instructions. Else there is one for each mask that lacks registers, with the least mask to write, and
/// for each mask that is missing: at most 1,000, and a note with the number of the rest. There is none exactly where the
/// text is a certificate that breaks none of the rules 1 to 4, which judge it alone; so a mask that is larger than it
/// needs to be is no error.
///
/// # Errors
///
/// `AllocError` where memory was refused.
pub fn certificate_errors<'x>(
    alloc: Global,
    text: &[u8],
    program: &'x Program,
    lines: ProgramLines<'x>,
    least: &'x Cert,
) -> Result<Vec<Diagnostic>, AllocError>
    ensures { IfOk result (λ list. AreCertificateErrors program.now text.now list.items) }
{
    match read(alloc, text, program) {
        Ok(cert) => {
            let findings = own_findings(alloc, program, &cert)?;
            let compared = Compared {
                alloc,
                program,
                cert: &cert,
                least,
                digits: digits_in(text),
                lines,
            };
            let list = compared.errors(&findings)?;
            Ok(list)
        }
        Err(CertFault::OutOfMemory) => Err(AllocError),
        Err(fault) => {
            let list = refused_error(alloc, program, text, fault)?;
            Ok(list)
        }
    }
}
