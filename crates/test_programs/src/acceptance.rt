//! A program with its certificate, from their texts.

ghost use Rattle.std.specs.Prelude.{IfSome};
ghost use Rattle.annotated_asm.specs.ProgramText.{Spells};

use annotated_asm::assembler::assemble;
use mark_checker::accept::Accepted;
use mask_certificate::certificate::Cert;
use mask_certificate::reading::read;
use std::alloc::Global;
use task_descriptor::program::Program;

/// The program and the certificate that two texts spell; `None` where one of them is refused, or memory was.
pub fn parts(alloc: Global, program: &str, certificate: &str) -> Option<(Program, Cert)>
    ensures { IfSome result (λ parts. Spells program.now parts.0) }
{
    let program = assemble(alloc, program.as_bytes()).ok()?;
    let cert = read(alloc, certificate.as_bytes(), &program).ok()?;
    Some((program, cert))
}

/// The program with its certificate, accepted by the checker; `None` where `parts` gives none, or the checker finds
/// something.
pub fn accepted(alloc: Global, program: &str, certificate: &str) -> Option<Accepted>
    ensures { IfSome result (λ accepted. Spells program.now accepted.program) }
{
    let (program, cert) = parts(alloc, program, certificate)?;
    Accepted::new(program, cert).ok()
}
