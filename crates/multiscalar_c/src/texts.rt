//! The texts and names that a caller passes.
ghost use Rattle.std.specs.Prelude.{◌≡◌, [], IfOk, MatchResult};
ghost use Rattle.std.specs.Str.{IsUtf8};
ghost use Rattle.std.specs.String.{string_bytes};
ghost use Rattle.multiscalar_c.specs.declared.answer.Fault.TheVariants.{Range};

use crate::answer::Fault;
use jobs::job::Texts;
use std::alloc::{AllocError, Global};
use std::str;
use text_pieces::text::Text;

/// Copies of these texts, of a program without a name.
pub(crate) fn texts(
    alloc: Global,
    program: &[u8],
    certificate: &[u8],
    script: &[u8],
) -> Result<Texts, AllocError>
    ensures { IfOk result (λ texts. (string_bytes texts.name ≡ []) × (texts.program.items ≡ program.now) × (texts.certificate ≡ certificate.now) × (texts.script.items ≡ script.now)) }
{
    Ok(Texts {
        name: String::new(alloc),
        program: Vec::from_slice(alloc, program)?,
        certificate: Text::new(alloc, Vec::from_slice(alloc, certificate)?),
        script: Vec::from_slice(alloc, script)?,
    })
}

/// A name.
///
/// # Errors
///
/// `Range` exactly where it is not UTF-8.
pub(crate) fn name(bytes: &[u8]) -> Result<&str, Fault>
    ensures { MatchResult result
        (λ name. (name.now ≡ bytes.now) × IsUtf8 bytes.now)
        (λ fault. (fault ≡ Range) × (IsUtf8 bytes.now → ⊥)) }
{
    str::from_utf8(bytes).map_err(|_| Fault::Range)
}
