//! Writing the text of a certificate.

ghost use Rattle.std.specs.Prelude.{◌≡◌, ◌<◌, ◌≤◌, ◌^◌, ◌++◌, length, IfOk, OnOk};
ghost use Rattle.std.specs.Char.{digit_char};
ghost use Rattle.std.specs.Fmt.{decimal};
ghost use Rattle.mask_certificate.specs.declared.fault.MaskSpelling.TheVariants.{Wide};
ghost use Rattle.mask_certificate.specs.CertificateText.{hexadecimal, entry_text, task_text, cert_text};
ghost use Rattle.mask_certificate.specs.CertificateReading.{names_of};

use crate::certificate::Cert;
use crate::fault::MaskSpelling;
use mips_instructions::number::RegSet;
use std::alloc::{AllocError, Global};
use task_descriptor::program::Program;

fn push_decimal(text: &mut Vec<u8>, number: u32) -> Result<(), AllocError>
    ensures { OnOk result (text.new.items ≡ text.old.items ++ decimal number) }
{
    if number >= 10 {
        push_decimal(text, number / 10)?;
    }
    text.push(b'0' + (number % 10) as u8)?;
    Ok(())
}

fn digit_text(digit: u8) -> u8
    requires { digit < 16 }
    ensures { result ≡ digit_char digit }
{
    if digit < 10 {
        b'0' + digit
    } else {
        b'a' + (digit - 10)
    }
}

fn push_hexadecimal(text: &mut Vec<u8>, digits: usize, number: u64) -> Result<(), AllocError>
    ensures { OnOk result (text.new.items ≡ text.old.items ++ hexadecimal digits number) }
{
    if digits > 0 {
        push_hexadecimal(text, digits - 1, number / 16)?;
        text.push(digit_text((number % 16) as u8))?;
    }
    Ok(())
}

fn push_entry(text: &mut Vec<u8>, index: u32, mask: RegSet) -> Result<(), AllocError>
    ensures { OnOk result (text.new.items ≡ text.old.items ++ entry_text Wide (index, mask)) }
{
    push_decimal(text, index)?;
    text.push(b' ')?;
    push_hexadecimal(text, MaskSpelling::Wide.mask_digits(), mask.bits())?;
    text.push(b'\n')?;
    Ok(())
}

fn push_task(text: &mut Vec<u8>, name: &[u8], list: &[(u32, RegSet)]) -> Result<(), AllocError>
    ensures { OnOk result (text.new.items ≡ text.old.items ++ task_text Wide name.now list.now) }
{
    text.extend_from_slice(b"task ")?;
    text.extend_from_slice(name)?;
    text.push(b'\n')?;
    for entry in list {
        push_entry(text, entry.0, entry.1)?;
    }
    Ok(())
}

/// The text of a certificate for the tasks of a program, in `cert 2`. A list beyond the tasks is left out, and
/// a task without a list has no entry.
///
/// # Errors
///
/// `AllocError` where memory was refused.
pub fn write(alloc: Global, cert: &Cert, program: &Program) -> Result<Vec<u8>, AllocError>
    ensures { IfOk result (λ text. text.items ≡ cert_text cert.now (names_of program.now)) }
{
    let mut text = Vec::from_slice(alloc, b"cert 2\n")?;
    let mut task = 0;
    for descriptor in program.tasks() {
        push_task(&mut text, descriptor.name.bytes(), cert.list(task))?;
        task += 1;
    }
    Ok(text)
}
