//! Numbers within their ranges.

ghost use Rattle.std.specs.Prelude.{◌≡◌};
ghost use Rattle.program_statements.specs.Ranges.{natural, signed_half, word, byte};

use crate::fault::StatementFault;
use program_tokens::token::Number;

/// The number, where it is 0 to `highest`.
///
/// # Errors
///
/// `Number` where it is not.
pub fn natural_of(highest: u32, number: Number) -> Result<u32, StatementFault>
    ensures { result ≡ natural highest number }
{
    let Number::Small(value) = number else {
        return Err(StatementFault::Number);
    };
    match u32::try_from(value) {
        Ok(value) if value <= highest => Ok(value),
        _ => Err(StatementFault::Number),
    }
}

/// The number, where it is -32768 to 32767.
///
/// # Errors
///
/// `Number` where it is not.
pub fn signed_half_of(number: Number) -> Result<i16, StatementFault>
    ensures { result ≡ signed_half number }
{
    let Number::Small(value) = number else {
        return Err(StatementFault::Number);
    };
    match i16::try_from(value) {
        Ok(value) => Ok(value),
        Err(_) => Err(StatementFault::Number),
    }
}

/// The word of a number that is -2^31 to 2^32 - 1; a negative one as two's complement.
///
/// # Errors
///
/// `Number` where it is not in this range.
pub fn word_of(number: Number) -> Result<u32, StatementFault>
    ensures { result ≡ word number }
{
    let Number::Small(value) = number else {
        return Err(StatementFault::Number);
    };
    if let Ok(value) = u32::try_from(value) {
        return Ok(value);
    }
    match i32::try_from(value) {
        Ok(value) => Ok(value.cast_unsigned()),
        Err(_) => Err(StatementFault::Number),
    }
}

/// The byte of a number that is -128 to 255; a negative one as two's complement.
///
/// # Errors
///
/// `Number` where it is not in this range.
pub fn byte_of(number: Number) -> Result<u8, StatementFault>
    ensures { result ≡ byte number }
{
    let Number::Small(value) = number else {
        return Err(StatementFault::Number);
    };
    if let Ok(value) = u8::try_from(value) {
        return Ok(value);
    }
    match i8::try_from(value) {
        Ok(value) => Ok(value.cast_unsigned()),
        Err(_) => Err(StatementFault::Number),
    }
}
