//! One line with another forward bit or create mask.

ghost use Rattle.std.specs.Prelude.{◌≡◌, ◌++◌, ◌+◌, ◌-◌, ◌*◌, ◌^◌, take, drop, length, map, min, slice_get, OnOk};
ghost use Rattle.std.specs.Option.{option_copied};
ghost use Rattle.canonical_text.specs.CanonicalText.{listed, members, register_text};
ghost use Rattle.canonical_text.specs.MarkedText.{behind_token as behind, replaced, stop_count, with_forward, is_forward, forward_number, without_forward, code_line, list_size, separator, with_create, task_line};

use crate::print::write_create;
use mips_instructions::number::RegSet;
use program_statements::statement::{Marks, Target, Task};
use program_tokens::span::TokenSpan;
use program_tokens::token::{Mark, Token};
use std::alloc::{AllocError, Global};
use task_descriptor::descriptor::Stop;

/// How many bytes of a line stand before the end of a token, up to more than any line has.
fn behind_token(spans: &[TokenSpan], number: usize) -> usize
    ensures { result ≡ min (behind (slice_get spans.now number)) (2 ^ 64 - 2) }
{
    match spans.get(number) {
        Some(span) => span.column.saturating_add(span.len).saturating_sub(1),
        None => 0,
    }
}

/// The bytes of a line up to the end of a token.
fn up_to<'a>(line: &'a [u8], spans: &[TokenSpan], number: usize) -> &'a [u8]
    ensures { result.now ≡ take (behind (slice_get spans.now number)) line.now }
{
    let end = behind_token(spans, number);
    if end < line.len() { &line[..end] } else { line }
}

/// The bytes of a line after the end of a token.
fn from<'a>(line: &'a [u8], spans: &[TokenSpan], number: usize) -> &'a [u8]
    ensures { result.now ≡ drop (behind (slice_get spans.now number)) line.now }
{
    let end = behind_token(spans, number);
    if end < line.len() { &line[end..] } else { &[] }
}

/// Writes a line with other bytes in place of those from the end of one token to the end of another.
fn write_replaced(
    text: &mut Vec<u8>,
    spans: &[TokenSpan],
    first: usize,
    last: usize,
    bytes: &[u8],
    line: &[u8],
) -> Result<(), AllocError>
    ensures { OnOk result (text.new.items ≡ text.old.items ++ replaced spans.now first last bytes.now line.now) }
{
    text.extend_from_slice(up_to(line, spans, first))?;
    text.extend_from_slice(bytes)?;
    text.extend_from_slice(from(line, spans, last))
}

/// How many stops an instruction has.
fn stop_count(stop: Stop) -> usize
    ensures { result ≡ stop_count stop }
{
    match stop {
        Stop::None => 0,
        Stop::Always | Stop::Taken | Stop::NotTaken => 1,
    }
}

/// Whether a token is a `!f`.
fn is_forward(token: Option<&Token>) -> bool
    ensures { result ≡ is_forward (option_copied token.entry) }
{
    matches!(token, Some(Token::Mark(Mark::Forward)))
}

/// The number of the `!f` among the tokens of an instruction that has one.
fn forward_number(tokens: &[Token]) -> usize
    ensures { result ≡ forward_number tokens.now }
{
    let behind = if is_forward(tokens.last()) { 1 } else { 2 };
    tokens.len().saturating_sub(behind)
}

/// Writes the line of an instruction with these marks, whose forward bit is to be `wanted`.
pub(crate) fn write_code_line(
    text: &mut Vec<u8>,
    wanted: bool,
    marks: Marks,
    spans: &[TokenSpan],
    tokens: &[Token],
    line: &[u8],
) -> Result<(), AllocError>
    ensures { OnOk result (text.new.items ≡ text.old.items ++ code_line wanted marks spans.now tokens.now line.now) }
{
    if wanted == marks.forward {
        return text.extend_from_slice(line);
    }
    if wanted {
        let last = tokens.len().saturating_sub(stop_count(marks.stop) + 1);
        return write_replaced(text, spans, last, last, b" !f", line);
    }
    let last = forward_number(tokens);
    write_replaced(text, spans, last.saturating_sub(1), last, b"", line)
}

/// How many tokens a list of targets has.
fn list_size(targets: &[Target]) -> usize
    ensures { result ≡ list_size targets.now }
{
    match targets {
        [] => 1,
        [_, others @ ..] => 1 + 2 * others.len(),
    }
}

/// What keeps the bytes after a register from continuing it.
fn separator(rest: &[u8]) -> &'static [u8]
    ensures { result.now ≡ separator rest.now }
{
    match rest {
        [] => b"",
        [byte, ..] => {
            if byte.is_ascii_alphanumeric() || *byte == b'_' {
                b" "
            } else {
                b""
            }
        }
    }
}

/// Writes the line of a task with another create mask.
fn write_with_create(
    alloc: Global,
    text: &mut Vec<u8>,
    create: RegSet,
    targets: &[Target],
    spans: &[TokenSpan],
    tokens: &[Token],
    line: &[u8],
) -> Result<(), AllocError>
    ensures { OnOk result (text.new.items ≡ text.old.items ++ with_create create targets.now spans.now tokens.now line.now) }
{
    let last = tokens.len().saturating_sub(list_size(targets) + 3);
    let mut registers = String::new(alloc);
    write_create(&mut registers, create)?;
    let mut bytes = registers.into_bytes();
    bytes.extend_from_slice(separator(from(line, spans, last)))?;
    write_replaced(text, spans, 3, last, &bytes, line)
}

/// Writes the line of a task whose create mask is to be `wanted`.
pub(crate) fn write_task_line(
    alloc: Global,
    text: &mut Vec<u8>,
    wanted: RegSet,
    task: &Task,
    spans: &[TokenSpan],
    tokens: &[Token],
    line: &[u8],
) -> Result<(), AllocError>
    ensures { OnOk result (text.new.items ≡ text.old.items ++ task_line wanted task.now spans.now tokens.now line.now) }
{
    if wanted == task.create {
        return text.extend_from_slice(line);
    }
    write_with_create(
        alloc,
        text,
        wanted,
        task.targets.as_slice(),
        spans,
        tokens,
        line,
    )
}
