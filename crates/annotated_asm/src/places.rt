//! Where the tokens of a line stand, and how far what they spell reaches.

ghost use Rattle.std.specs.Prelude.{◌≡◌, ◌<◌, ◌≤◌, ◌+◌, ◌-◌, ◌^◌, drop, length, take_while, slice_get, All, IfOk, OnOk};
ghost use Rattle.std.specs.Option.{option_copied};
ghost use Rattle.program_tokens.specs.Spans.{line_spans};
ghost use Rattle.annotated_asm.specs.Sources.{column_of, token_position, end_of, width_between, stretch_between, is_no_name, targets_number, task_lists, token_stretch, target_stretches};

use crate::position::{Position, Stretch, TaskLists};
use program_tokens::span::{TokenSpan, read_spans};
use program_tokens::token::Token;
use std::alloc::{AllocError, Global};

/// Replaces the places that are there with those of a line's tokens. No place ends beyond what a machine number
/// can hold.
pub(crate) fn read_places(spans: &mut Vec<TokenSpan>, text: &[u8]) -> Result<(), AllocError>
    ensures places { OnOk result (spans.new.items ≡ line_spans text.now) }
    ensures ends { OnOk result (All (λ span. span.column + span.len < 2 ^ 64) spans.new.items) }
{
    let _bytes = text.len();
    read_spans(spans, text)
}

/// The column of a token.
fn column_of(span: Option<&TokenSpan>) -> usize
    ensures { result ≡ column_of (option_copied span.entry) }
{
    match span {
        Some(span) => span.column,
        None => 1,
    }
}

/// Where the token of this number begins.
pub(crate) fn token_position(line: u32, spans: &[TokenSpan], number: usize) -> Position
    ensures { result ≡ token_position line spans.now number }
{
    Position {
        line,
        column: column_of(spans.get(number)),
    }
}

/// The column after the last byte of the token of this number.
fn end_of(spans: &[TokenSpan], number: usize) -> usize
    requires { All (λ span. span.column + span.len < 2 ^ 64) spans.now }
    ensures { result ≡ end_of (slice_get spans.now number) }
{
    if number < spans.len() {
        let span = spans[number];
        span.column + span.len
    } else {
        1
    }
}

/// The number of bytes from the first byte of one token to the last byte of another.
pub(crate) fn width_between(spans: &[TokenSpan], first: usize, last: usize) -> usize
    requires { All (λ span. span.column + span.len < 2 ^ 64) spans.now }
    ensures { result ≡ width_between spans.now first last }
{
    end_of(spans, last).saturating_sub(column_of(spans.get(first)))
}

/// What stands from the first byte of one token to the last of another.
fn stretch_between(line: u32, spans: &[TokenSpan], first: usize, last: usize) -> Stretch
    requires { All (λ span. span.column + span.len < 2 ^ 64) spans.now }
    ensures { result ≡ stretch_between line spans.now first last }
{
    Stretch {
        position: token_position(line, spans, first),
        width: width_between(spans, first, last),
    }
}

/// What stands after the given number of items.
pub(crate) fn behind<T>(items: &[T], number: usize) -> &[T]
    ensures { result.now ≡ drop number items.now }
{
    if number < items.len() {
        &items[number..]
    } else {
        &[]
    }
}

/// Whether a token is no name.
fn is_no_name(token: &Token) -> bool
    ensures { result ≡ is_no_name token.now }
{
    !matches!(token, Token::Name(_))
}

/// How many of the tokens stand before the first name.
fn before_name(tokens: &[Token]) -> usize
    ensures value { result ≡ length (take_while is_no_name tokens.now) }
    ensures within { result < 2 ^ 63 }
{
    tokens.iter().take_while(|token| is_no_name(token)).count()
}

/// The number of the word `targets` in the tokens of a `.task`.
pub(crate) fn targets_number(tokens: &[Token]) -> usize
    ensures value { result ≡ targets_number tokens.now }
    ensures least { 4 ≤ result }
    ensures most { result < 2 ^ 63 + 4 }
{
    4 + before_name(behind(tokens, 4))
}

/// Where the lists of a `.task` of these tokens stand.
pub(crate) fn task_lists(line: u32, spans: &[TokenSpan], tokens: &[Token]) -> TaskLists
    requires { All (λ span. span.column + span.len < 2 ^ 64) spans.now }
    ensures { result ≡ task_lists line spans.now tokens.now }
{
    let targets = targets_number(tokens);
    let last = spans.len().saturating_sub(1);
    TaskLists {
        create: stretch_between(line, spans, 2, targets - 1),
        targets: stretch_between(line, spans, targets, last),
    }
}

/// Where a token stands.
fn token_stretch(line: u32, span: &TokenSpan) -> Stretch
    ensures { result ≡ token_stretch line span.now }
{
    Stretch {
        position: Position {
            line,
            column: span.column,
        },
        width: span.len,
    }
}

/// Where the targets of a `.task` stand, given the places from its list onward.
#[tactic(auto, using(crate::proofs::Targets::first_target))]
pub(crate) fn target_stretches(
    alloc: Global,
    line: u32,
    spans: &[TokenSpan],
) -> Result<Vec<Stretch>, AllocError>
    ensures { IfOk result (λ list. list.items ≡ target_stretches line spans.now) }
{
    let mut list = Vec::new(alloc);
    let mut rest = spans;
    while let [first, others @ ..] = rest {
        list.push(token_stretch(line, first))?;
        rest = behind(others, 1);
    }
    Ok(list)
}
