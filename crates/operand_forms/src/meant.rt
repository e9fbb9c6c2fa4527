//! The token of a line that a fault of its statement is about.

ghost use Rattle.std.specs.Prelude.{◌≡◌, ◌≤◌, length, false};
ghost use Rattle.std.specs.List.{position};
ghost use Rattle.program_statements.specs.Statements.{mark_count, is_mark};
ghost use Rattle.operand_forms.specs.Meant.{label_tokens, span_at, place_after, operands, is_early, operand_span, is_within, is_beyond, number_index, is_bad_mark, bad_mark, is_directive, mark_index};

use crate::bytes::LINE_START;
use crate::form::fitting;
use crate::shape::{OperandShape, Range, range_of};
use crate::slices::after;
use program_tokens::span::TokenSpan;
use program_tokens::token::{Mark, Number, Token};

/// How many tokens the labels at the front of a line have: two for each label, a name and a colon.
pub fn label_tokens(tokens: &[Token]) -> usize
    ensures value { result ≡ label_tokens tokens.now }
    ensures within { result ≤ length tokens.now }
{
    let mut rest = tokens;
    let mut count = 0;
    while let [Token::Name(_), Token::Colon, after @ ..] = rest {
        count += 2;
        rest = after;
    }
    count
}

/// The place at this index, from 0, among the places of a line's tokens; the line's first byte where there is none.
pub fn span_at(spans: &[TokenSpan], index: usize) -> TokenSpan
    ensures { result ≡ span_at spans.now index }
{
    spans.get(index).copied().unwrap_or(LINE_START)
}

/// The place after another one, which has no bytes.
fn place_after(span: TokenSpan) -> TokenSpan
    ensures { result ≡ place_after span }
{
    TokenSpan {
        column: span.column.saturating_add(span.len),
        len: 0,
    }
}

fn is_mark(token: &Token) -> bool
    ensures { result ≡ is_mark token.now }
{
    matches!(token, Token::Mark(_))
}

/// How many marks stand at the end.
fn mark_count(tokens: &[Token]) -> usize
    ensures value { result ≡ mark_count tokens.now }
    ensures within { result ≤ length tokens.now }
{
    tokens
        .iter()
        .rev()
        .take_while(|token| is_mark(token))
        .count()
}

/// The operands: what stands between the statement's first token and its marks.
fn operands(tokens: &[Token]) -> &[Token]
    ensures { result.now ≡ operands tokens.now }
{
    let rest = after(after(tokens, label_tokens(tokens)), 1);
    &rest[..rest.len() - mark_count(rest)]
}

/// Whether operands of a shape end too early, so far as they fit it.
fn is_early(shape: OperandShape, tokens: &[Token]) -> bool
    ensures { result ≡ is_early shape tokens.now }
{
    let operands = operands(tokens);
    fitting(shape, operands) == operands.len()
}

/// The place of the first token that does not fit the operands of the shape, or the place after the operands where they end
/// too early.
#[tactic(auto, unfolding(crate::specs::Meant::operand_span))]
pub fn operand_span(shape: OperandShape, tokens: &[Token], spans: &[TokenSpan]) -> TokenSpan
    ensures { result ≡ operand_span shape tokens.now spans.now }
{
    let last = label_tokens(tokens).saturating_add(fitting(shape, operands(tokens)));
    if is_early(shape, tokens) {
        return place_after(span_at(spans, last));
    }
    span_at(spans, last.saturating_add(1))
}

/// Whether a number is in a range.
fn is_within(range: Range, number: Number) -> bool
    ensures { result ≡ is_within range number }
{
    match number {
        Number::Small(value) => range.low <= value && value <= range.high,
        Number::Large => false,
    }
}

/// The indices of places.
const INDICES: Range = Range { low: 0, high: 4096 };

/// Whether a token is a number out of the range, or an index that no place has.
fn is_beyond(range: Range, token: &Token) -> bool
    ensures { result ≡ is_beyond range token.now }
{
    match token {
        Token::Number(number) => !is_within(range, *number),
        Token::Index(number) => !is_within(INDICES, *number),
        _ => false,
    }
}

/// The index of the first token that is out of the range.
fn first_beyond(range: Range, tokens: &[Token]) -> Option<usize>
    ensures { result ≡ position (is_beyond range) tokens.now }
{
    tokens.iter().position(|token| is_beyond(range, token))
}

/// The index, from 0, of the first token that is a number out of the range of the shape, or `@` and an index above 4,096;
/// 0 where there is none.
#[tactic(auto, unfolding(crate::specs::Meant::number_index))]
pub fn number_index(shape: OperandShape, tokens: &[Token]) -> usize
    ensures { result ≡ number_index shape tokens.now }
{
    first_beyond(range_of(shape), tokens).unwrap_or(0)
}

/// Whether a mark cannot stand after others, of which one is `!f`, or one a stop.
fn is_bad_mark(forward: bool, stop: bool, token: &Token) -> bool
    ensures { result ≡ is_bad_mark forward stop token.now }
{
    match token {
        Token::Mark(Mark::Forward) => forward,
        Token::Mark(Mark::Always | Mark::Taken | Mark::NotTaken) => stop,
        _ => true,
    }
}

/// The first mark that cannot stand after those before it.
fn bad_mark(tokens: &[Token]) -> usize
    ensures value { result ≡ bad_mark false false tokens.now }
    ensures within { result ≤ length tokens.now }
{
    let mut forward = false;
    let mut stop = false;
    let mut index = 0;
    for token in tokens {
        if is_bad_mark(forward, stop, token) {
            return index;
        }
        match token {
            Token::Mark(Mark::Forward) => forward = true,
            _ => stop = true,
        }
        index += 1;
    }
    index
}

/// Whether the statement of a line with these tokens is a directive.
pub fn is_directive(tokens: &[Token]) -> bool
    ensures { result ≡ is_directive tokens.now }
{
    match after(tokens, label_tokens(tokens)) {
        [Token::Directive(_), ..] => true,
        _ => false,
    }
}

/// The index, from 0, of the first mark that the statement cannot have; on a directive, of the first mark.
#[tactic(auto, unfolding(crate::specs::Meant::mark_index))]
pub fn mark_index(tokens: &[Token]) -> usize
    ensures { result ≡ mark_index tokens.now }
{
    let start = tokens.len() - mark_count(tokens);
    if is_directive(tokens) {
        return start;
    }
    start.saturating_add(bad_mark(after(tokens, start)))
}
