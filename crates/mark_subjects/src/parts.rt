//! The parts that diagnostics are made of, and lists of registers and places in words.

ghost use Rattle.std.specs.Prelude.{◌≡◌, ◌∷◌, [], IfOk, ℕ, Bool, ◌<◌, ◌++◌, if◌then◌else◌, take, drop, OnOk};
ghost use Rattle.mark_subjects.specs.Subjects.{which};
ghost use Rattle.mark_subjects.specs.Parts.{is_second, step_in, steps_after, steps_of, paths, first_or, way_paths};

use crate::subject::{Made, Subject};
use diagnostics::diagnostic::{Help, Note, Replacement, Span};
use diagnostics::helps::by_text;
use diagnostics::listed::Listed;
use diagnostics::words;
use diagnostics::words::Words;
use std::alloc::Global;

/// A help with a message, and these changes.
pub fn help(message: Words, changes: Vec<Replacement>) -> Help {
    Help {
        message,
        replacements: Listed::new(changes),
    }
}

/// A help that writes `text` at `span`, and says so: `write TEXT`.
///
/// # Errors
///
/// `AllocError` where memory was refused.
pub fn written(alloc: Global, span: Span, text: Words) -> Made<Help> {
    let message = words!(in alloc; "write {text}")?;
    by_text(alloc, message, span, text)
}

/// A note at an instruction, without a path.
pub fn note_at(subject: &Subject, index: u32, message: Words) -> Note
    ensures { result.path ≡ [] }
{
    Note {
        span: Some(subject.span(index)),
        message,
        path: Listed::new(Vec::new(subject.alloc())),
    }
}

/// Whether an instruction is the second of a pseudo-instruction, after its first.
fn is_second(subject: &Subject, before: u32, index: u32) -> bool
    ensures { result ≡ is_second subject.now before index }
{
    index.saturating_sub(before) == 1 && subject.span(index).line == subject.span(before).line
}

/// Adds a step of a path, unless it belongs to the one before.
fn add_step(subject: &Subject, spans: &mut Vec<Span>, before: u32, index: u32) -> Made<()>
    ensures { OnOk result (spans.new.items ≡ spans.old.items ++ step_in subject.now before index) }
{
    if !is_second(subject, before, index) {
        spans.push(subject.span(index))?;
    }
    Ok(())
}

/// Adds the steps of a path after its first.
fn add_steps(subject: &Subject, spans: &mut Vec<Span>, first: u32, path: &[u32]) -> Made<()>
    ensures { OnOk result (spans.new.items ≡ spans.old.items ++ steps_after subject.now first path.now) }
{
    let mut before = first;
    let mut rest = path;
    while let [index, behind @ ..] = rest {
        add_step(subject, spans, before, *index)?;
        before = *index;
        rest = behind;
    }
    Ok(())
}

/// The steps of a path.
fn steps_of(subject: &Subject, path: &[u32]) -> Made<Vec<Span>>
    ensures { IfOk result (λ spans. spans.items ≡ steps_of subject.now path.now) }
{
    let mut spans = Vec::new(subject.alloc());
    let [first, rest @ ..] = path else {
        return Ok(spans);
    };
    spans.push(subject.span(*first))?;
    add_steps(subject, &mut spans, *first, rest)?;
    Ok(spans)
}

/// A note at an instruction, with the lines of a path that leads to it.
///
/// # Errors
///
/// `AllocError` where memory was refused.
pub fn path_note(subject: &Subject, index: u32, message: Words, path: &[u32]) -> Made<Note>
    ensures { IfOk result (λ note. note.path ≡ steps_of subject.now path.now) }
{
    let spans = steps_of(subject, path)?;
    Ok(Note {
        span: Some(subject.span(index)),
        message,
        path: Listed::new(spans),
    })
}

/// The first index of a path; of none, this one.
fn first_or(index: u32, path: &[u32]) -> u32
    ensures { result ≡ first_or index path.now }
{
    match path.get(0) {
        Some(first) => *first,
        None => index,
    }
}

/// The last index of a path; `index` where the path is empty.
pub fn last_or(index: u32, path: &[u32]) -> u32 {
    path.last().copied().unwrap_or(index)
}

/// The note that shows the path to `index`; none where the path begins there or is empty.
///
/// # Errors
///
/// `AllocError` where memory was refused.
#[tactic(auto, using(crate::proofs::Paths::alone, crate::proofs::Paths::none_yet))]
pub fn way_notes(subject: &Subject, index: u32, path: &[u32]) -> Made<Vec<Note>>
    ensures { IfOk result (λ notes. paths notes.items ≡ way_paths subject.now index path.now) }
{
    let mut notes = Vec::new(subject.alloc());
    let first = first_or(index, path);
    if first == index {
        return Ok(notes);
    }
    let message = Words::of(subject.alloc(), "reached from here")?;
    let note = path_note(subject, first, message, path)?;
    notes.push(note)?;
    Ok(notes)
}

/// The numbers, from 0 to 33, of the registers that pass a test, rising.
///
/// # Errors
///
/// `AllocError` where memory was refused.
pub fn registers_where<F: Fn(u8) -> bool>(alloc: Global, test: F) -> Made<Vec<u8>>
    requires { (r : ℕ) → r < 34 → F.pre test r }
    ensures { IfOk result (λ list. (p : ℕ → Bool) → ((r : ℕ) → r < 34 → (b : Bool) → F.post test r b → b ≡ p r) → list.items ≡ which p) }
{
    let mut list = Vec::new(alloc);
    for number in 0..34u8 {
        let passes = test(number);
        add_if(&mut list, number, passes)?;
    }
    Ok(list)
}

/// Adds a register, if it belongs there.
fn add_if(list: &mut Vec<u8>, register: u8, belongs: bool) -> Made<()>
    ensures { OnOk result (list.new.items ≡ list.old.items ++ (if belongs then register ∷ [] else [])) }
{
    if belongs {
        list.push(register)?;
    }
    Ok(())
}

/// Some words with commas between; `-` where there are none.
///
/// # Errors
///
/// `AllocError` where memory was refused.
pub fn with_commas(alloc: Global, list: &[Words]) -> Made<Words> {
    let list: Vec<&str> = list.iter().map(|words| words.as_str()).collect(alloc)?;
    if list.is_empty() {
        return Words::of(alloc, "-");
    }
    Ok(Words::new(list.join(alloc, ",")?))
}

/// A list of registers as the text writes them, with commas; `-` where there are none.
///
/// # Errors
///
/// `AllocError` where memory was refused.
pub fn registers_words(subject: &Subject, registers: &[u8]) -> Made<Words> {
    let alloc = subject.alloc();
    let numbers = registers.iter();
    let names = numbers.map(|number| Words::of(alloc, subject.register(*number)));
    let names: Vec<Words> = names.try_collect(alloc)?;
    with_commas(alloc, &names)
}

/// The words for a place: the name of the task that begins there, or else its label, or else its line. The place after the
/// last instruction is `the end of the program`, one further on is `@` and its index.
///
/// # Errors
///
/// `AllocError` where memory was refused.
pub fn place_words(subject: &Subject, index: u32) -> Made<Words> {
    let alloc = subject.alloc();
    let end = subject.code().len();
    match subject.name(index) {
        Some(name) => Words::of(alloc, name),
        None if (index as usize) < end => words!(in alloc; "line {}", subject.span(index).line),
        None if index as usize == end => Words::of(alloc, "the end of the program"),
        None => words!(in alloc; "@{index}"),
    }
}

/// A list of places in words, with commas; `-` where there are none.
///
/// # Errors
///
/// `AllocError` where memory was refused.
pub fn places_words(subject: &Subject, places: &[u32]) -> Made<Words> {
    let names = places.iter().map(|index| place_words(subject, *index));
    let names: Vec<Words> = names.try_collect(subject.alloc())?;
    with_commas(subject.alloc(), &names)
}

/// The list of targets of a `.task` with these places: `targets=` and the places in words.
///
/// # Errors
///
/// `AllocError` where memory was refused.
pub fn targets_words(subject: &Subject, places: &[u32]) -> Made<Words> {
    let places = places_words(subject, places)?;
    words!(in subject.alloc(); "targets={places}")
}

/// The first `most` items of a list, or all if there are fewer.
pub fn first_of<T>(list: &[T], most: usize) -> &[T]
    ensures { result.now ≡ take most list.now }
{
    if most < list.len() {
        &list[..most]
    } else {
        list
    }
}

/// The items after the first `count`; none if there are no more.
pub fn rest_after<T>(list: &[T], count: usize) -> &[T]
    ensures { result.now ≡ drop count list.now }
{
    if count < list.len() {
        &list[count..]
    } else {
        &[]
    }
}
