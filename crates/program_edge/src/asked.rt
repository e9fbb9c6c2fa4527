//! The request of a process.
ghost use Rattle.std.specs.Prelude.{◌≡◌, ◌≤◌, length, map};
ghost use Rattle.std.specs.List.{sum_by};
ghost use Rattle.std.specs.String.{string_bytes};
ghost use Rattle.program_edge.specs.Asking.{IsAskedBy, IsAskedOf, input_count, input_of};
ghost use Rattle.program_edge.specs.Telling.{IsFaultOf};

use crate::fault::Fault;
use crate::usage::UsageText;
use crate::words::ProcessWords;
use command_line::request::Request;
use command_line::words::{UsageFault, request_of};
use std::alloc::{AllocError, Global};

/// The name by which the words mean standard input. A file of this name is `./-`.
pub const STANDARD_INPUT: &str = "-";

/// The request of the words of a process.
///
/// # Errors
///
/// The fault of reading the words, or of `asked_by`.
pub fn asked<W: ProcessWords>(alloc: Global, process: &W) -> Result<Request, Fault>
    ensures { IsAskedOf (W.known_words process.now) result }
{
    match process.words(alloc) {
        Ok(words) => asked_by(alloc, words.as_slice()),
        Err(fault) => Err(fault),
    }
}

/// The request of some words, of which the first is the program's own name.
///
/// # Errors
///
/// `InputTwice` exactly where the words ask for a job of which more than one file is standard input; else what `fault_of`
/// gives for the fault of `request_of`.
pub fn asked_by(alloc: Global, words: &[String]) -> Result<Request, Fault>
    ensures { IsAskedBy (map string_bytes words.now) result }
{
    let asked = match request_of(alloc, words) {
        Ok(asked) => asked,
        Err(fault) => return Err(fault_of(alloc, words, fault)),
    };
    if inputs(&asked) > 1 {
        return Err(Fault::InputTwice);
    }
    Ok(asked)
}

// How many of the files of a request are standard input.
fn inputs(request: &Request) -> u128
    ensures { result ≡ input_count request.now }
{
    let paths = &request.paths;
    let own = input(paths.program.as_str())
        + input(paths.certificate.as_str())
        + input(paths.script.as_str());
    u128::from(own) + further_inputs(request.further.as_slice())
}

// How many of these files are standard input.
fn further_inputs(names: &[String]) -> u128
    ensures value { result ≡ sum_by (λ name. input_of (string_bytes name)) names.now }
    ensures most { result ≤ length names.now }
{
    let mut count = 0;
    for name in names {
        count += u128::from(input(name.as_str()));
    }
    count
}

// 1 for the name of standard input, else 0.
fn input(name: &str) -> u32
    ensures value { result ≡ input_of name.now }
    ensures most { result ≤ 1 }
{
    u32::from(name == STANDARD_INPUT)
}

/// The fault that is reported for a usage fault of these words; `OutOfMemory` where memory for its text was refused.
pub fn fault_of(alloc: Global, words: &[String], fault: UsageFault) -> Fault
    ensures { IsFaultOf fault result }
{
    match fault {
        UsageFault::Words(error) => match UsageText::new(alloc, words, error) {
            Ok(text) if text.is_shown() => Fault::Help(text),
            Ok(text) => Fault::Words(text),
            Err(AllocError) => Fault::OutOfMemory,
        },
        UsageFault::Predict => Fault::Predict,
        UsageFault::Emit => Fault::Emit,
        UsageFault::OutOfMemory => Fault::OutOfMemory,
    }
}
