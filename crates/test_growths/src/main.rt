//! Tests of public calls of the libraries, each made again where memory was refused.
//!
//! `CALL PROGRAM CERTIFICATE SCRIPT UNITS WORKERS` makes one call, named CALL, on the texts of three files. `begin` is
//! written before the call, and `end` after it, each as one write, so that another process can refuse growths in between.
//! Then a line says `refused: unchanged`, `refused: changed`, or that there was another fault; the call is made again
//! until it is not refused. After the line `answer` comes what it returned, with the state that it left. Lines that begin
//! with `note` tell what differs from run to run.
#![tactic(auto)]

mod bursts;
mod checks;
mod files;
mod given;
mod machines;
mod notes;
mod plain;
mod programs;
mod runs;
mod units;
mod watch;

use crate::checks::{OfPair, of_pair};
use crate::given::{Given, Runtime};
use crate::machines::{OfMachine, of_machine};
use crate::programs::{OfProgram, of_program};
use std::io::Read;
use std::process::ExitCode;
use std::{env, fs};

fn made(given: &Given<'_>, rt: &impl Runtime, call: &str) -> Option<()> {
    match call {
        "Memory::new" => of_program(given, OfProgram::NewMemory),
        "Plain::new" => plain::makes_plain_of_code(given),
        "Plain::step" => plain::steps_plain(given),
        "Plain::run" => plain::runs_plain(given),
        "Program::plain" => of_program(given, OfProgram::Plain),
        "assemble" => programs::assembles(given),
        "print" => of_program(given, OfProgram::Print),
        "members" => of_program(given, OfProgram::Members),
        "propose" => programs::proposes(given),
        "certify" => of_program(given, OfProgram::Certify),
        "certificate read" => of_program(given, OfProgram::ReadCertificate),
        "certificate write" => of_pair(given, OfPair::Write),
        "check_task" => of_pair(given, OfPair::CheckTask),
        "verdict" => of_pair(given, OfPair::Verdict),
        "verdict_shared" => checks::checks_shared(given, rt),
        "accepts_shared" => checks::accepts_by_several(given, rt),
        _ => made_above(given, rt, call),
    }
}

fn made_above(given: &Given<'_>, rt: &impl Runtime, call: &str) -> Option<()> {
    match call {
        "Unit::exec" => units::executes(given, true),
        "Unit::exec_ahead" => units::executes(given, false),
        "Unit::take" => units::takes(given),
        "Machine::new" => machines::makes_machine(given),
        "apply" => of_machine(given, given.units, OfMachine::Apply),
        "finish" => of_machine(given, given.units, OfMachine::Finish),
        "Burst::run" => of_machine(given, 1, OfMachine::MakeBursts),
        "apply_burst" => of_machine(given, 1, OfMachine::HandInBursts),
        "run_threads" => runs::runs_threads(given, rt),
        "fetch" => files::fetches(given),
        _ => None,
    }
}

fn file(rt: &HostRuntime, path: &str) -> Option<Vec<u8>> {
    let mut text = Vec::new(rt.alloc());
    fs::open(rt, path).ok()?.read_to_end(&mut text).ok()?;
    Some(text)
}

fn given_by<'a>(host: &'a HostRuntime, words: &[String]) -> Option<Given<'a>> {
    if words.len() < 7 {
        return None;
    }
    let units: u32 = words[5].parse().ok()?;
    let workers: u32 = words[6].parse().ok()?;
    Some(Given {
        rt: host,
        program: file(host, words[2].as_str())?,
        certificate: file(host, words[3].as_str())?,
        script: file(host, words[4].as_str())?,
        units,
        workers,
    })
}

fn work(host: &HostRuntime, rt: &impl Runtime) -> Option<()> {
    let words = env::args(host)
        .ok()?
        .collect::<Vec<String>>(host.alloc())
        .ok()?;
    let given = given_by(host, &words)?;
    made(&given, rt, words.get(1)?.as_str())
}

fn main(rt: HostRuntime) -> ExitCode {
    match work(&rt, &rt) {
        Some(()) => ExitCode::SUCCESS,
        None => ExitCode::from(2),
    }
}
