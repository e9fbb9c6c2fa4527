//! Tests of the program on the command lines of tables of examples, which are in the folder `rows`.
//!
//! For each table a line says how many command lines were run; before it comes each command line whose output differs from
//! its row, with the actual output. The table `wrong` has rows that are wrong on purpose, and lines that are no rows.
//! Where all is as it should be, the program does last what its own words ask for, on the two streams of the process and
//! with its status: a file is missing, so it writes nothing to standard output.
#![tactic(auto)]

mod expected;
mod lines;
mod rows;
mod tables;

use crate::rows::{NUMBER, Runtime};
use crate::tables::run_table;
use program_edge::program::run;
use result_files::system::SystemFolder;
use std::io::Write;
use std::process::ExitCode;
use std::{fs, io};

fn main(rt: HostRuntime) -> ExitCode {
    match run_tables(&rt, &rt, &mut rt.stdout()) {
        Ok(true) => {}
        Ok(false) | Err(_) => return ExitCode::FAILURE,
    }
    let mut folder = SystemFolder::new(&rt, rt.alloc(), NUMBER);
    let status = run(
        &rt,
        &mut folder,
        &mut rt.stdout(),
        &mut rt.stderr(),
        false,
        false,
    );
    ExitCode::from(status)
}

// Runs all tables of the folder `rows`, and then the table `wrong`; whether only the latter has faults.
fn run_tables(host: &HostRuntime, rt: &impl Runtime, told: &mut impl Write) -> io::Result<bool> {
    let mut is_right = true;
    for path in &tables_of(host, "rows")? {
        is_right = run_table(host, rt, path.as_str(), told)? && is_right;
    }
    let finds_faults = !run_table(host, rt, "wrong", told)?;
    Ok(is_right && finds_faults)
}

// The files of a folder, in the order of their names.
fn tables_of(rt: &HostRuntime, folder: &str) -> io::Result<Vec<String>> {
    let mut paths = Vec::new(rt.alloc());
    for entry in fs::read_dir(rt, folder)? {
        let entry = entry?;
        paths.push(format!(in rt.alloc(); "{folder}/{}", entry.file_name())?)?;
    }
    paths.sort()?;
    Ok(paths)
}
