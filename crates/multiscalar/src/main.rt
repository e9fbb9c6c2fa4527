//! The program `multiscalar`: it gives `program_edge` its two streams and the files that it may write.
#![tactic(auto)]

use program_edge::coloring::is_colorful;
use program_edge::program::run;
use result_files::system::SystemFolder;
use std::io::IsTerminal;
use std::process;
use std::process::ExitCode;

fn main(rt: HostRuntime) -> ExitCode {
    let mut folder = SystemFolder::new(&rt, rt.alloc(), process::id(rt.process()));
    let mut output = rt.stdout();
    let shows_colors = output.is_terminal() && is_colorful(&rt);
    let mut errors = rt.stderr();
    let is_terminal = errors.is_terminal();
    let status = run(
        &rt,
        &mut folder,
        &mut output,
        &mut errors,
        is_terminal,
        shows_colors,
    );
    ExitCode::from(status)
}
