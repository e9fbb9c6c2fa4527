//! The texts of `--help` and `--version`.

/// The version of the program.
pub const VERSION: &str = "0.1.0";

/// The text of `--version` after the program's name: the version, and the toolchain that proves the program, as `rt
/// version` names it. `release/build.sh` builds with no other.
pub const VERSION_AND_TOOLCHAIN: &str = "0.1.0 (proved with rattle-kit-13f logic dac8208d650f15bf)";

/// The purpose of the program, in one line.
pub const PROGRAM: &str = "Runs and checks annotated Multiscalar programs";

/// The purpose of the program, as the long help gives it.
pub const PROGRAM_LONG: &str =
    "Runs and checks annotated Multiscalar programs: MIPS code with marks that say where each task
begins and ends, which registers it may create, and which tasks may follow it.

PROGRAM is a program text. CERT is its certificate: for each task, the registers that may still be
written from each of its instructions on. SCRIPT is a list of events, one on each line. One of these files
may be -, standard input. `check --least` and `explain` take several programs.";

/// The exit statuses, which are below every help of the program.
pub const STATUS: &str = "Exit status:
  0  accepted, nothing found wrong, printed, halted, or a replay that is still running; help; version
  1  an input refused, or marks found wrong; trapped; ended at an address that is not listed
  2  wrong usage, a file that cannot be read, out of memory, or output that cannot be written
  3  out of budget; no run found that shows what a wrong mark does
Of several programs the largest counts.

Results and refusals of inputs go to standard output; with -o FILE, results go to FILE. An error of
status 2 is one line on standard error; wrong usage is explained there.";
