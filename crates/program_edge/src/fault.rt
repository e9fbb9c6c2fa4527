//! The reason why the program does no job.

use crate::unread::Unread;
use crate::usage::UsageText;
use result_files::unwritten::Unwritten;
use verdict_report::fault::ServeFault;

/// The reason why the program does no job. It reports the reason, and ends with status 2, or 0 for help and the version.
#[derive(Debug, Drop)]
pub enum Fault {
    /// The words ask for help or for the version, which is this text.
    Help(UsageText),
    /// The words give no job; the text says why.
    Words(UsageText),
    /// A word is no text.
    NoText,
    /// `--predict` has a value that is none.
    Predict,
    /// `--emit` has a value that is none.
    Emit,
    /// `--predict` has a value that is none; the message lists the right ones.
    PredictValues,
    /// `--emit` has a value that is none; the message lists the right ones.
    EmitValues,
    /// Memory ran out before the files were read.
    OutOfMemory,
    /// More than one file of the job is standard input.
    InputTwice,
    /// The file of this path can't be read, or is too long.
    File(String),
    /// The certificate or the script of `explain` can't be read, or is too long, for this reason.
    Explained(Unread),
    /// The program of `explain` or of `check --least` can't be read, for this reason; of a folder the message also says
    /// how to name its files.
    NoProgram(Unread),
    /// The job was not done.
    Serve(ServeFault),
    /// The result could not be written to the file of this path.
    NotWritten(String, Unwritten),
}
