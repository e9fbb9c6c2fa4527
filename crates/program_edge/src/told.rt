//! The messages about faults, and the exit status.
ghost use Rattle.std.specs.Prelude.{OnOk, IfSome};
ghost use Rattle.std.specs.Io.KnownBytes.{Appends};
ghost use Rattle.result_files.specs.Writing.{Begins};
ghost use Rattle.program_edge.specs.Telling.{IsTold, file_line, line, said_of};

use crate::fault::Fault;
use crate::shown::write_shown;
use crate::unread::UnreadReason;
use result_files::unwritten::Unwritten;
use result_files::writing::write_text;
use std::io;
use std::io::Write;

/// The end of the program: its exit status, and whether it could say all that it had to say.
#[derive(Clone, Copy, Debug, PartialEq, Eq)]
pub struct Answered {
    /// The status, 0 to 3.
    pub status: u8,
    /// Whether all that the program had to say in the end was written.
    pub is_told: bool,
}

/// Reports a fault: help on standard output, any other fault on standard error. The status is 0 for help that was written
/// whole, else 2. Where the writer fails, a beginning of the message was written.
pub fn tell<O: Write, E: Write>(fault: &Fault, output: &mut O, errors: &mut E) -> Answered
    ensures { IsTold fault.now result.status result.is_told (O.contents output.old)
        (O.contents output.new) (E.contents errors.old) (E.contents errors.new) }
{
    match fault {
        Fault::Help(_) => {
            let is_told = say(fault, output).is_ok();
            Answered {
                status: if is_told { 0 } else { 2 },
                is_told,
            }
        }
        _ => Answered {
            is_told: say(fault, errors).is_ok(),
            status: 2,
        },
    }
}

// Says what a fault is, so that it has arrived: a text of `clap` as it stands, or one line.
fn say<W: Write>(fault: &Fault, writer: &mut W) -> io::Result<()>
    ensures whole { OnOk result (IfSome (said_of fault.now) (Appends (W.contents writer.old) (W.contents writer.new))) }
    ensures part { IfSome (said_of fault.now) (Begins (W.contents writer.old) (W.contents writer.new)) }
{
    write_fault(fault, writer)?;
    writer.flush()
}

// Writes what a fault says.
fn write_fault<W: Write>(fault: &Fault, writer: &mut W) -> io::Result<()>
    ensures whole { OnOk result (IfSome (said_of fault.now) (Appends (W.contents writer.old) (W.contents writer.new))) }
    ensures part { IfSome (said_of fault.now) (Begins (W.contents writer.old) (W.contents writer.new)) }
{
    match fault {
        Fault::Help(usage) | Fault::Words(usage) => write_text(usage.as_str(), writer),
        Fault::NoText => write_line("1 Words", writer),
        Fault::Predict => write_line("2 Predict", writer),
        Fault::Emit => write_line("3 Emit", writer),
        Fault::PredictValues => {
            let name =
                "2 Predict: the value of --predict is first, last, or 1 to 64 numbers 0 to 15 separated by commas, as in 1,0";
            write_line(name, writer)
        }
        Fault::EmitValues => {
            let name = "3 Emit: the value of --emit is text, cert, keep or marks";
            write_line(name, writer)
        }
        Fault::OutOfMemory => write_line("4 OutOfMemory", writer),
        Fault::InputTwice => {
            let name = "5 InputTwice: only one file can be - (standard input)";
            write_line(name, writer)
        }
        Fault::Serve(fault) => write_line(fault.name(), writer),
        Fault::File(path) => write_file(path.as_str(), writer),
        Fault::NoProgram(unread) if unread.reason == UnreadReason::IsDirectory => {
            let path = unread.path.as_str();
            write_reason(
                path,
                "is a directory; name its files, as in ",
                path,
                "/*.s",
                writer,
            )
        }
        Fault::Explained(unread) | Fault::NoProgram(unread) => {
            write_reason(unread.path.as_str(), unread.reason.words(), "", "", writer)
        }
        Fault::NotWritten(path, Unwritten::Link(file)) => {
            let reason = "is a link; name the file itself, ";
            write_reason(path.as_str(), reason, file.as_str(), "", writer)
        }
        Fault::NotWritten(path, reason) => {
            write_reason(path.as_str(), reason.words(), "", "", writer)
        }
    }
}

// Writes a line with this name of a fault.
fn write_line<W: Write>(name: &str, writer: &mut W) -> io::Result<()>
    ensures whole { OnOk result (Appends (W.contents writer.old) (W.contents writer.new) (line name.now)) }
    ensures part { Begins (W.contents writer.old) (W.contents writer.new) (line name.now) }
{
    write_text("multiscalar: ", writer)?;
    write_text(name, writer)?;
    write_text("\n", writer)
}

// Writes a line with the name of a file.
fn write_file<W: Write>(path: &str, writer: &mut W) -> io::Result<()>
    ensures whole { OnOk result (Appends (W.contents writer.old) (W.contents writer.new) (file_line path.now)) }
    ensures part { Begins (W.contents writer.old) (W.contents writer.new) (file_line path.now) }
{
    write_text("multiscalar: file ", writer)?;
    write_shown(path, writer)?;
    write_text("\n", writer)
}

// Writes why the file of this name is of no use, where another name is part of the reason, or none.
fn write_reason<W: Write>(
    path: &str,
    reason: &str,
    other: &str,
    rest: &str,
    writer: &mut W,
) -> io::Result<()> {
    write_text("multiscalar: file ", writer)?;
    write_shown(path, writer)?;
    write_text(": ", writer)?;
    write_text(reason, writer)?;
    write_shown(other, writer)?;
    write_text(rest, writer)?;
    write_text("\n", writer)
}
