//! The program, but for its two streams and the files that it writes.
ghost use Rattle.program_edge.specs.Answering.{IsRunOf};

use crate::answer::answer_reader;
use crate::asked::asked;
use crate::coloring::settle_asked;
use crate::named_files::NamedFiles;
use crate::words::ProcessWords;
use result_files::folder::Folder;
use std::io::Write;
use std::marker::Sync;
use std::sync::Wait;
use std::thread::Threads;

/// Runs the program on the words and the files of a process, and returns its exit status, 0 to 3. A result may go to a
/// file of `folder`. `is_terminal` tells whether `errors` is a terminal, and `shows_colors` whether `output` is one that
/// shows colours.
pub fn run<
    R: ProcessWords + NamedFiles + AllocGlobal + Threads + Wait + Sync,
    D: Folder,
    O: Write,
    E: Write,
>(
    rt: &R,
    folder: &mut D,
    output: &mut O,
    errors: &mut E,
    is_terminal: bool,
    shows_colors: bool,
) -> u8
    ensures { IsRunOf D.is_watched is_terminal (R.known_words rt.now) (R.known rt.now) result
        record { output = O.contents output.old; errors = E.contents errors.old; files = D.known folder.old }
        record { output = O.contents output.new; errors = E.contents errors.new; files = D.known folder.new } }
{
    let alloc = rt.alloc();
    let asked = asked(alloc, rt);
    let settled = settle_asked(asked, shows_colors);
    answer_reader(rt, alloc, settled, rt, folder, output, errors, is_terminal).status
}
