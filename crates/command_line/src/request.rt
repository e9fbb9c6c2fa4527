//! The request of a command line.

use jobs::job::{Job, Paths};

/// The request of a command line: a job, and where its texts come from and its results go.
#[derive(Debug, Drop)]
pub struct Request {
    /// The job.
    pub job: Job,
    /// The names of its files.
    pub paths: Paths,
    /// The file that takes the result; `None` for standard output.
    pub output: Option<String>,
    /// The file that takes the program's text with fixes, of `explain --fix`; `None` where that is not asked for. The
    /// report then goes to standard output: `output` is `None`, and there is no log for tools.
    pub fixes: Option<String>,
    /// The names of further programs, in the order of the words, each of which gets the job, too: of `check --least` and
    /// of `explain`; of every other job none. Where there is one, the job has no certificate in a file and no script, and
    /// `output` and `fixes` are `None`.
    pub further: Vec<String>,
    /// Whether `annotate` is to put the releases that pay into the text that it writes; for every other job, and another
    /// text than the author's own with the proposed marks, no.
    pub releases: bool,
    /// Whether standard error is to report what `annotate` leaves to mend by hand; for every other job, no.
    pub report: bool,
    /// Whether standard error is to report each run of `curve` when it is done; for every other job, no.
    pub progress: bool,
}
