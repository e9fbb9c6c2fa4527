//! Whether the report of a job is a refusal.
ghost use Rattle.std.specs.Prelude.{◌≡◌};
ghost use Rattle.program_edge.specs.Refusals.{is_refusal, judges, last_line, refuses};

use jobs::job::Job;

/// Whether the report of a job, with this status and text, says that a text was refused, so that there is no result. For
/// `check` and `explain` a report is always a result.
pub fn is_refusal(job: &Job, status: u8, text: &[u8]) -> bool
    ensures { result ≡ is_refusal job.now status text.now }
{
    !judges(job) && status == 1 && refuses(last_line(text))
}

// Whether a job is asked what is wrong.
fn judges(job: &Job) -> bool
    ensures { result ≡ judges job.now }
{
    matches!(job, Job::Explain { .. } | Job::Check { .. })
}

// Whether a last line is one that refuses.
pub(crate) fn refuses(line: &[u8]) -> bool
    ensures { result ≡ refuses line.now }
{
    line.starts_with(b"program refused: ")
        || line.starts_with(b"certificate refused: ")
        || line.starts_with(b"script refused: ")
        || line.starts_with(b"marks refused: ")
        || line.starts_with(b"refused ")
}

// The last line of a text, with the LF that ends it.
pub(crate) fn last_line(text: &[u8]) -> &[u8]
    ensures { result.now ≡ last_line text.now }
{
    let mut line = text;
    let mut rest = text;
    while let [first, more @ ..] = rest {
        if *first == b'\n' && !more.is_empty() {
            line = more;
        }
        rest = more;
    }
    line
}
