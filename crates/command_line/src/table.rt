//! The subcommands and their arguments, with what `--help` says of them. A new argument is a row here, and is read in
//! `job.rt`.

use limits::ranges::{MOST_BUDGET, MOST_UNITS, MOST_WORKERS};

/// Who writes the usage of a subcommand below its faults and its help.
#[derive(Clone, Copy, Debug, PartialEq, Eq)]
pub(crate) enum UsageBy {
    /// `clap`, for a fault that it finds itself.
    Clap,
    /// The row.
    Row,
}

/// A subcommand: its name, what it does in one line, who writes its usage, its usage, and what it does.
pub(crate) type SubcommandRow = (
    &'static str,
    &'static str,
    UsageBy,
    &'static str,
    &'static str,
);

/// What an argument takes.
#[derive(Clone, Copy, Debug)]
pub(crate) enum Kind {
    /// A file in this place, which has to be named. Here and below, the first text is what `--help` calls the value.
    File(&'static str),
    /// A file in this place, which need not be named.
    FreeFile(&'static str),
    /// As many files as there are.
    Files(&'static str),
    /// An option without a value.
    Flag,
    /// An option with a file, which has a letter, too.
    Lettered(&'static str, char),
    /// An option with a word, which need not be given.
    FreeWord(&'static str),
    /// An option with a word, and the word that it has where it is not given.
    Word(&'static str, &'static str),
    /// An option with a number from 1 to this, which need not be given.
    FreeNumber(u32),
    /// An option with a number from 1 to this, and the number that it has where it is not given.
    Number(u32, &'static str),
}

/// An argument: the subcommands that have it, its name, what it takes, and what `--help` says of it. An option
/// begins with `--` and its name.
pub(crate) type ArgumentRow = (&'static str, &'static str, Kind, &'static str);

/// The subcommands, in the order of the help.
pub(crate) static SUBCOMMANDS: [SubcommandRow; 9] = [
    (
        "seq",
        "Runs a program, one instruction after another",
        UsageBy::Clap,
        "multiscalar seq [OPTIONS] <PROGRAM>",
        "Runs a program on the sequential machine, one instruction after another. Marks have no effect.

Writes the values that `out` prints, in decimal, one on each line, and then how the run ended:
  halted after N instructions
  trapped K Name after N instructions
  out of budget after N instructions

For example:
  multiscalar seq program.s",
    ),
    (
        "print",
        "Writes a program in canonical text",
        UsageBy::Clap,
        "multiscalar print [OPTIONS] <PROGRAM>",
        "Writes a program in canonical text, which denotes the same program. Of a file that is not a program
it writes the first error and its line:
  program refused: K Name line N

With `--listing` it writes a table instead, with a row for each instruction of each task:
  index  address  line  task  mask
`index` counts the program's instructions from 0, as a certificate and `check` do; `address` is what `la` and
jump tables have; `mask` is the set of registers that the task may still write from there on, as in the least
certificate. An instruction of no task has - for both.

For example:
  multiscalar print program.s
  multiscalar print --listing program.s",
    ),
    (
        "annotate",
        "Proposes a program's marks, or its certificate",
        UsageBy::Row,
        "multiscalar annotate [OPTIONS] <PROGRAM>",
        "Proposes which registers each task creates and where values are forwarded; stops, releases and
targets stay as they are. The proposal is not trusted: `check` judges it like any other.

With `--emit marks` it writes your own text with the proposed create masks and forward bits; comments,
labels and layout stay as they are. With `--in-place` that text replaces PROGRAM.

With `--releases` it also puts `release` instructions into your text: where a task comes on a way on which it
writes a register no more, and would send it only where it ends. They are judged: with them the marks must be
right, and a run in steps on 4 units must put out the same in fewer steps. Else nothing is put in.

Stops, releases and targets remain yours to correct. With `--report` standard error gets the errors of the
proposed program, as `explain` reports them, and one of these lines:
  multiscalar: PROGRAM: N left to fix by hand
  multiscalar: PROGRAM: all marks are right
With `--releases` a line before says whether releases were put in, and how many steps the run takes.
If standard error is a terminal, it gets these without `--report`, unless all marks are right.

For example, a certificate of the program as it is, and the program with the proposed marks:
  multiscalar annotate --emit keep program.s
  multiscalar annotate --emit marks -o right.s program.s
  multiscalar annotate --releases --report -o fast.s program.s",
    ),
    (
        "explain",
        "Reports which of a program's marks are wrong, and why",
        UsageBy::Row,
        "multiscalar explain [OPTIONS] <PROGRAM>...",
        "Reports which of a program's marks are wrong, and why. It makes the least certificate itself, so it
reports an error exactly if the marks are wrong.

An error has the form that compilers use: what is wrong, a path that shows it (unless none does), and what to do:
  FILE:LINE:COLUMN: error: .. [rule R]
  FILE:LINE:COLUMN: note: ..
  FILE:LINE:COLUMN: help: ..
Of a file that is not a program it reports the mistakes, and what would be right:
  FILE:LINE:COLUMN: error: .. [K Name line N]
  FILE:LINE:COLUMN: help: ..
If the marks are right, it warns of marks that cost speed, of releases that may be forgotten, and of code that no
task reaches:
  FILE:LINE:COLUMN: warning: ..
  FILE:LINE:COLUMN: help: ..

With `--certificate FILE` it also explains why that file is not a certificate of the program, and how to make
a new one; with `--script FILE` why that file is not a script of events.

With `--fix` your program with the judged fixes goes to the file of `--output` or, with `--in-place`, replaces
PROGRAM; the rest of it is unchanged. Standard error says how many fixes were made and what is left. The exit
status is what `explain` gives for the new program:
  multiscalar: PROGRAM: N fixes applied, all marks are right
  multiscalar: PROGRAM: N fixes applied, M errors left

Several programs are explained one after another, and a last line counts them:
  4 programs: 2 right, 1 wrong, 1 not judged
A file that cannot be read is not judged; the others are. `--certificate`, `--script`, `--output` and `--fix`
work only with a single program. With `--format sarif` there is one log of all programs, and with
`--format json` the objects of all; neither has the last line.

The exit status is 0 if there is no error (warnings count only with `--werror`), 1 if there is one, and 2 if a
file cannot be read; the reason goes to standard error:
  multiscalar: file FILE: no such file

For example:
  multiscalar explain program.s
  multiscalar explain --fix -o fixed.s program.s
  multiscalar explain --certificate program.cert --script program.events program.s
  multiscalar explain --werror --format sarif one.s two.s > findings.sarif
  multiscalar explain --color always program.s | less -R",
    ),
    (
        "check",
        "Checks a program's marks with its certificate",
        UsageBy::Row,
        "multiscalar check [OPTIONS] PROGRAM CERT
       multiscalar check [OPTIONS] --least PROGRAM...",
        "Checks that a program's marks are right, with its certificate. Writes
  accepted T tasks N instructions
or one line for each finding, and then their number:
  TASK INDEX rule R $REG
  refused COUNT
`-` stands for no register. Of a file that is not a certificate it writes the first error, and for errors 2
and 3 the line:
  certificate refused: K Name LINE

With `--least` it makes the certificate itself, as `annotate --emit keep` does, and takes any number of
programs. Of several programs, each line begins with the program's name, and a last line counts them:
  PROGRAM: accepted T tasks N instructions
  4 programs: 2 right, 1 wrong, 1 not judged
A file that cannot be read is not judged, and the reason goes to standard error; the others are checked.
`--output` works only with a single program.

With `--format json` it writes a JSON object on each line instead: one for each finding, and then one for the
verdict. Of several programs each object names its file, and there is no last line that counts them.

For example:
  multiscalar check program.s program.cert
  multiscalar check --least program.s
  multiscalar check --least --format json one.s two.s",
    ),
    (
        "replay",
        "Applies a script of events to a machine",
        UsageBy::Row,
        "multiscalar replay [OPTIONS] PROGRAM CERT SCRIPT
       multiscalar replay [OPTIONS] --least PROGRAM SCRIPT",
        "Applies a script of events to a machine, after the check. SCRIPT has one event on each line, where K is
a position in the queue of tasks, 0 for the head, and R a register, 0 to 33:
  assign NAME     a free unit takes the task, after the youngest
  exec K          one instruction
  transfer K $R   the register arrives from the task before
  drain K $R      a task that has stopped sends a register of its create mask
  squash K        the tasks after it are removed: the next one was predicted wrongly
  retire          the head is done and leaves
  fault           the head has stopped at an address that is none of its targets
  drop K          the task and all after it are removed

Writes for each event, numbered from 1,
  N ok
  N refused K Name
with the register if one is waited for. A refused event changes nothing. Then come the values that `out`
printed, and
  retired T c C h H
for T retired tasks with C instructions, H with those of the head, and the state of the run: running, halted,
trapped K Name or unlisted ADDRESS. Of a file that is not a script it writes the first error and its line:
  script refused: K Name LINE

With `--strict` it judges the script instead, as a log of another simulator. A colon may follow an event, and
then what it must have done, separated by commas: `$9=7` (the register becomes this value), `sends $9=7` (it
is sent with this value), `[0x10010000]=5` (this value is loaded from there or stored there), `out=10`,
`stops 0x00400010`, and how it ended the run: `ends halted`, `ends trapped K Name` or `ends unlisted ADDRESS`.
Empty lines, comments from `#` on and lines such as `step 3` are skipped. With status 1 it writes the first
line that departs from the machine, what the event did and the state of each unit then; with status 0
  as expected: N events; STATE OF THE RUN
and, where the script leaves out effects of its events, how many:
  not listed: N effects of these events
With `--complete` such a line departs, and so does the end of a script whose run has not ended.

For example:
  multiscalar replay --least --units 2 program.s program.events",
    ),
    (
        "run",
        "Runs a program on several units, by threads or in steps",
        UsageBy::Row,
        "multiscalar run [OPTIONS] PROGRAM CERT
       multiscalar run [OPTIONS] --least PROGRAM",
        "Runs a program on a machine of several units, by threads, after the check. Each unit takes one task. The
head, the oldest task, is sure to be the right one; the others are predicted, run ahead, and are squashed if
the prediction was wrong. The order of the threads makes no difference to the result: a run that halts prints
what `seq` prints.

Writes the values that `out` prints, in decimal, one on each line, and then how the run ended, as `replay`
writes it:
  retired T c C h H
  halted, trapped K Name or unlisted ADDRESS
A run that reached its budget has one line in place of these two:
  out of budget

`--emit script` writes the events instead, one on each line, for `replay` on as many units:
  multiscalar run --least --units 2 --emit script program.s > program.events
  multiscalar replay --least --units 2 program.s program.events
With `--with-values` each event also says what it did, for `replay --strict` and other simulators.

`--emit summary` writes a table, with a row for each task and one for all of them:
  assigned  retired  squashed  dropped  unfinished  useful  wasted  task
`assigned` counts how often the task was assigned, and the next four how that ended; `useful` counts the
instructions of those that retired, `wasted` the instructions of those that were squashed or dropped.

`--schedule steps` makes no threads: in each step every unit does at most one event. The run then depends only
on the program, the number of units, the predictor and the budget. The summary ends with the number of steps
and of the instructions that retired in them: how far the marks let tasks overlap. Steps do not model the
time of a processor. `--emit waits` says why units stalled, the most frequent reason first: in how many steps
which task, at which line, needed which register from which task, or its turn as head.

For example:
  multiscalar run --least program.s
  multiscalar run --least --emit svg program.s > program.svg
  multiscalar run --least --schedule steps --emit summary program.s
  multiscalar run --least --schedule steps --emit vcd program.s > program.vcd
  multiscalar run --least --units 8 --predict last --emit perfetto program.s > program.json",
    ),
    (
        "curve",
        "Runs a program in steps on 1, 2, 3 units and more, and compares the runs",
        UsageBy::Row,
        "multiscalar curve [OPTIONS] PROGRAM CERT
       multiscalar curve [OPTIONS] --least PROGRAM",
        "Runs a program on machines of 1, 2, 3 units and more, after the check, each time in steps, as
`run --schedule steps` does. Writes a table with a row for each run, which shows how much more the marks let
tasks overlap with each further unit:
  units  steps  retired  per step  speed-up  wasted  end
`retired` counts the instructions of the tasks that retired, and `per step` divides them by the steps.
`speed-up` divides the steps on one unit by those of the run; it is - unless both runs ended and an
instruction retired. `wasted` is the share of instructions, in percent, that belong to tasks that were
squashed or dropped. `end` is halted, trapped, unlisted or out of budget. Decimals are rounded to the nearest.

`--progress` says on standard error when a run is done, since a large budget on many units takes time:
  multiscalar: PROGRAM: N of M runs

Equal command lines give equal tables. Steps do not model the time of a processor: each instruction takes one
step, and so does a register from one unit to the next.

If every run halted, the exit status is 0, else the status of the first run that did not.

For example:
  multiscalar curve --least --units 4 program.s
  multiscalar curve --least --progress --emit svg program.s > curve.svg",
    ),
    (
        "demonstrate",
        "Looks for a run that shows what a wrong mark does",
        UsageBy::Row,
        "multiscalar demonstrate [OPTIONS] <PROGRAM>",
        "Looks for a run that shows what a wrong mark does, such as one in which a task reads a stale register. It
takes the program's marks as they are and needs no certificate. It tries machines of 2 units, of 3, and so on
up to --units, and at last one of a single unit, in runs of up to --steps events.

If it finds such a run, the exit status is 1. It writes the events, one on each line, and then what is wrong:
the task and the line that read the register, the value that was read, and the value that the sequential
program reads there.

If the marks are right, no run shows anything: it says so, with status 0. If they are wrong and it finds no
such run, it says so, with status 3; perhaps no run takes the path on which a mark is wrong. `explain` reports
which marks are wrong, and on which path.

For example:
  multiscalar demonstrate program.s
  multiscalar demonstrate --emit svg program.s > harm.svg",
    ),
];

/// The arguments, in the order of the help. Files stand in the places that this order gives them.
pub(crate) static ARGUMENTS: [ArgumentRow; 46] = [
    (
        "seq print annotate explain check replay run curve demonstrate",
        "program",
        Kind::File("PROGRAM"),
        "The program",
    ),
    (
        "explain",
        "further",
        Kind::Files("PROGRAM"),
        "Further programs, each explained in turn",
    ),
    (
        "explain",
        "certificate",
        Kind::FreeWord("FILE"),
        "A certificate of the program, which is also explained",
    ),
    (
        "check",
        "certificate",
        Kind::Files("FILE"),
        "The certificate of the program; with --least further programs",
    ),
    (
        "replay",
        "certificate",
        Kind::FreeFile("CERT"),
        "The certificate of the program; with --least the script",
    ),
    (
        "run curve",
        "certificate",
        Kind::FreeFile("CERT"),
        "The certificate of the program; none with --least",
    ),
    (
        "explain",
        "script",
        Kind::FreeWord("FILE"),
        "A script of events, which is also explained",
    ),
    (
        "replay",
        "script",
        Kind::FreeFile("SCRIPT"),
        "The events, one on each line",
    ),
    (
        "explain",
        "no-warnings",
        Kind::Flag,
        "Leaves out warnings of marks that are right but cost speed",
    ),
    (
        "explain",
        "werror",
        Kind::Flag,
        "Lets a warning count as an error: the exit status is 1",
    ),
    (
        "explain",
        "format",
        Kind::Word("HOW", "text"),
        "How the result is laid out: text (for people), sarif (a log in SARIF 2.1.0) or json (a JSON object on
each line)",
    ),
    (
        "check",
        "format",
        Kind::Word("HOW", "text"),
        "How the result is laid out: text or json (a JSON object on each line: one for each finding, then one for
the verdict)",
    ),
    (
        "print",
        "listing",
        Kind::Flag,
        "Writes a table of the program's instructions instead, with their addresses, lines, tasks and masks",
    ),
    (
        "explain",
        "color",
        Kind::Word("WHEN", "auto"),
        "Whether the text for people has colours: auto (where standard output is a terminal and takes them,
and the environment variable NO_COLOR is not set or is empty), always or never",
    ),
    (
        "explain",
        "fix",
        Kind::Flag,
        "Writes your program with the judged fixes to the file of --output or, with --in-place, to PROGRAM",
    ),
    (
        "check replay run curve",
        "least",
        Kind::Flag,
        "Makes the least certificate of the program as it is, in place of CERT",
    ),
    (
        "run",
        "schedule",
        Kind::Word("HOW", "threads"),
        "How the units take turns: threads (in any order) or steps (on one thread; in each step every unit does at
most one event: the same run every time)",
    ),
    (
        "replay run",
        "units",
        Kind::Number(MOST_UNITS, "4"),
        "How many units the machine has, 1 to 16",
    ),
    (
        "curve demonstrate",
        "units",
        Kind::Number(MOST_UNITS, "16"),
        "The largest number of units, 1 to 16",
    ),
    (
        "check",
        "workers",
        Kind::Number(MOST_WORKERS, "1"),
        "How many threads share the check, 1 to 16",
    ),
    (
        "run",
        "workers",
        Kind::FreeNumber(MOST_WORKERS),
        "How many threads serve the units, 1 to 16; never more than units

[default: one for each unit]",
    ),
    (
        "seq",
        "budget",
        Kind::Number(MOST_BUDGET, "1000000"),
        "The largest number of instructions, 1 to 1000000",
    ),
    (
        "run",
        "budget",
        Kind::Number(MOST_BUDGET, "1000000"),
        "How many events end the run, 1 to 1000000",
    ),
    (
        "curve",
        "budget",
        Kind::Number(MOST_BUDGET, "1000000"),
        "How many events end a run, 1 to 1000000",
    ),
    (
        "demonstrate",
        "steps",
        Kind::Number(MOST_BUDGET, "10000"),
        "The largest number of events of each run, 1 to 1000000",
    ),
    (
        "run curve",
        "predict",
        Kind::Word("HOW", "first"),
        "Which target to predict after a running task: first, last, or 1 to 64 numbers 0 to 15 separated by
commas, taken in turn, as in 1,0: the second target, the first, the second, and so on. A number counts modulo
the number of targets",
    ),
    (
        "annotate",
        "emit",
        Kind::FreeWord("WHAT"),
        "What to write: text (the proposed program), cert (its certificate), keep (the certificate of the
program as it is) or marks (your own text with the proposed marks)

[default: text; with --in-place or --releases: marks]",
    ),
    (
        "replay",
        "emit",
        Kind::Word("WHAT", "answers"),
        "What to write: answers (the machine's answer to each event, and the state of the run), summary (how often
each task was assigned, and how that ended), svg (the allowed events as a picture), trace (each event with its
answer and what it changed), json (the same as JSON, an object on each line), perfetto (a timeline for
ui.perfetto.dev and other viewers of traces) or state (of the run and of each unit, at the end)",
    ),
    (
        "run",
        "emit",
        Kind::Word("WHAT", "report"),
        "What to write: report (the output, and how the run ended), script (the events of the run), summary (how
often each task was assigned, and how that ended), svg (a picture: a lane for each unit, a bar for each task on
it), trace (each event with what it changed), json (the same as JSON, an object on each line), perfetto (a
timeline for ui.perfetto.dev and other viewers of traces) or, with --schedule steps, waits (in how many steps
which task waited where, and for what), vcd (the state of each unit in each step, for viewers of waveforms) or
kanata (each instruction of each task, for the pipeline viewer Konata)",
    ),
    (
        "curve",
        "emit",
        Kind::Word("WHAT", "table"),
        "What to write: table (a row for each run) or svg (the runs as a picture)",
    ),
    (
        "demonstrate",
        "emit",
        Kind::Word("WHAT", "events"),
        "What to write: events (one on each line, and then what is wrong) or svg (a picture of the run)",
    ),
    (
        "replay",
        "until",
        Kind::FreeNumber(MOST_BUDGET),
        "Plays only the first N events of the script, 1 to 1000000

[default: all events]",
    ),
    (
        "replay",
        "strict",
        Kind::Flag,
        "Judges a script that lists what its events must have done",
    ),
    (
        "replay",
        "complete",
        Kind::Flag,
        "The script must list all that its events did, and end its run; goes with --strict",
    ),
    (
        "replay",
        "format",
        Kind::FreeWord("HOW"),
        "How the verdict of --strict is laid out: text (for people) or json (a JSON object); or the table of
--emit summary: text or csv (comma separated values, without sums)

[default: text]",
    ),
    (
        "run",
        "format",
        Kind::FreeWord("HOW"),
        "How the table of --emit summary or waits is laid out: text (for people) or csv (comma separated values,
without sums)

[default: text]",
    ),
    (
        "curve",
        "format",
        Kind::FreeWord("HOW"),
        "How the table is laid out: text (for people) or csv (comma separated values)

[default: text]",
    ),
    (
        "run",
        "axis",
        Kind::FreeWord("WHAT"),
        "With --emit svg: what the columns of the picture are, events or, with --schedule steps, steps

[default: steps with --schedule steps, else events]",
    ),
    (
        "run",
        "from",
        Kind::FreeNumber(MOST_BUDGET),
        "With --emit svg and --schedule steps: the first step that is drawn, 1 to 1000000

[default: the run's first]",
    ),
    (
        "run",
        "to",
        Kind::FreeNumber(MOST_BUDGET),
        "With --emit svg and --schedule steps: the last step that is drawn, 1 to 1000000

[default: the run's last]",
    ),
    (
        "run",
        "with-values",
        Kind::Flag,
        "With --emit script: each event also lists what it did, for replay --strict",
    ),
    (
        "curve",
        "progress",
        Kind::Flag,
        "Reports each finished run on standard error",
    ),
    (
        "seq print annotate explain check replay run curve demonstrate",
        "output",
        Kind::Lettered("FILE", 'o'),
        "Writes the result to FILE, whole or not at all; without a result FILE is unchanged",
    ),
    (
        "annotate explain",
        "in-place",
        Kind::Flag,
        "Writes the program with the proposed marks or the fixes to PROGRAM itself, whole or not at all",
    ),
    (
        "annotate",
        "releases",
        Kind::Flag,
        "Also puts in the releases that make a run on 4 units shorter; goes with --emit marks",
    ),
    (
        "annotate",
        "report",
        Kind::Flag,
        "Reports on standard error what is left to correct by hand",
    ),
];
