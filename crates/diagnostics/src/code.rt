//! The kinds of diagnostics, with the identifiers by which other tools know them.

ghost use Rattle.std.specs.Prelude.{◌≡◌};
ghost use Rattle.diagnostics.specs.Codes.{code_id};

/// The kind of a diagnostic. Each has an identifier that stays from version to version.
#[derive(Clone, Copy, Debug, PartialEq, Eq)]
pub enum Code {
    /// Rule 1 of the checker: a task's first instruction has no mask. The rules 1 to 4 judge certificates alone.
    EntryWithoutMask,
    /// Rule 2: an instruction that comes next inside the task has no mask.
    NextWithoutMask,
    /// Rule 3: an instruction's mask lacks a register that it writes.
    LacksDestination,
    /// Rule 4: a mask lacks a register that is in the mask of an instruction that comes next inside the task.
    LacksNext,
    /// Rule 5: the mask of a task's first instruction has a register that the create mask lacks.
    ExceedsCreate,
    /// Rule 6: a register is forwarded that is in the mask of an instruction that comes next inside the task.
    ForwardedInNext,
    /// Rule 7: such a register is released.
    ReleasedInNext,
    /// Rule 8: a register is forwarded or released that the create mask lacks.
    SentNotCreated,
    /// Rule 9: a task can end by an exit to an index that is not one of its targets.
    ExitNotListed,
    /// Rule 10: a task can continue to an index that has no instruction.
    FallsOff,
    /// Rule 11: a `jr` or `jalr` does not end the task.
    IndirectGoesOn,
    /// Rule 12: no task begins at a target.
    TargetNotEntry,
    /// Fault 1 of a program text: it is too long.
    TooLong,
    /// Fault 2: a byte that no text may have.
    NotAscii,
    /// Fault 3: bytes that are no token.
    Token,
    /// Fault 4: a statement that its section does not allow.
    Mnemonic,
    /// Fault 5: operands that do not fit the statement in number or kind.
    Operand,
    /// Fault 6: a number out of its range.
    Number,
    /// Fault 7: a mark that is unknown, repeated, or on a directive.
    Mark,
    /// Fault 8: a label, or a `.task` of one name, a second time; or a second `.start`.
    Duplicate,
    /// Fault 9: a name that is no label of the wanted kind.
    Unknown,
    /// Fault 10, part 1: more instructions, tasks, targets or bytes than the limits allow.
    TooMany,
    /// Fault 10, part 2: no task.
    NoTask,
    /// Fault 10, part 3: a task's entry is no instruction.
    BadEntry,
    /// Fault 10, part 4: two tasks have one entry or one name.
    DuplicateEntry,
    /// Fault 10, part 5: a create mask has register 0.
    BadMask,
    /// Fault 10, part 6: marks that do not fit their instruction.
    BadMark,
    /// Fault 10, part 7: the program does not start where a task begins.
    BadStart,
    /// Fault 1 of a certificate's text: it does not begin with `cert 1` or `cert 2`.
    Header,
    /// Fault 2: a line has no form that a line may have, or is an entry before the first `task` line.
    Line,
    /// Fault 3: a `task` line names another task than the next one.
    TaskName,
    /// Fault 4: a task has no `task` line.
    MissingTask,
    /// Fault 5: a list does not rise, or has an index of 4,096 or more.
    Shape,
    /// A certificate that can be read, but is not one of this program text.
    Unfit,
    /// Fault 1 of an event script's text: a line spells no event.
    ScriptLine,
    /// Fault 2: a line assigns a task that the program lacks.
    ScriptTaskName,
    /// A warning: a create mask has a register that no instruction of the task writes or releases.
    NeverProduced,
    /// A warning: a last update has no forward bit.
    NotForwarded,
    /// A warning: a release names a register that was sent before.
    SentBefore,
    /// A warning: no task reaches the code from here on.
    Unreached,
    /// A warning: a task has targets, and no way through it reaches an exit.
    NoExit,
    /// A warning: a task lists a target that no exit takes.
    TargetNotTaken,
    /// A warning: a task continues, without a stop, into the first instruction of a task.
    GoesIntoTask,
    /// A warning: a jump to an address in a register is seen to lead to a place that its task does not list.
    JumpNotListed,
    /// A warning: a task lists a target to which no call is seen to return.
    NoReturn,
    /// The note that says how many more things there are than are shown.
    More,
}

impl Code {
    /// The identifier: `rule` and the rule's number, or the kind of text, the fault's number and its name.
    pub fn id(self) -> &'static str
        ensures { result.now ≡ code_id self }
    {
        match self {
            Code::EntryWithoutMask => "rule1",
            Code::NextWithoutMask => "rule2",
            Code::LacksDestination => "rule3",
            Code::LacksNext => "rule4",
            Code::ExceedsCreate => "rule5",
            Code::ForwardedInNext => "rule6",
            Code::ReleasedInNext => "rule7",
            Code::SentNotCreated => "rule8",
            Code::ExitNotListed => "rule9",
            Code::FallsOff => "rule10",
            Code::IndirectGoesOn => "rule11",
            Code::TargetNotEntry => "rule12",
            Code::TooLong => "refused-1-TooLong",
            Code::NotAscii => "refused-2-NotAscii",
            Code::Token => "refused-3-Token",
            Code::Mnemonic => "refused-4-Mnemonic",
            Code::Operand => "refused-5-Operand",
            Code::Number => "refused-6-Number",
            Code::Mark => "refused-7-Mark",
            Code::Duplicate => "refused-8-Duplicate",
            Code::Unknown => "refused-9-Unknown",
            Code::TooMany => "refused-10-Build-1-TooMany",
            Code::NoTask => "refused-10-Build-2-NoTask",
            Code::BadEntry => "refused-10-Build-3-BadEntry",
            Code::DuplicateEntry => "refused-10-Build-4-DuplicateEntry",
            Code::BadMask => "refused-10-Build-5-BadMask",
            Code::BadMark => "refused-10-Build-6-BadMark",
            Code::BadStart => "refused-10-Build-7-BadStart",
            Code::Header => "certificate-1-Header",
            Code::Line => "certificate-2-Line",
            Code::TaskName => "certificate-3-TaskName",
            Code::MissingTask => "certificate-4-MissingTask",
            Code::Shape => "certificate-5-Shape",
            Code::Unfit => "certificate-unfit",
            Code::ScriptLine => "script-1-Line",
            Code::ScriptTaskName => "script-2-TaskName",
            Code::NeverProduced => "warning-NeverProduced",
            Code::NotForwarded => "warning-NotForwarded",
            Code::SentBefore => "warning-SentBefore",
            Code::Unreached => "warning-Unreached",
            Code::NoExit => "warning-NoExit",
            Code::TargetNotTaken => "warning-TargetNotTaken",
            Code::GoesIntoTask => "warning-GoesIntoTask",
            Code::JumpNotListed => "warning-JumpNotListed",
            Code::NoReturn => "warning-NoReturn",
            Code::More => "more",
        }
    }

    /// Whether the number and the name of the fault, as the other subcommands give them, are followed by its line.
    pub(crate) fn names_line(self) -> bool {
        matches!(
            self,
            Code::NotAscii
                | Code::Token
                | Code::Mnemonic
                | Code::Operand
                | Code::Number
                | Code::Mark
                | Code::Duplicate
                | Code::Unknown
                | Code::Line
                | Code::TaskName
                | Code::ScriptLine
                | Code::ScriptTaskName
        )
    }
}
