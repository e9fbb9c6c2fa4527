//! The rules of a log: what a diagnostic can be an instance of, and where that is explained.

use diagnostics::code::Code;

/// What is wrong, or could be better, where a rule is broken: one sentence.
pub(crate) fn rule_short(code: Code) -> &'static str {
    match code {
        Code::EntryWithoutMask => "The certificate has no mask at the first instruction of a task",
        Code::NextWithoutMask =>
            "The certificate has no mask at an instruction that comes next inside a task",
        Code::LacksDestination =>
            "A mask of the certificate lacks a register that its instruction writes",
        Code::LacksNext =>
            "A mask of the certificate lacks a register that may be written from there on",
        Code::ExceedsCreate => "A task may write a register that its create mask lacks",
        Code::ForwardedInNext => "A register that is forwarded may be written again",
        Code::ReleasedInNext => "A register that is released may be written again",
        Code::SentNotCreated =>
            "A register that is forwarded or released is not in the create mask",
        Code::ExitNotListed => "A task can end at a place that is not one of its targets",
        Code::FallsOff => "A task can continue to an index that has no instruction",
        Code::IndirectGoesOn => "A task continues after a jump to an address in a register",
        Code::TargetNotEntry => "A target is not where a task begins",
        Code::TooLong => "The program is longer than 4,194,304 bytes",
        Code::NotAscii =>
            "A line of the program has a byte that is not ASCII or a control character",
        Code::Token => "A line of the program has characters that form no token",
        Code::Mnemonic => "There is no such instruction or directive",
        Code::Operand => "A statement cannot take these operands",
        Code::Number => "A number is out of its range",
        Code::Mark => "A mark is unknown, appears twice, or is on a directive",
        Code::Duplicate => "A label, a task or .start appears twice",
        Code::Unknown => "A name is no label of the kind that is wanted",
        Code::TooMany => "The program is larger than a program may be",
        Code::NoTask => "The program has no task",
        Code::BadEntry => "A task begins where there is no instruction",
        Code::DuplicateEntry => "Two tasks begin at one instruction",
        Code::BadMask => "A create mask has $0, which nothing writes",
        Code::BadMark => "An instruction cannot have its mark, or releases nothing",
        Code::BadStart => "The program starts where no task begins",
        Code::Header => "The first line is not the first line of a certificate",
        Code::Line => "A line is not a line of a certificate",
        Code::TaskName => "A line names a task that is not the program's next one",
        Code::MissingTask => "The certificate lacks a task of the program",
        Code::Shape => "The indices of a task do not rise, or one is too large",
        Code::Unfit => "The certificate does not fit the program",
        Code::ScriptLine => "A line of the event script is no event",
        Code::ScriptTaskName =>
            "A line of the event script names a task that the program does not have",
        Code::NeverProduced =>
            "A create mask has a register that no instruction of the task writes or releases",
        Code::NotForwarded => "A last update has no forward bit, or no release follows it",
        Code::SentBefore => "A release names a register that was sent before",
        Code::Unreached => "No task reaches the code from here on",
        Code::NoExit => "A task has targets, and no path in it comes to an exit",
        Code::TargetNotTaken => "A task lists a target that none of its exits takes",
        Code::GoesIntoTask =>
            "A task continues, without a stop, into the first instruction of a task",
        Code::JumpNotListed =>
            "A jump to an address in a register leads to a place that the task does not list",
        Code::NoReturn => "A task lists a target to which no call returns",
        Code::More => "There is more than is shown, or a compiler wrote the program",
    }
}

/// What kind of thing a rule is about: the word before the first `-` of its identifier, which a rule of the checker
/// lacks.
fn kind_of(code: Code) -> &'static str {
    code.id().split_once('-').map_or(code.id(), |parts| parts.0)
}

/// The section of the documents that explains a rule, as a file of the folder docs/ and an anchor in it.
pub(crate) fn rule_section(code: Code) -> &'static str {
    match kind_of(code) {
        "rule1" => "RULES.md#rule-1-the-entry-has-no-mask",
        "rule2" => "RULES.md#rule-2-an-instruction-that-comes-next-has-no-mask",
        "rule3" => "RULES.md#rule-3-a-mask-lacks-what-the-instruction-writes",
        "rule4" => "RULES.md#rule-4-a-mask-lacks-what-may-be-written-later",
        "rule5" => "RULES.md#rule-5-the-entrys-mask-exceeds-the-create-mask",
        "rule6" => "RULES.md#rule-6-a-forwarded-register-may-be-written-again",
        "rule7" => "RULES.md#rule-7-a-released-register-may-be-written-again",
        "rule8" => "RULES.md#rule-8-a-forwarded-or-released-register-is-not-in-the-create-mask",
        "rule9" => "RULES.md#rule-9-an-exit-is-not-listed",
        "rule10" => "RULES.md#rule-10-the-task-goes-on-to-an-index-without-an-instruction",
        "rule11" => "RULES.md#rule-11-an-indirect-jump-that-does-not-end-the-task",
        "rule12" => "RULES.md#rule-12-a-target-is-not-where-a-task-begins",
        "refused" => "FORMATS.md#what-is-refused",
        "certificate" if code == Code::Unfit => "RULES.md#what-a-certificate-is",
        "certificate" => "FORMATS.md#certificates",
        "script" => "FORMATS.md#event-scripts",
        "warning" => "RULES.md#warnings-marks-that-cost-speed",
        _ => "FORMATS.md#what-explain-says",
    }
}

/// How severe what breaks a rule is, in the word of the format.
pub(crate) fn rule_level(code: Code) -> &'static str {
    match kind_of(code) {
        "warning" => "warning",
        "more" => "note",
        _ => "error",
    }
}
