//! The findings of a program that are reported, and which others are reported together with each.

ghost use Rattle.std.specs.Prelude.{◌≡◌, ◌<◌, ◌-◌, ◌++◌, filter, not, take, length, IfOk, OnOk};
ghost use Rattle.std.specs.List.{find};
ghost use Rattle.std.specs.Option.{option_copied, option_to_list};
ghost use Rattle.annotator.specs.Least.{IsLeast};
ghost use Rattle.mark_diagnostics.specs.Told.{is_of_mask, told, all_told, is_register, leader, leaders, about, register_in, is_same, begins_with, is_first};

use mark_checker::check::check_surveyed;
use mark_checker::finding::{Finding, Rule};
use mark_checker::survey::Survey;
use mark_subjects::parts::first_of;
use mark_subjects::subject::{Made, Subject};
use mask_certificate::certificate::Cert;
use mips_instructions::number::Reg;
use std::alloc::Global;

/// Whether a rule says that a create mask lacks a register.
fn is_of_mask(rule: Rule) -> bool
    ensures { result ≡ is_of_mask rule }
{
    matches!(rule, Rule::ExceedsCreate | Rule::SentNotCreated)
}

/// Whether a finding is about the register of this number.
fn is_register(register: Option<Reg>, number: u8) -> bool
    ensures { result ≡ is_register register number }
{
    match register {
        Some(register) => register.get() == number,
        None => false,
    }
}

/// The first finding that says that a register is missing.
fn leader(findings: &[Finding], number: u8) -> Option<&Finding>
    ensures { option_copied result ≡ leader findings.now number }
{
    findings.iter().find(|finding| is_of_mask(finding.rule) && is_register(finding.reg, number))
}

/// Adds a finding, if there is one.
fn add(list: &mut Vec<Finding>, finding: Option<&Finding>) -> Made<()>
    ensures { OnOk result (list.new.items ≡ list.old.items ++ option_to_list (option_copied finding.entry)) }
{
    if let Some(finding) = finding {
        list.push(*finding)?;
    }
    Ok(())
}

/// For each missing register, rising, the first finding that says so.
fn leaders(alloc: Global, findings: &[Finding]) -> Made<Vec<Finding>>
    ensures { IfOk result (λ list. list.items ≡ leaders findings.now) }
{
    let mut list = Vec::new(alloc);
    for number in 0..34u8 {
        add(&mut list, leader(findings, number))?;
    }
    Ok(list)
}

/// The first finding of the create mask.
fn first_of_mask(findings: &[Finding]) -> Option<&Finding>
    ensures { option_copied result ≡ find (λ f. is_of_mask f.rule) findings.now }
{
    findings.iter().find(|finding| is_of_mask(finding.rule))
}

/// The findings of other rules.
fn others(alloc: Global, findings: &[Finding]) -> Made<Vec<Finding>>
    ensures { IfOk result (λ list. list.items ≡ filter (λ f. not (is_of_mask f.rule)) findings.now) }
{
    findings
        .iter()
        .copied()
        .filter(|finding| !is_of_mask(finding.rule))
        .collect(alloc)
}

/// The findings to report, of a task with these findings.
fn told(alloc: Global, findings: &[Finding]) -> Made<Vec<Finding>>
    ensures { IfOk result (λ list. list.items ≡ told findings.now) }
{
    let mut list = Vec::new(alloc);
    add(&mut list, first_of_mask(findings))?;
    let others = others(alloc, findings)?;
    list.extend_from_slice(&others)?;
    Ok(list)
}

/// Adds the first of some findings, as many as there is room for in a list of at most `most`.
fn add_first(list: &mut Vec<Finding>, found: &[Finding], most: usize) -> Made<()>
    ensures { OnOk result (list.new.items ≡ list.old.items ++ take (most - length list.old.items) found.now) }
{
    let room = most.saturating_sub(list.len());
    list.extend_from_slice(first_of(found, room))
}

/// The first findings to report of a surveyed program with its least certificate, at most `most`, and how many there are in
/// all. It holds the findings of one task at a time.
///
/// # Errors
///
/// `AllocError` where memory was refused.
pub fn first_told(
    alloc: Global,
    survey: &Survey<'_>,
    cert: &Cert,
    most: usize,
) -> Made<(Vec<Finding>, usize)>
    requires { IsLeast survey.now cert.now }
    ensures list { IfOk result (λ first. first.0.items ≡ take most (all_told survey.now cert.now)) }
    ensures count { IfOk result (λ first. first.1 ≡ length (all_told survey.now cert.now)) }
{
    let mut list = Vec::new(alloc);
    let mut count = 0;
    for task in 0..survey.program().tasks().len() {
        let found = check_surveyed(alloc, survey, cert, task as u32)?;
        let told = told(alloc, &found)?;
        add_first(&mut list, &told, most)?;
        count += told.len();
    }
    Ok((list, count))
}

/// The findings that are reported together with this one, of a surveyed program.
pub(crate) fn about(subject: &Subject, survey: &Survey<'_>, finding: &Finding) -> Made<Vec<Finding>>
    requires { survey.now ≡ subject.now.program }
    ensures { IfOk result (λ list. list.items ≡ about subject.now finding.now) }
{
    let alloc = subject.alloc();
    if is_of_mask(finding.rule) {
        let found = check_surveyed(alloc, survey, subject.least(), finding.task)?;
        return leaders(alloc, &found);
    }
    Ok(vec![in alloc; *finding]?)
}

/// The number of a finding's register; 0 where its rule has none.
pub(crate) fn register_in(register: Option<Reg>) -> u8
    ensures value { result ≡ register_in register }
    ensures range { result < 34 }
{
    match register {
        Some(register) => register.get(),
        None => 0,
    }
}

/// Whether two findings of a task are at one instruction, by one rule and about one register.
fn is_same(finding: &Finding, other: &Finding) -> bool
    ensures { result ≡ is_same finding.now other.now }
{
    finding.index == other.index
        && (finding.rule.number() == other.rule.number()
            && register_in(finding.reg) == register_in(other.reg))
}

/// Whether some findings begin with this one.
#[tactic(auto, unfolding(crate::specs::Told::begins_with))]
fn begins_with(findings: &[Finding], finding: &Finding) -> bool
    ensures { result ≡ begins_with findings.now finding.now }
{
    match findings {
        [first, ..] => is_same(first, finding),
        [] => false,
    }
}

/// Whether a finding of a surveyed program is told before all others of its task.
#[tactic(auto, unfolding(crate::specs::Told::is_first))]
pub(crate) fn is_first(subject: &Subject, survey: &Survey<'_>, finding: &Finding) -> Made<bool>
    requires { survey.now ≡ subject.now.program }
    ensures { IfOk result (λ first. first ≡ is_first subject.now finding.now) }
{
    let alloc = subject.alloc();
    let found = check_surveyed(alloc, survey, subject.least(), finding.task)?;
    let told = told(alloc, &found)?;
    Ok(begins_with(&told, finding))
}
