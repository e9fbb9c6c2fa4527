//! Certificates as lists.

use mips_instructions::number::RegSet;
use std::marker::Model;
use thiserror::Error;

/// The number of code indices; an entry's index is below it.
pub const CODE_INDICES: u32 = 4096;

/// Why lists are no certificate: the first position where something is wrong.
#[derive(Clone, Copy, Debug, PartialEq, Eq, Error)]
pub enum ListFault {
    /// In the list of this task, counted from 0, the entry at this position, from 0, has a code index that is
    /// not above the one before it.
    #[error("list {0}, entry {1}: its index is not above the one before it")]
    NotRising(u32, usize),
    /// In the list of this task, counted from 0, the entry at this position, from 0, has a code index of 4,096
    /// or more.
    #[error("list {0}, entry {1}: its index is 4096 or more")]
    OutOfCode(u32, usize),
}

/// A certificate: for each task a list of entries (code index, mask), the indices rising and below 4,096. The
/// mask is the set of the registers that may still be written from that instruction on, before the task ends. A
/// list may be missing, and there may be more lists than tasks.
#[derive(Debug, Drop)]
pub struct Cert {
    lists: Vec<Vec<(u32, RegSet)>>,
}

impl Model for Cert {
    ghost use Rattle.std.specs.Prelude.{◌<◌, ◌^◌, ℕ, List, length};

    ghost Value = { List (List (ℕ × ℕ)) };

    ghost use Rattle.mask_certificate.specs.Lists.{entries_of, IsCertificate};

    ghost view = { λ c. entries_of c.lists.items };

    ghost invariant = { λ c. IsCertificate (entries_of c.lists.items) × (length c.lists.items < 2 ^ 32) };
}

impl Cert {
    ghost use Rattle.std.specs.Prelude.{◌≡◌, ◌<◌, ◌^◌, ◌↔◌, None, Some, true, false, is_none, IfSome, IfNone, vec_len, MatchResult};
    ghost use Rattle.mask_certificate.specs.Lists.{entries_of, first_fault, list_of, mask_at, Rises, IsCertificate};

    /// The certificate of these lists, the list at position t for task t. Empty lists rise. There are fewer
    /// than 2^32 lists, since tasks are counted by a `u32`.
    ///
    /// # Errors
    ///
    /// What is wrong at the first faulty position, `NotRising` before `OutOfCode` where both apply, with the
    /// lists as they were.
    pub fn build(
        lists: Vec<Vec<(u32, RegSet)>>,
    ) -> Result<Cert, (Vec<Vec<(u32, RegSet)>>, ListFault)>
        requires { vec_len lists < 2 ^ 32 }
        ensures { MatchResult result
            (λ cert. (first_fault 0 (entries_of lists.items) ≡ None) × (cert ≡ entries_of lists.items))
            (λ refused. (first_fault 0 (entries_of lists.items) ≡ Some refused.1) × (refused.0 ≡ lists)) }
    {
        match first_fault_in(&lists) {
            None => Ok(Cert { lists }),
            Some(fault) => Err((lists, fault)),
        }
    }

    /// The certificate of lists that are known to be right, so none is examined. There are fewer
    /// than 2^32 lists.
    pub(crate) fn of_right(lists: Vec<Vec<(u32, RegSet)>>) -> Cert
        requires few { vec_len lists < 2 ^ 32 }
        requires right { IsCertificate (entries_of lists.items) }
        ensures { result ≡ entries_of lists.items }
    {
        Cert { lists }
    }

    /// The entries of a task, by rising code index; none where the list is missing.
    pub fn list(&self, task: u32) -> &[(u32, RegSet)]
        ensures entries { result.now ≡ list_of self.now task }
        ensures rises { Rises result.now }
        ensures certificate { IsCertificate self.now }
    {
        match self.lists.get(task as usize) {
            Some(list) => list,
            None => &[],
        }
    }

    /// The mask of a task at a code index: the registers that it may still write from there; `None` where it
    /// has none.
    pub fn mask(&self, task: u32, index: u32) -> Option<RegSet>
        ensures { result ≡ mask_at (list_of self.now task) index }
    {
        let list = self.list(task);
        match list.binary_search_by_key(&index, |entry| entry.0) {
            Ok(place) => Some(list[place].1),
            Err(_) => None,
        }
    }

    /// Whether both certificates have the same lists. Takes no memory.
    pub fn is_same(&self, other: &Cert) -> bool
        ensures { (result ≡ true) ↔ (self.now ≡ other.now) }
    {
        same_lists(&self.lists, &other.lists)
    }
}

ghost use Rattle.std.specs.Prelude.{◌≡◌, ◌<◌, ◌^◌, ◌↔◌, true, length, IfNone};
ghost use Rattle.std.specs.List.{All};
ghost use Rattle.mask_certificate.specs.Lists.{entries_of, first_fault, fault_in};
ghost use Rattle.mask_certificate.specs.Blocks.{TellsOf};

/// Whether a list is right, whichever task it is of: its indices rise and lie in the code.
pub(crate) fn is_right(list: &[(u32, RegSet)]) -> bool
    ensures { TellsOf list.now result }
{
    fault_of(0, list).is_none()
}

fn first_fault_in(lists: &[Vec<(u32, RegSet)>]) -> Option<ListFault>
    requires { length lists.now < 2 ^ 32 }
    ensures first { result ≡ first_fault 0 (entries_of lists.now) }
    ensures masks { IfNone result (All (All (λ entry. entry.1 < 2 ^ 34)) (entries_of lists.now)) }
{
    let mut task = 0;
    for list in lists {
        let fault = fault_of(task, list);
        if fault.is_some() {
            return fault;
        }
        task += 1;
    }
    None
}

fn fault_of(task: u32, list: &[(u32, RegSet)]) -> Option<ListFault>
    ensures first { result ≡ fault_in task 0 0 list.now }
    ensures masks { IfNone result (All (λ entry. entry.1 < 2 ^ 34) list.now) }
{
    let mut least = 0;
    for (place, entry) in list.iter().enumerate() {
        if entry.0 < least {
            return Some(ListFault::NotRising(task, place));
        }
        if entry.0 >= CODE_INDICES {
            return Some(ListFault::OutOfCode(task, place));
        }

        // What is written as hexadecimal digits is read again, as a mask has no bit above 33.
        let bits = entry.1.bits();
        prove!(bits < 1 << 34);
        least = entry.0 + 1;
    }
    None
}

fn same_lists(lists: &[Vec<(u32, RegSet)>], others: &[Vec<(u32, RegSet)>]) -> bool
    ensures { (result ≡ true) ↔ (entries_of lists.now ≡ entries_of others.now) }
{
    if lists.len() != others.len() {
        return false;
    }
    for (task, list) in lists.iter().enumerate() {
        if !same_entries(list, &others[task]) {
            return false;
        }
    }
    true
}

fn same_entries(list: &[(u32, RegSet)], other: &[(u32, RegSet)]) -> bool
    ensures { (result ≡ true) ↔ (list.now ≡ other.now) }
{
    list == other
}
