//! Results that go to files: whole, or not at all.

use crate::bench::Bench;
use crate::files::HeldFile;
use crate::writers::HeldBack;
use program_edge::answer::answer_reader;
use program_edge::asked::asked_by;
use program_edge::named_files::NamedFiles;
use program_edge::unread::UnreadReason;
use result_files::folder::Folder;
use result_files::unwritten::Unwritten;
use std::alloc::Global;
use std::io;
use std::process::Abort;
use text_pieces::serial::FetchFault;

// Each file holds this text.
#[derive(Drop)]
struct SameText<'a> {
    alloc: Global,
    text: &'a str,
}

impl NamedFiles for SameText<'_> {
    ghost use Rattle.program_edge.specs.FileTexts.{Unknown};

    type File = HeldFile;

    ghost known = { λ _ _. Unknown };

    fn open(&self, _name: &str) -> io::Result<HeldFile> {
        Ok(HeldFile::new(self.text.as_bytes().to_vec(self.alloc)?))
    }

    fn why_unread(&self, _name: &str, _fault: FetchFault) -> UnreadReason {
        UnreadReason::Other
    }
}

// What a shelf does not do.
#[derive(Clone, Copy, PartialEq)]
enum Fails {
    Never,
    AtCreate,
    AtWrite,
    AtFinish,
    AtRename,
}

// A shelf with room for the file `b.s` and a new one, which is there from the time when it is made.
#[derive(Drop)]
struct Shelf {
    alloc: Global,
    old: Vec<u8>,
    new: Option<Vec<u8>>,
    fails: Fails,
    // How many names are taken that a new file may have, the first ones.
    taken: u32,
    // How many bytes a file may have.
    most: u64,
}

impl Shelf {
    fn new(rt: &impl Abort, alloc: Global, fails: Fails, taken: u32, most: u64) -> Shelf {
        let old = b"old".as_slice().to_vec(alloc).ok();
        Shelf {
            alloc,
            old: old.expect(rt, "room for a text"),
            new: None,
            fails,
            taken,
            most,
        }
    }
}

impl Folder for Shelf {
    ghost use Rattle.std.specs.Prelude.{None, false};

    type File = HeldBack;

    ghost is_watched = { false };

    ghost known = { λ _ _. None };

    fn number(&self) -> u32 {
        7
    }

    fn most_bytes(&self) -> u64 {
        self.most
    }

    fn create(&mut self, name: &str, place: &str) -> Result<HeldBack, Unwritten> {
        if self.taken > 0 {
            self.taken -= 1;
            return Err(Unwritten::InTheWay);
        }
        if self.fails == Fails::AtCreate || !name.starts_with("b.s.") || place != "b.s" {
            return Err(Unwritten::NotPermitted);
        }
        self.new = Some(Vec::new(self.alloc));
        let is_full = self.fails == Fails::AtWrite;
        let room = if is_full { 0 } else { u32::MAX };
        Ok(HeldBack::new(self.alloc, room))
    }

    fn finish(&mut self, _name: &str, file: HeldBack) -> Result<(), Unwritten> {
        if self.fails == Fails::AtFinish {
            return Err(Unwritten::Other);
        }
        self.new = Some(file.held);
        Ok(())
    }

    fn rename(&mut self, _from: &str, _to: &str) -> Result<(), Unwritten> {
        if self.fails == Fails::AtRename {
            return Err(Unwritten::NoPlainFile);
        }
        match self.new.take() {
            Some(bytes) => {
                self.old = bytes;
                Ok(())
            }
            None => Err(Unwritten::NoSuchFolder),
        }
    }

    fn remove(&mut self, _name: &str) {
        self.new = None;
    }
}

/// A program in canonical text.
const TEXT: &str = ".start A\n.task A create=- targets=-\nA:\nout $0\nhalt\n";

const LENGTH: u64 = TEXT.len() as u64;

// Words with a program text, how many names are taken, and how many bytes a file may have; what stands in `b.s` in the
// end, where `old` stood, what is written elsewhere, and the status. Left-over files of other processes may have the
// first names of a new one. A file may be as long as it may be. A refused text changes no file, however long one may be,
// but what `check` reports for it is its result.
const RESULTS: [(&str, &str, u32, u64, &str, &str, u8); 5] = [
    ("print -o b.s a.s", TEXT, 63, u64::MAX, TEXT, "", 0),
    ("print -o b.s a.s", TEXT, 0, LENGTH, TEXT, "", 0),
    ("print -o b.s a.s", "foo", 0, 0, "old", MNEMONIC, 1),
    ("check --least -o b.s a.s", "foo", 0, 99, MNEMONIC, "", 1),
    (
        "seq --budget 1 -o b.s a.s",
        TEXT,
        0,
        99,
        OUT_OF_BUDGET,
        "",
        3,
    ),
];

const MNEMONIC: &str = "program refused: 4 Mnemonic line 1\n";

const OUT_OF_BUDGET: &str = "0\nout of budget after 1 instructions\n";

// What a shelf does not do, how many names are taken, and how many bytes a file may have; the reason that is told. The
// old file stays, and there is no new one.
const FAILURES: [(Fails, u32, u64, &str); 6] = [
    (Fails::Never, 64, LENGTH, "the new file's name is taken"),
    (
        Fails::Never,
        0,
        LENGTH - 1,
        "longer than the limit on the size of files (ulimit -f)",
    ),
    (Fails::AtCreate, 0, LENGTH, "no permission to write"),
    (Fails::AtWrite, 0, LENGTH, "no space left"),
    (Fails::AtFinish, 0, LENGTH, "cannot be written"),
    (Fails::AtRename, 0, LENGTH, "is no plain file"),
];

#[test]
fn keeps_results_whole_or_not_at_all(rt: HostRuntime) {
    for &(words, text, taken, most, file, output, status) in &RESULTS {
        let shelf = Shelf::new(&rt, rt.alloc(), Fails::Never, taken, most);
        expect(
            &rt,
            rt.alloc(),
            words,
            text,
            shelf,
            file,
            output,
            "",
            status,
        );
    }
    for &(fails, taken, most, reason) in &FAILURES {
        let shelf = Shelf::new(&rt, rt.alloc(), fails, taken, most);
        expect_failed(&rt, rt.alloc(), shelf, reason);
    }
}

fn expect_failed(rt: &impl Bench, alloc: Global, shelf: Shelf, reason: &str) {
    let told = format!(in alloc; "multiscalar: file b.s: {reason}\n").ok();
    let told = told.expect(rt, "room for a line");
    expect(
        rt,
        alloc,
        "print -o b.s a.s",
        TEXT,
        shelf,
        "old",
        "",
        told.as_str(),
        2,
    );
}

// Asserts what comes of words whose files have this text.
fn expect(
    rt: &impl Bench,
    alloc: Global,
    words: &str,
    text: &str,
    shelf: Shelf,
    file: &str,
    output: &str,
    errors: &str,
    status: u8,
) {
    let mut shelf = shelf;
    let mut written = Vec::new(alloc);
    let mut told = Vec::new(alloc);
    let line = words_of(rt, alloc, words);
    let asked = asked_by(alloc, line.as_slice());
    let files = SameText { alloc, text };
    let ending = answer_reader(
        rt,
        alloc,
        asked,
        &files,
        &mut shelf,
        &mut written,
        &mut told,
        false,
    );
    assert!(rt; ending.status == status, "{words}");
    assert!(rt; written.as_slice() == output.as_bytes(), "{words}");
    assert!(rt; told.as_slice() == errors.as_bytes(), "{words}");
    assert!(rt; shelf.old.as_slice() == file.as_bytes(), "{words}");
    assert!(rt; shelf.new.is_none(), "{words}");
}

// The words of a command line, split at blanks, with the program's own name first.
fn words_of(rt: &impl Abort, alloc: Global, line: &str) -> Vec<String> {
    let mut words = Vec::new(alloc);
    push_word(rt, alloc, &mut words, "multiscalar");
    for word in line.split(' ') {
        push_word(rt, alloc, &mut words, word);
    }
    words
}

fn push_word(rt: &impl Abort, alloc: Global, words: &mut Vec<String>, word: &str) {
    let word = String::from_str(alloc, word).ok();
    let word = word.expect(rt, "room for a word");
    assert!(rt; words.push(word).is_ok());
}
