//! Files that several threads fetch, and readers that fail.

ghost use Rattle.std.specs.Prelude.{◌≡◌, ◌≤◌, length, take};

use std::alloc::Global;
use std::io;
use std::io::{ErrorKind, Read};
use text_pieces::positioned::PositionedFile;
use text_pieces::serial::{FetchFault, fetch};
use text_pieces::shared::fetch_shared;

// Gives one byte a read, is interrupted first, and fails at its last read.
#[derive(Drop)]
struct Worn {
    interruptions: u32,
    bytes: u32,
}

impl Read for Worn {
    fn read(&mut self, buf: &mut [u8]) -> io::Result<usize> {
        if self.interruptions > 0 {
            self.interruptions -= 1;
            return Err(io::Error::from(ErrorKind::Interrupted));
        }
        if self.bytes == 0 {
            return Err(io::Error::from(ErrorKind::Other));
        }
        match buf.first_mut() {
            Some(first) => {
                *first = 7;
                self.bytes -= 1;
                Ok(1)
            }
            None => Ok(0),
        }
    }
}

// Interruptions and bytes, and how many bytes are fetched: at most six, with which no further read is made.
const FETCHED: [(u32, u32, Result<usize, FetchFault>); 8] = [
    (0, 0, Err(FetchFault::Read(ErrorKind::Other))),
    (0, 1, Err(FetchFault::Read(ErrorKind::Other))),
    (0, 2, Err(FetchFault::Read(ErrorKind::Other))),
    (0, 3, Err(FetchFault::Read(ErrorKind::Other))),
    (0, 4, Err(FetchFault::Read(ErrorKind::Other))),
    (0, 5, Err(FetchFault::Read(ErrorKind::Other))),
    (1000, 6, Ok(6)),
    (1001, 6, Err(FetchFault::Read(ErrorKind::Interrupted))),
];

fn fetched(alloc: Global, reader: Worn) -> Result<usize, FetchFault> {
    let mut reader = reader;
    match fetch(alloc, &mut reader, 5) {
        Ok(bytes) => Ok(bytes.len()),
        Err(fault) => Err(fault),
    }
}

#[test]
fn fetches_from_worn_readers(rt: HostRuntime) {
    for &(interruptions, bytes, expected) in &FETCHED {
        let reader = Worn {
            interruptions,
            bytes,
        };
        assert!(rt; fetched(rt.alloc(), reader) == expected, "{bytes} bytes");
    }
}

// A file that is held in memory. Its positioned reads fail from an offset on, and where it is worn all others fail.
#[derive(Drop)]
pub struct HeldFile {
    bytes: Vec<u8>,
    offset: usize,
    is_worn: bool,
}

impl HeldFile {
    /// A file with these bytes, which is read from its beginning.
    pub fn new(bytes: Vec<u8>) -> HeldFile {
        HeldFile {
            bytes,
            offset: 0,
            is_worn: false,
        }
    }
}

impl Read for HeldFile {
    fn read(&mut self, buf: &mut [u8]) -> io::Result<usize> {
        if self.is_worn {
            return Err(io::Error::from(ErrorKind::Other));
        }
        let count = copy_from(&self.bytes, self.offset, buf);
        self.offset = self.offset.saturating_add(count);
        Ok(count)
    }
}

impl PositionedFile for HeldFile {
    ghost use Rattle.std.specs.Prelude.{None};

    ghost bytes = { λ _. None };

    fn size_hint(&self) -> Option<u64> {
        Some(self.bytes.len() as u64)
    }

    fn read_at(&self, buffer: &mut [u8], offset: u64) -> io::Result<usize> {
        if offset >= 200_000 {
            return Err(io::Error::from(ErrorKind::Interrupted));
        }
        Ok(copy_from(&self.bytes, offset as usize, buffer))
    }
}

// Copies what stands from an offset on, as far as there is room; returns how many bytes that was.
fn copy_from(bytes: &[u8], offset: usize, buffer: &mut [u8]) -> usize
    ensures { (result ≤ length buffer.new) × (result ≡ length (take result buffer.new)) }
{
    let from = offset.min(bytes.len());
    let count = buffer.len().min(bytes.len() - from);
    buffer[..count].copy_from_slice(&bytes[from..from + count]);
    count
}

// How many bytes a file has that is long enough to be shared out.
const LONG: usize = 300_000;

// Where a worker's part fails, one thread fetches the file, and where that fails, too, it is told.
#[test]
fn fails_in_a_part(rt: HostRuntime) {
    let mut bytes = Vec::new(rt.alloc());
    for _ in 0..LONG {
        assert!(rt; bytes.push(7).is_ok());
    }
    let mut file = HeldFile::new(bytes);
    let text = fetch_shared(&rt, rt.alloc(), &mut file, 134_217_728, 4).ok();
    let text = text.expect(&rt, "room for a text");
    assert!(rt; text.is_within(LONG) && !text.is_within(LONG - 1));
    file.is_worn = true;
    let answer = fetch_shared(&rt, rt.alloc(), &mut file, 134_217_728, 4).err();
    assert!(rt; answer == Some(FetchFault::Read(ErrorKind::Other)));
}
