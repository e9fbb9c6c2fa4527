//! A writer that keeps back what is not flushed, and that fails.

use crate::bench::Bench;
use jobs::job::{Job, Texts};
use std::alloc::Global;
use std::io;
use std::io::{ErrorKind, Write};
use text_pieces::text::Text;
use verdict_report::fault::ServeFault;
use verdict_report::serve::serve;

/// A writer with a buffer, as standard output may have one: what is written arrives when it is flushed, and
/// not before. It takes one byte a write.
#[derive(Drop)]
pub struct HeldBack {
    /// What was written since the last flush.
    pub held: Vec<u8>,
    arrived: Vec<u8>,
    // How many calls go well, writes and flushes, before one fails.
    room: u32,
}

impl HeldBack {
    /// A writer to which nothing was written, and which fails after `room` calls, writes and flushes.
    pub fn new(alloc: Global, room: u32) -> HeldBack {
        HeldBack {
            held: Vec::new(alloc),
            arrived: Vec::new(alloc),
            room,
        }
    }
}

impl Write for HeldBack {
    fn write(&mut self, buf: &[u8]) -> io::Result<usize> {
        if self.room == 0 {
            return Err(io::Error::from(ErrorKind::StorageFull));
        }
        self.room -= 1;
        let count = buf.len().min(1);
        self.held.extend_from_slice(&buf[..count])?;
        Ok(count)
    }

    fn flush(&mut self) -> io::Result<()> {
        if self.room == 0 {
            return Err(io::Error::from(ErrorKind::StorageFull));
        }
        self.room -= 1;
        self.arrived.append(&mut self.held)?;
        Ok(())
    }
}

// Asserts what `print` of a text with a fault answers where the writer has this room, and what arrives.
fn expect_written(
    rt: &impl Bench,
    alloc: Global,
    room: u32,
    expected: Result<u8, ServeFault>,
    arrived: &[u8],
) {
    let text = b"foo".as_slice().to_vec(alloc).ok();
    let texts = Texts {
        name: String::new(alloc),
        program: text.expect(rt, "room for a text"),
        certificate: Text::new(alloc, Vec::new(alloc)),
        script: Vec::new(alloc),
    };
    let mut writer = HeldBack::new(alloc, room);
    let print = Job::Print { listing: false };
    let answer = serve(rt, alloc, &print, &texts, &mut writer);
    assert!(rt; answer == expected, "room for {room}");
    assert!(rt; writer.arrived.as_slice() == arrived, "room for {room}");
}

// The report and its LF are 35 bytes. A flush follows: what is not flushed may be lost.
#[test]
fn fails_to_write(rt: HostRuntime) {
    for room in 0..36 {
        expect_written(&rt, rt.alloc(), room, Err(ServeFault::Write), &[]);
    }
    let report = b"program refused: 4 Mnemonic line 1\n".as_slice();
    expect_written(&rt, rt.alloc(), 36, Ok(1), report);
}
