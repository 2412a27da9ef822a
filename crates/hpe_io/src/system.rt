//! Adapters over the system's readers and writers. In generic code they tell nothing of what passes.
ghost use Rattle.std.specs.Prelude.{◌≡◌, ◌≤◌, ◌<◌, IfOk, IsTrue, OnErr, OnOk, [], None, length};
ghost use Rattle.std.specs.Io.KnownBytes.{Keeps, ReadConsumes};
ghost use Rattle.hpe_io.specs.Devices.{HasCause, Puts, Takes, next_count};
ghost use Rattle.hpe_io.specs.System.{PassesOn, read_faults, reader_of, write_faults, writer_of};

use crate::device::{Failed, Sink, Source};
use std::io::{Error, ErrorKind, Read, Write};

/// How many interrupted calls of the system one take or put tries again before it counts a fault.
const INTERRUPTIONS: u32 = 1_000;

/// The interruptions that a take or a put still tries again.
#[derive(Drop)]
pub(crate) struct Patience {
    left: u32,
}

impl Patience {
    pub(crate) fn new() -> Patience {
        Patience {
            left: INTERRUPTIONS,
        }
    }

    /// Whether the call that ended with this error is to be tried again.
    pub(crate) fn excuses(&mut self, error: &Error) -> bool
        ensures { IsTrue result → self.new.left < self.old.left }
    {
        if error.kind() != ErrorKind::Interrupted || self.left == 0 {
            return false;
        }
        self.left -= 1;
        true
    }
}

/// A source over a reader. A read that is interrupted is tried again; any other failure is a fault. In
/// generic code it tells nothing of its octets.
#[derive(Drop)]
pub struct OsSource<R: Read> {
    reader: R,
    faults: u64,
}

impl<R: Read> OsSource<R> {
    /// A source over this reader with no faults yet. It takes no memory.
    pub fn new(reader: R) -> OsSource<R>
        ensures reader { reader_of result ≡ reader }
        ensures faults { read_faults result ≡ 0 }
    {
        OsSource { reader, faults: 0 }
    }
}

impl<R: Read> Source for OsSource<R> {
    ghost left = { λ _. None };

    ghost faults = { λ s. s.faults };

    ghost mark = { λ _. 0 };

    ghost build = { λ _. [] };

    fn take(&mut self, into: &mut [u8]) -> Result<usize, Failed>
        requires { 0 < length into.old }
        ensures bytes { Takes None None result into.old into.new }
        ensures cause { HasCause (read_faults self.old) (read_faults self.new) result }
        ensures reader { ReadConsumes (R.remaining (reader_of self.old))
            (R.remaining (reader_of self.new)) result into.new }
        ensures ok { OnOk result (read_faults self.new ≡ read_faults self.old) }
        ensures err { OnErr result (read_faults self.new ≡ next_count (read_faults self.old)) }
    {
        match read_some(&mut self.reader, into) {
            Ok(count) => Ok(count),
            Err(failed) => {
                self.faults = self.faults.saturating_add(1);
                Err(failed)
            }
        }
    }
}

/// Reads once, and again after an interruption.
fn read_some<R: Read>(reader: &mut R, into: &mut [u8]) -> Result<usize, Failed>
    ensures fits { IfOk result (λ n. n ≤ length into.new) }
    ensures bytes { ReadConsumes (R.remaining reader.old) (R.remaining reader.new) result into.new }
{
    let mut patience = Patience::new();
    'tries: loop {
        match reader.read(into) {
            Ok(count) => return Ok(count),
            Err(error) => {
                if !patience.excuses(&error) {
                    return Err(Failed);
                }
            }
        }
    }
}

/// A sink over a writer, which is flushed in each put. A write or a flush that is interrupted is tried
/// again; any other failure is a fault, and so is a write that takes nothing. In generic code it tells
/// nothing of its octets.
#[derive(Drop)]
pub struct OsSink<W: Write> {
    writer: W,
    faults: u64,
}

impl<W: Write> OsSink<W> {
    /// A sink over this writer with no faults yet. It takes no memory.
    pub fn new(writer: W) -> OsSink<W>
        ensures writer { writer_of result ≡ writer }
        ensures faults { write_faults result ≡ 0 }
    {
        OsSink { writer, faults: 0 }
    }
}

impl<W: Write> Sink for OsSink<W> {
    ghost written = { λ _. None };

    ghost faults = { λ s. s.faults };

    ghost mark = { λ _. 0 };

    fn put(&mut self, piece: &[u8]) -> Result<(), Failed>
        requires { 0 < length piece.now }
        ensures bytes { Puts None None result piece.now }
        ensures cause { HasCause (write_faults self.old) (write_faults self.new) result }
        ensures writer { PassesOn (W.contents (writer_of self.old))
            (W.contents (writer_of self.new)) result piece.now }
        ensures ok { OnOk result (write_faults self.new ≡ write_faults self.old) }
        ensures err { OnErr result (write_faults self.new ≡ next_count (write_faults self.old)) }
    {
        match write_through(&mut self.writer, piece) {
            Ok(()) => Ok(()),
            Err(failed) => {
                self.faults = self.faults.saturating_add(1);
                Err(failed)
            }
        }
    }
}

/// Writes the whole piece and flushes.
fn write_through<W: Write>(writer: &mut W, piece: &[u8]) -> Result<(), Failed>
    ensures { PassesOn (W.contents writer.old) (W.contents writer.new) result piece.now }
{
    let mut patience = Patience::new();
    match write_out(writer, piece, &mut patience) {
        Ok(()) => flush(writer, &mut patience),
        Err(failed) => Err(failed),
    }
}

/// Writes the whole piece. A write that takes nothing is a failure.
fn write_out<W: Write>(writer: &mut W, piece: &[u8], patience: &mut Patience) -> Result<(), Failed>
    ensures { PassesOn (W.contents writer.old) (W.contents writer.new) result piece.now }
{
    let mut at = 0;
    'writes: while at < piece.len() {
        match writer.write(&piece[at..]) {
            Ok(0) => return Err(Failed),
            Ok(count) => at += count,
            Err(error) => {
                if !patience.excuses(&error) {
                    return Err(Failed);
                }
            }
        }
    }
    Ok(())
}

/// Flushes the writer.
fn flush<W: Write>(writer: &mut W, patience: &mut Patience) -> Result<(), Failed>
    ensures { Keeps (W.contents writer.old) (W.contents writer.new) }
{
    'tries: loop {
        match writer.flush() {
            Ok(()) => return Ok(()),
            Err(error) => {
                if !patience.excuses(&error) {
                    return Err(Failed);
                }
            }
        }
    }
}

#[cfg(test)]
mod tests {
    use super::*;
    use std::io;

    /// A reader that is interrupted so many times, and then fails or gives one octet a call.
    #[derive(Drop)]
    struct FakeReader {
        interruptions: u32,
        fails: bool,
    }

    impl Read for FakeReader {
        fn read(&mut self, buf: &mut [u8]) -> io::Result<usize> {
            if self.interruptions > 0 {
                self.interruptions -= 1;
                return Err(Error::from(ErrorKind::Interrupted));
            }
            if self.fails {
                return Err(Error::from(ErrorKind::Other));
            }
            if buf.is_empty() {
                return Ok(0);
            }
            buf[0] = 42;
            Ok(1)
        }
    }

    #[test]
    fn reads_on_after_interruptions(rt: HostRuntime) {
        let cases = [
            (2, false, Ok(1)),
            (1_000, false, Ok(1)),
            (1_001, false, Err(Failed)),
            (u32::MAX, false, Err(Failed)),
            (0, true, Err(Failed)),
        ];
        for (interruptions, fails, answer) in cases {
            let mut source = OsSource::new(FakeReader {
                interruptions,
                fails,
            });
            let mut into = [0u8; 2];
            assert_eq!(rt;
                source.take(&mut into),
                answer,
                "after {interruptions} interruptions"
            );
            assert_eq!(rt; into[0], if answer.is_ok() { 42 } else { 0 });
        }
    }

    /// A writer with room for so many octets, which takes one a call. It is interrupted so many times in
    /// its writes and as often in its flushes, which then may fail.
    #[derive(Drop)]
    struct FakeWriter {
        octets: [u8; 4],
        len: usize,
        room: usize,
        interrupted_writes: u32,
        interrupted_flushes: u32,
        flush_fails: bool,
    }

    impl Write for FakeWriter {
        fn write(&mut self, buf: &[u8]) -> io::Result<usize> {
            if self.interrupted_writes > 0 {
                self.interrupted_writes -= 1;
                return Err(Error::from(ErrorKind::Interrupted));
            }
            if buf.is_empty() || self.len >= self.room || self.len >= 4 {
                return Ok(0);
            }
            self.octets[self.len] = buf[0];
            self.len += 1;
            Ok(1)
        }

        fn flush(&mut self) -> io::Result<()> {
            if self.interrupted_flushes > 0 {
                self.interrupted_flushes -= 1;
                return Err(Error::from(ErrorKind::Interrupted));
            }
            if self.flush_fails {
                return Err(Error::from(ErrorKind::Other));
            }
            Ok(())
        }
    }

    #[test]
    fn writes_the_whole_piece_and_flushes(rt: HostRuntime) {
        let cases = [
            // room, interruptions of each kind, whether the flush fails, the answer and what was written
            (4, 1, false, Ok(()), [5, 6, 7, 0]),
            (4, 501, false, Err(Failed), [5, 6, 7, 0]),
            (4, 1_001, false, Err(Failed), [0, 0, 0, 0]),
            (2, 0, false, Err(Failed), [5, 6, 0, 0]),
            (0, 0, false, Err(Failed), [0, 0, 0, 0]),
            (4, 0, true, Err(Failed), [5, 6, 7, 0]),
        ];
        for (room, interruptions, flush_fails, answer, octets) in cases {
            let mut sink = OsSink::new(FakeWriter {
                octets: [0; 4],
                len: 0,
                room,
                interrupted_writes: interruptions,
                interrupted_flushes: interruptions,
                flush_fails,
            });
            assert_eq!(rt; sink.put(&[5, 6, 7]), answer, "with room for {room}");
            assert_eq!(rt; sink.writer.octets, octets);
        }
    }
}
