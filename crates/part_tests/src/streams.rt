//! Standard readers and writers that fail in mid-stream.

use std::io;
use std::io::{Read, Write};
use std::test::Fail;
use ws_io::{ReadEnd, StdSink, StdSource, WriteEnd, read_all, write_all};

// Gives or takes so many bytes, one by one, then fails.
#[derive(Drop)]
struct Torn {
    room: u8,
}

impl Read for Torn {
    fn read(&mut self, into: &mut [u8]) -> io::Result<usize> {
        match into.first_mut() {
            Some(first) if self.room > 0 => {
                *first = b'w';
                self.room -= 1;
                Ok(1)
            }
            _ => Err(io::Error::from(io::ErrorKind::BrokenPipe)),
        }
    }
}

impl Write for Torn {
    fn write(&mut self, piece: &[u8]) -> io::Result<usize> {
        if self.room == 0 || piece.is_empty() {
            return Ok(0);
        }
        self.room -= 1;
        Ok(1)
    }

    fn flush(&mut self) -> io::Result<()> {
        Err(io::Error::from(io::ErrorKind::BrokenPipe))
    }
}

#[test]
fn a_reader_fails_in_mid_stream(rt: HostRuntime) {
    for room in [0, 1, 3] {
        let mut source = StdSource::new(Torn { room });
        let end = read_all(rt.alloc(), &mut source, 4).err();
        assert_eq!(rt; end, Some(ReadEnd::Failed));
        assert_eq!(rt; (source.reader.room, source.faults), (0, 1));
    }
}

// A writer that takes nothing has failed, and so has one that takes the text and isn't flushed.
#[test]
fn a_writer_fails_in_mid_stream(rt: HostRuntime) {
    for (room, left) in [(0, 0), (3, 0), (4, 0), (6, 2)] {
        let mut sink = StdSink::new(Torn { room });
        assert_eq!(rt; write_all(&mut sink, b"wave"), Err(WriteEnd::Failed));
        assert_eq!(rt; (sink.writer.room, sink.faults), (left, 1));
    }
}

#[test]
fn whole_texts_are_read_and_written(rt: HostRuntime) -> Result<(), Fail> {
    let alloc = rt.alloc();
    let mut source = StdSource::new(b"wave".as_slice());
    let text = read_all(alloc, &mut source, 4)?;
    assert_eq!(rt; text.as_slice(), b"wave".as_slice());
    let mut sink = StdSink::new(Vec::new(alloc));
    write_all(&mut sink, text.as_slice())?;
    assert_eq!(rt; sink.writer.as_slice(), b"wave".as_slice());
    Ok(())
}
