use crate::{
    Bytes, Clock, Copied, MemClock, MemSink, MemSource, Put, ReadAll, Seq, Sink, Source, StdClock,
    StdSink, StdSource, Taken, WriteAll, read_all, write_all,
};
use std::io;
use std::io::{ErrorKind, Read, Write};
use std::test::Fail;

// A reader and a writer that meet a signal at their first call, an error at their third, and move one byte a call.
#[derive(Drop)]
struct Unsteady {
    call: u8,
}

impl Unsteady {
    fn step(&mut self) -> io::Result<()> {
        self.call = self.call.saturating_add(1);
        match self.call {
            1 => Err(ErrorKind::Interrupted.into()),
            3 => Err(ErrorKind::Other.into()),
            _ => Ok(()),
        }
    }
}

impl Read for Unsteady {
    fn read(&mut self, buf: &mut [u8]) -> io::Result<usize> {
        self.step()?;
        if buf.is_empty() || self.call > 4 {
            return Ok(0);
        }
        buf[0] = self.call;
        Ok(1)
    }
}

impl Write for Unsteady {
    fn write(&mut self, buf: &[u8]) -> io::Result<usize> {
        self.step()?;
        if self.call > 4 {
            return Ok(0);
        }
        Ok(buf.len().min(1))
    }

    fn flush(&mut self) -> io::Result<()> {
        Ok(())
    }
}

#[test]
fn a_source_in_memory_fails_at_its_numbers_and_takes_nothing_then(
    rt: HostRuntime,
) -> Result<(), Fail> {
    let alloc = rt.alloc();
    let failing = vec![in alloc; 0u64, 2]?;
    let mut source = MemSource::new(Bytes::from_slice(alloc, b"abc")?, 1, failing);
    let mut buf = [0u8; 4];
    assert_eq!(rt; source.read(&mut buf), Taken::Failed);
    assert_eq!(rt; source.read(&mut buf), Taken::Got(1));
    assert_eq!(rt; buf, *b"a\0\0\0");
    assert_eq!(rt; source.read(&mut buf), Taken::Failed);
    assert_eq!(rt; source.read(&mut []), Taken::Got(0));
    assert_eq!(rt; source.read(&mut buf), Taken::Got(1));
    assert_eq!(rt; buf, *b"b\0\0\0");
    assert_eq!(rt; source.read(&mut buf), Taken::Got(1));
    assert_eq!(rt; source.read(&mut buf), Taken::End);
    assert_eq!(rt; source.read(&mut buf), Taken::End);
    Ok(())
}

#[test]
fn a_sink_in_memory_fails_at_its_numbers_and_writes_nothing_then(
    rt: HostRuntime,
) -> Result<(), Fail> {
    let alloc = rt.alloc();
    let mut sink = MemSink::new(alloc, 2, vec![in alloc; 0u64, 2]?);
    assert_eq!(rt; sink.write(b"abc"), Put::Failed);
    assert_eq!(rt; sink.write(b"abc"), Put::Wrote(2));
    assert_eq!(rt; sink.write(b"cd"), Put::Failed);
    assert_eq!(rt; sink.write(b"c"), Put::Wrote(1));
    assert_eq!(rt; sink.write(b""), Put::Wrote(0));
    assert_eq!(rt; sink.bytes(), b"abc".as_slice());
    assert_eq!(rt; sink.refused(), 0);
    Ok(())
}

#[test]
fn a_source_is_read_whole_up_to_the_limit(rt: HostRuntime) -> Result<(), Fail> {
    let alloc = rt.alloc();
    for (text, limit, whole) in [("", 0, true), ("abc", 3, true), ("abc", 2, false)] {
        let bytes = Bytes::from_slice(alloc, text.as_bytes())?;
        let mut source = MemSource::new(bytes, 1, Vec::new(alloc));
        match read_all(alloc, &mut source, limit) {
            ReadAll::Whole(found) => {
                assert!(rt; whole);
                assert_eq!(rt; found.as_slice(), text.as_bytes());
            }
            ReadAll::TooLong => assert!(rt; !whole),
            ReadAll::Failed => return Err(Fail::from("no call fails")),
            ReadAll::NoMemory => return Err(Fail::from("no memory")),
        }
    }
    Ok(())
}

#[test]
fn a_failed_read_keeps_what_is_left(rt: HostRuntime) -> Result<(), Fail> {
    let alloc = rt.alloc();
    let bytes = Bytes::from_slice(alloc, b"abc")?;
    let mut source = MemSource::new(bytes, 2, vec![in alloc; 1u64]?);
    assert!(rt; matches!(&read_all(alloc, &mut source, 9), ReadAll::Failed));
    let ReadAll::Whole(rest) = read_all(alloc, &mut source, 9) else {
        return Err(Fail::from("not the whole"));
    };
    assert_eq!(rt; rest.as_slice(), b"c".as_slice());
    Ok(())
}

#[test]
fn a_long_piece_is_written_and_read_in_parts(rt: HostRuntime) -> Result<(), Fail> {
    let alloc = rt.alloc();
    let piece = [7u8; 40000];
    let mut sink = MemSink::new(alloc, 30000, vec![in alloc; 3u64]?);
    assert_eq!(rt; write_all(&mut sink, b""), WriteAll::Done);
    assert_eq!(rt; write_all(&mut sink, &piece), WriteAll::Done);
    assert_eq!(rt; sink.bytes(), piece.as_slice());
    assert_eq!(rt; write_all(&mut sink, b"x"), WriteAll::Done);
    assert_eq!(rt; write_all(&mut sink, b"y"), WriteAll::Failed);
    assert_eq!(rt; sink.bytes().last(), Some(&b'x'));

    let bytes = Bytes::from_slice(alloc, &piece)?;
    let mut source = MemSource::new(bytes, 50000, Vec::new(alloc));
    let ReadAll::Whole(found) = read_all(alloc, &mut source, 40000) else {
        return Err(Fail::from("not the whole"));
    };
    assert_eq!(rt; found.as_slice(), piece.as_slice());
    Ok(())
}

#[test]
fn bytes_are_ordered_from_the_front(rt: HostRuntime) -> Result<(), Fail> {
    let alloc = rt.alloc();
    let ascending: [&[u8]; 5] = [b"", b"\0", b"a", b"ab", b"\xff"];
    for (i, x) in ascending.iter().enumerate() {
        for (j, y) in ascending.iter().enumerate() {
            let (left, right) = (Bytes::from_slice(alloc, x)?, Bytes::from_slice(alloc, y)?);
            assert_eq!(rt; left.cmp(&right), i.cmp(&j));
            assert_eq!(rt; left == right, i == j);
        }
    }
    Ok(())
}

#[test]
fn bytes_and_sequences_grow_and_are_copied(rt: HostRuntime) -> Result<(), Fail> {
    let alloc = rt.alloc();
    let mut word = Bytes::new(alloc);
    assert!(rt; word.is_empty());
    word.push(b'h')?;
    word.push(b'i')?;
    let mut words = Seq::new(alloc);
    words.push(word.copy(alloc)?)?;
    words.push(Bytes::from_vec(vec![in alloc; b'!']?))?;
    let copy = words.copy(alloc)?;
    drop(words);
    assert_eq!(rt; copy.len(), 2);
    assert_eq!(rt; copy.as_slice()[0], word);
    assert_eq!(rt; copy.as_slice()[1].as_slice(), b"!".as_slice());
    assert_eq!(rt; word.into_vec().as_slice(), b"hi".as_slice());
    Ok(())
}

#[test]
fn clocks_answer(rt: HostRuntime) {
    let mut still = MemClock::new(5000);
    assert_eq!(rt; still.now(), 5000);
    assert_eq!(rt; still.now(), 5000);
    // the first moments of the years 2024 and 2100
    let mut running = StdClock::new(rt);
    let now = running.now();
    assert!(rt; now > 1_704_067_200_000);
    assert!(rt; now < 4_102_444_800_000);
}

#[test]
fn a_reader_of_std_is_tried_again_after_a_signal_alone(rt: HostRuntime) {
    let mut source = StdSource::new(Unsteady { call: 0 });
    let mut buf = [0u8; 3];
    assert_eq!(rt; source.read(&mut []), Taken::Got(0));
    assert_eq!(rt; source.read(&mut buf), Taken::Got(1));
    assert_eq!(rt; buf, [2, 0, 0]);
    assert_eq!(rt; source.read(&mut buf), Taken::Failed);
    assert_eq!(rt; source.read(&mut buf), Taken::Got(1));
    assert_eq!(rt; buf, [4, 0, 0]);
    assert_eq!(rt; source.read(&mut buf), Taken::End);
}

#[test]
fn a_writer_of_std_is_tried_again_after_a_signal_alone(rt: HostRuntime) {
    let mut sink = StdSink::new(Unsteady { call: 0 });
    assert_eq!(rt; sink.write(b""), Put::Wrote(0));
    assert_eq!(rt; sink.write(b"ab"), Put::Wrote(1));
    assert_eq!(rt; sink.write(b"b"), Put::Failed);
    assert_eq!(rt; sink.write(b"b"), Put::Wrote(1));
    assert_eq!(rt; sink.write(b"c"), Put::Failed);
}
