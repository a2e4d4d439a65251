//! Tests of sources and sinks: pieces, faults, the bound of the input, and the readers and writers of std.

use outside_io::{
    Failed, MemorySink, MemorySource, ReadEnd, ReadSource, Sink, Source, WriteSink, read_to_end,
    write_all,
};
use std::io::{self, ErrorKind, Read};
use std::test::Fail;

const DIGITS: [u8; 10] = *b"0123456789";

#[test]
fn source_fails_at_its_call_alone(rt: HostRuntime) -> Result<(), Fail> {
    let bytes = DIGITS.to_vec(rt.alloc())?;
    let failing = vec![in rt.alloc(); 2]?;
    let mut source = MemorySource::new(bytes, failing, 4);
    assert!(rt;
        matches!(
            read_to_end(rt.alloc(), &mut source, 99),
            Err(ReadEnd::Failed)
        )
    );
    // The first call gave four bytes, and the second none.
    let mut into = [0u8; 5];
    assert!(rt; source.read(&mut into) == Ok(4));
    assert_eq!(rt; into, *b"4567\0");
    assert!(rt; source.read(&mut into) == Ok(2));
    assert_eq!(rt; into, *b"8967\0");
    assert!(rt; source.read(&mut into) == Ok(0));
    Ok(())
}

#[test]
fn sink_takes_its_room_in_pieces(rt: HostRuntime) -> Result<(), Fail> {
    // The room, the piece, the call that fails (0: none), and whether all is taken, in how many bytes.
    for (room, piece, failing, all, held) in [
        (10, 5, 2, false, 5),
        (10, 5, 3, true, 10),
        (10, 4, 0, true, 10),
        (7, 5, 0, false, 7),
        (0, 5, 0, false, 0),
    ] {
        let failing = vec![in rt.alloc(); failing]?;
        let mut sink = MemorySink::new(rt.alloc(), room, failing, piece)?;
        assert_eq!(rt;
            write_all(&mut sink, &DIGITS).is_ok(),
            all,
            "at room {room}"
        );
        assert_eq!(rt; sink.held(), &DIGITS[..held], "at room {room}");
        assert!(rt; write_all(&mut sink, &[]) == Ok(()));
    }
    Ok(())
}

#[test]
fn sink_goes_on_after_a_fault(rt: HostRuntime) -> Result<(), Fail> {
    let failing = vec![in rt.alloc(); 2]?;
    let mut sink = MemorySink::new(rt.alloc(), 10, failing, 5)?;
    assert!(rt; write_all(&mut sink, &DIGITS) == Err(Failed));
    assert!(rt; write_all(&mut sink, &DIGITS[5..]) == Ok(()));
    assert_eq!(rt; sink.held(), &DIGITS[..]);
    assert!(rt; sink.write(b"more") == Err(Failed));
    Ok(())
}

#[test]
fn input_is_bounded(rt: HostRuntime) -> Result<(), Fail> {
    // The most bytes, whether they all come, and how many the next read gives.
    for (most, comes, next) in [(11, true, 0), (10, true, 0), (9, false, 0), (3, false, 4)] {
        let bytes = DIGITS.to_vec(rt.alloc())?;
        let mut source = MemorySource::new(bytes, Vec::new(rt.alloc()), 4);
        match read_to_end(rt.alloc(), &mut source, most) {
            Ok(all) => assert!(rt; comes && all.as_slice() == DIGITS.as_slice(), "at {most}"),
            Err(end) => assert!(rt; !comes && matches!(end, ReadEnd::TooLarge), "at {most}"),
        }
        let mut into = [0u8; 10];
        assert!(rt; source.read(&mut into) == Ok(next), "at {most}");
    }
    Ok(())
}

// A reader that gives one byte, then an error, and then its end.
#[derive(Drop)]
struct Broken {
    calls: u8,
}

impl Read for Broken {
    fn read(&mut self, buf: &mut [u8]) -> io::Result<usize> {
        self.calls = self.calls.saturating_add(1);
        match self.calls {
            1 if !buf.is_empty() => Ok(1),
            2 => Err(io::Error::from(ErrorKind::Interrupted)),
            _ => Ok(0),
        }
    }
}

#[test]
fn readers_and_writers_pass_through(rt: HostRuntime) -> Result<(), Fail> {
    let mut source = ReadSource::new(DIGITS.as_slice());
    let bytes = read_to_end(rt.alloc(), &mut source, 10)?;
    let mut written = Vec::new(rt.alloc());
    assert!(rt; write_all(&mut WriteSink::new(&mut written), &bytes) == Ok(()));
    assert_eq!(rt; written.as_slice(), &DIGITS[..]);

    let mut broken = ReadSource::new(Broken { calls: 0 });
    assert!(rt;
        matches!(
            read_to_end(rt.alloc(), &mut broken, 10),
            Err(ReadEnd::Failed)
        )
    );
    assert!(rt; matches!(read_to_end(rt.alloc(), &mut broken, 10), Ok(_)));

    // A writer that takes no more than three bytes.
    let mut place = [0u8; 3];
    assert!(rt; write_all(&mut WriteSink::new(place.as_mut_slice()), &bytes) == Err(Failed));
    assert_eq!(rt; place, *b"012");
    Ok(())
}
