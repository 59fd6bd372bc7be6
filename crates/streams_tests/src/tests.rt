use crate::echo::run;
use crate::ends::{Asker, Interrupted, Pieces, Room, Tally};
use std::alloc::{AllocError, Global};
use std::cell::Cell;
use std::test::*;
use streams::{CountedReader, Ended, ScriptFault, fill};

fn push_line(out: &mut Vec<u8>, octet: u8, n: usize, end: &[u8]) -> Result<(), AllocError> {
    for _ in 0..n {
        out.push(octet)?;
    }
    out.extend_from_slice(end)
}

/// Lines of 1,024 and 1,025 octets, a long comment, an empty line, and a last one that lacks its end.
fn long_lines(alloc: Global) -> Result<Vec<u8>, AllocError> {
    let mut input = Vec::new(alloc);
    push_line(&mut input, b'a', 1024, b"\r\n".as_slice())?;
    push_line(&mut input, b'b', 1025, b"\r\n".as_slice())?;
    push_line(&mut input, b'#', 3000, b"\n\r\n".as_slice())?;
    push_line(&mut input, b'c', 1025, b"\nd\r".as_slice())?;
    Ok(input)
}

fn long_want(alloc: Global) -> Result<Vec<u8>, AllocError> {
    let mut want = Vec::new(alloc);
    push_line(
        &mut want,
        b'a',
        1024,
        b"\ntoo long\n\ntoo long\nd\r\n".as_slice(),
    )?;
    Ok(want)
}

#[test]
fn any_pieces_give_one_text(rt: HostRuntime) -> Result<(), Fail> {
    let input = long_lines(rt.alloc())?;
    let want = long_want(rt.alloc())?;
    for piece in [1, 2, 7, 1025, 4096] {
        let rest = input.as_slice();
        let pieces = Pieces {
            rest,
            piece,
            fails: false,
        };
        let mut text = Vec::new(rt.alloc());
        let (end, _) = run(rt.alloc(), pieces, &mut text);
        assert!(rt;
            matches!(end, Ok(Ended::EndOfInput)) && text.as_slice() == want.as_slice(),
            "at {piece}"
        );
    }
    Ok(())
}

#[test]
fn interrupted_calls_lose_nothing(rt: HostRuntime) -> Result<(), Fail> {
    let input = long_lines(rt.alloc())?;
    let want = long_want(rt.alloc())?;
    let inner = Pieces {
        rest: input.as_slice(),
        piece: 100,
        fails: false,
    };
    let mut text = Vec::new(rt.alloc());
    let writer = Interrupted {
        inner: &mut text,
        due: false,
    };
    let (end, lines) = run(rt.alloc(), Interrupted { inner, due: false }, writer);
    assert!(rt; matches!(end, Ok(Ended::EndOfInput)) && lines == 6);
    assert!(rt; text.as_slice() == want.as_slice());
    Ok(())
}

const INPUT: &[u8] = b"a\nbc\r\ndef\nbad";

const WANT: &[u8] = b"a\nbc\ndef\nbad\n";

#[test]
fn a_failed_read_leaves_the_whole_lines(rt: HostRuntime) {
    for (length, n, obeyed) in [
        (0, 0, 0),
        (1, 0, 0),
        (2, 2, 1),
        (5, 2, 1),
        (6, 5, 2),
        (9, 5, 2),
        (10, 9, 3),
        (13, 9, 3),
    ] {
        let pieces = Pieces {
            rest: &INPUT[..length],
            piece: 3,
            fails: true,
        };
        let mut text = Vec::new(rt.alloc());
        let (end, lines) = run(rt.alloc(), pieces, &mut text);
        assert!(rt;
            matches!(end, Err(ScriptFault::Read)) && lines == obeyed,
            "at {length}"
        );
        assert!(rt; text.as_slice() == &WANT[..n], "at {length}");
    }
}

#[test]
fn a_full_writer_has_a_front(rt: HostRuntime) {
    for (left, obeyed) in [
        (0, 1),
        (1, 1),
        (2, 2),
        (4, 2),
        (5, 3),
        (8, 3),
        (9, 4),
        (12, 4),
    ] {
        let mut room = Room {
            text: Vec::new(rt.alloc()),
            left,
        };
        let (end, lines) = run(rt.alloc(), INPUT, &mut room);
        assert!(rt;
            matches!(end, Err(ScriptFault::Write)) && lines == obeyed,
            "at {left}"
        );
        assert!(rt; room.text.as_slice() == &WANT[..left], "at {left}");
    }
}

#[test]
fn a_reply_goes_before_the_next_read(rt: HostRuntime) {
    let written = Cell::new(0);
    let asker = Asker {
        rest: b"a\nb\nc\n".as_slice(),
        given: 0,
        written: &written,
    };
    let (end, lines) = run(rt.alloc(), asker, Tally { written: &written });
    assert!(rt; matches!(end, Ok(Ended::EndOfInput)) && lines == 3);
}

#[test]
fn nothing_is_obeyed_after_the_last_line(rt: HostRuntime) {
    let mut text = Vec::new(rt.alloc());
    let (end, lines) = run(rt.alloc(), b"a\nstop\nb\n".as_slice(), &mut text);
    assert!(rt; matches!(end, Ok(Ended::Stop)) && lines == 2);
    assert!(rt; text.as_slice() == b"a\nstop\n".as_slice());
}

/// What filling a room from pieces of 1,000 octets comes to, and how many reads are left.
fn filled(input: &[u8], reads: u32, room: &mut [u8]) -> (Option<usize>, u64) {
    let pieces = Pieces {
        rest: input,
        piece: 1000,
        fails: false,
    };
    let mut left = u64::from(reads);
    let end = fill(&mut CountedReader::new(pieces), &mut left, room);
    (end.ok(), left)
}

#[test]
fn rooms_are_filled(rt: HostRuntime) -> Result<(), Fail> {
    let mut input = Vec::new(rt.alloc());
    push_line(&mut input, b'x', 1500, b"yz".as_slice())?;
    push_line(&mut input, b'x', 64_034, b"".as_slice())?;
    let input = input.as_slice();
    let mut room = Vec::new(rt.alloc());
    push_line(&mut room, 0, 65_535, b"".as_slice())?;
    assert!(rt; filled(input, 70, room.as_mut_slice()) == (Some(65_535), 4));
    assert!(rt; input.starts_with(room.as_slice()));
    assert!(rt; filled(input, 65, room.as_mut_slice()) == (None, 0));
    assert!(rt; filled([7; 2500].as_slice(), 70, room.as_mut_slice()) == (Some(2500), 66));
    assert!(rt; filled(b"".as_slice(), 1, room.as_mut_slice()) == (Some(0), 0));
    Ok(())
}
