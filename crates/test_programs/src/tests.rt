use crate::fakes::Turn::{Bytes, Fails};
use crate::fakes::{Input, Output, Turn};
use std::io;
use std::io::ErrorKind;
use std::test::*;
use text_programs::failure::Failure;
use text_programs::stream::{read, skip_rest};
use text_programs::{FILE_ROOM, read_all, write_text};

// What the system said of the input, or of the output, where that is what failed.
fn read_kind(failure: Failure) -> Option<ErrorKind> {
    match failure {
        Failure::CannotRead(error) => Some(error.kind()),
        _ => None,
    }
}

fn write_kind(failure: Failure) -> Option<ErrorKind> {
    match failure {
        Failure::CannotWrite(error) => Some(error.kind()),
        _ => None,
    }
}

const COUNT: [u8; 16] = [0, 1, 2, 3, 4, 5, 6, 7, 8, 9, 10, 11, 12, 13, 14, 15];

fn input(turns: &[Turn]) -> Input<'_> {
    Input {
        turns,
        bytes: &COUNT,
    }
}

fn counts_up(bytes: &[u8]) -> bool {
    let mut next = 0u8;
    for byte in bytes {
        if *byte != next {
            return false;
        }
        next = next.wrapping_add(1);
    }
    true
}

#[test]
fn reads_on_after_a_signal_and_a_short_read(rt: HostRuntime) {
    let turns = [
        Bytes(3),
        Fails(ErrorKind::Interrupted),
        Bytes(1),
        Fails(ErrorKind::Interrupted),
        Fails(ErrorKind::Interrupted),
        Bytes(9),
    ];
    let mut buf = [9u8; 6];
    assert_eq!(rt; read_all(&mut input(&turns), &mut buf).ok(), Some(6));
    assert!(rt; counts_up(&buf));
}

#[test]
fn the_end_of_the_input_ends_reading(rt: HostRuntime) {
    let turns = [Bytes(2), Fails(ErrorKind::Interrupted), Bytes(2)];
    let mut buf = [9u8; 6];
    assert_eq!(rt; read_all(&mut input(&turns), &mut buf).ok(), Some(4));
    assert!(rt; counts_up(&buf[..4]));
    assert_eq!(rt; buf[4], 9);
}

#[test]
fn no_call_is_made_for_no_bytes(rt: HostRuntime) {
    let turns = [Bytes(4), Fails(ErrorKind::BrokenPipe)];
    let mut buf = [9u8; 4];
    let mut from = input(&turns);
    assert_eq!(rt; read_all(&mut from, &mut buf).ok(), Some(4));
    assert_eq!(rt; read(&mut from, &mut buf, 0).ok(), Some(0));
    assert!(rt; skip_rest(&mut from, FILE_ROOM, FILE_ROOM).is_ok());
    assert_eq!(rt; from.turns.len(), 1);
    assert_eq!(rt;
        read(&mut from, &mut buf, 1).err().and_then(read_kind),
        Some(ErrorKind::BrokenPipe)
    );
}

#[test]
fn a_failed_read_is_told_with_its_kind(rt: HostRuntime) {
    for kind in [
        ErrorKind::BrokenPipe,
        ErrorKind::IsADirectory,
        ErrorKind::TimedOut,
    ] {
        let turns = [Bytes(2), Fails(kind), Bytes(2)];
        let mut buf = [9u8; 4];
        assert_eq!(rt;
            read_all(&mut input(&turns), &mut buf)
                .err()
                .and_then(read_kind),
            Some(kind)
        );
        assert!(rt; counts_up(&buf[..2]));
    }
}

#[test]
fn the_rest_is_passed_over(rt: HostRuntime) {
    let turns = [Bytes(1), Fails(ErrorKind::Interrupted), Bytes(9), Bytes(9)];
    let mut from = input(&turns);
    assert!(rt; skip_rest(&mut from, FILE_ROOM + 3, FILE_ROOM).is_ok());
    assert_eq!(rt; from.bytes.len(), 13);
    let failing = [Bytes(1), Fails(ErrorKind::Other)];
    assert_eq!(rt;
        skip_rest(&mut input(&failing), FILE_ROOM + 3, FILE_ROOM)
            .err()
            .and_then(read_kind),
        Some(ErrorKind::Other)
    );
}

#[test]
fn writes_on_after_a_signal_and_a_short_write(rt: HostRuntime) -> Result<(), Fail> {
    let turns = [
        Bytes(1),
        Fails(ErrorKind::Interrupted),
        Bytes(2),
        Bytes(9),
        Fails(ErrorKind::StorageFull),
    ];
    let mut to = Output {
        turns: &turns,
        held: Vec::new(rt.alloc()),
    };
    assert!(rt; write_text(&mut to, b"refused").is_ok());
    assert_eq!(rt; to.held.as_slice(), b"refused".as_slice());
    assert!(rt; write_text(&mut to, b"").is_ok());
    assert_eq!(rt; to.turns.len(), 1);
    Ok(())
}

#[test]
fn a_failed_write_leaves_a_beginning(rt: HostRuntime) -> Result<(), Fail> {
    for kind in [ErrorKind::StorageFull, ErrorKind::BrokenPipe] {
        let turns = [
            Bytes(2),
            Fails(ErrorKind::Interrupted),
            Bytes(1),
            Fails(kind),
            Bytes(9),
        ];
        let mut to = Output {
            turns: &turns,
            held: Vec::new(rt.alloc()),
        };
        assert_eq!(rt;
            write_text(&mut to, b"refused").err().and_then(write_kind),
            Some(kind)
        );
        assert_eq!(rt; to.held.as_slice(), b"ref".as_slice());
    }
    let turns = [Bytes(2)];
    let mut to = Output {
        turns: &turns,
        held: Vec::new(rt.alloc()),
    };
    assert_eq!(rt;
        write_text(&mut to, b"refused").err().and_then(write_kind),
        Some(ErrorKind::WriteZero)
    );
    assert_eq!(rt; to.held.as_slice(), b"re".as_slice());
    Ok(())
}
