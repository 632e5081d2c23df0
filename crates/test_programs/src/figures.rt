use crate::fakes::Turn;
use crate::fakes::Turn::{Bytes, Fails};
use crate::programs::{ANY, End, Program, WORKED, run};
use std::alloc::{AllocError, Global};
use std::io::ErrorKind;
use std::test::*;

// The worked example after its length, a file of one word, and the worked example again.
fn stream(alloc: Global) -> Result<Vec<u32>, AllocError> {
    let mut words = Vec::new(alloc);
    words.push(276)?;
    words.extend_from_slice(&WORKED)?;
    words.extend_from_slice(&[4, 1, 276])?;
    words.extend_from_slice(&WORKED)?;
    Ok(words)
}

const TEXT: &[u8] = b"recording 0 asked 126 painted 126 hidden 0 commands 5 fills 1 refused 0\n\
    recording 1 asked 0 painted 0 hidden 0 commands 0 fills 0 refused 1\n\
    recording 2 asked 126 painted 126 hidden 0 commands 5 fills 1 refused 0\n\
    total asked 252 painted 252 hidden 0 commands 10 fills 2 refused 1\n";

const ALL: [Turn; 8] = [
    Bytes(ANY),
    Bytes(ANY),
    Bytes(ANY),
    Bytes(ANY),
    Bytes(ANY),
    Bytes(ANY),
    Bytes(ANY),
    Bytes(ANY),
];

// Through short and interrupted reads and writes.
#[test]
fn recordings_are_counted(rt: HostRuntime) -> Result<(), Fail> {
    let words = stream(rt.alloc())?;
    let reads = [
        Bytes(3),
        Fails(ErrorKind::Interrupted),
        Bytes(1),
        Bytes(275),
        Bytes(ANY),
        Bytes(ANY),
        Bytes(ANY),
        Bytes(ANY),
        Fails(ErrorKind::Interrupted),
        Bytes(ANY),
        Bytes(ANY),
    ];
    let writes = [
        Bytes(9),
        Fails(ErrorKind::Interrupted),
        Bytes(ANY),
        Bytes(ANY),
        Bytes(1),
        Bytes(ANY),
        Bytes(ANY),
    ];
    let (end, held) = run(
        rt.alloc(),
        Program::Figures,
        &[],
        words.as_slice(),
        &reads,
        &writes,
    )?;
    assert_eq!(rt; end, End::Done);
    assert_eq!(rt; held.as_slice(), TEXT);
    Ok(())
}

// No recordings, and a head that is cut off, which is none; a file that is cut off is what is left of it.
#[test]
fn a_stream_may_end_anywhere(rt: HostRuntime) -> Result<(), Fail> {
    let none: &[u8] = b"total asked 0 painted 0 hidden 0 commands 0 fills 0 refused 0\n";
    let one: &[u8] = b"recording 0 asked 0 painted 0 hidden 0 commands 0 fills 0 refused 1\n\
        total asked 0 painted 0 hidden 0 commands 0 fills 0 refused 1\n";
    let cases: [(&[u32], &[Turn], &[u8]); 4] = [
        (&[], &ALL, none),
        (&WORKED, &[Bytes(3)], none),
        (&[0], &ALL, one),
        (&[8, 1], &ALL, one),
    ];
    for (words, reads, text) in cases {
        let (end, held) = run(rt.alloc(), Program::Figures, &[], words, reads, &ALL)?;
        assert_eq!(rt; end, End::Done);
        assert_eq!(rt; held.as_slice(), text);
    }
    Ok(())
}

// A width or an edition that is none: each recording is refused, and counted.
#[test]
fn options_are_taken(rt: HostRuntime) -> Result<(), Fail> {
    let words = stream(rt.alloc())?;
    let refused: &[u8] = b"recording 0 asked 0 painted 0 hidden 0 commands 0 fills 0 refused 1\n\
        recording 1 asked 0 painted 0 hidden 0 commands 0 fills 0 refused 1\n\
        recording 2 asked 0 painted 0 hidden 0 commands 0 fills 0 refused 1\n\
        total asked 0 painted 0 hidden 0 commands 0 fills 0 refused 3\n";
    let cases: [(&[&str], &[u8]); 4] = [
        (&["--width", "100"], refused),
        (&["--edition", "3"], refused),
        (&["--edition", "2"], refused),
        (&["--width", "100", "--snap", "--width", "128"], TEXT),
    ];
    for (args, text) in cases {
        let (end, held) = run(
            rt.alloc(),
            Program::Figures,
            args,
            words.as_slice(),
            &ALL,
            &ALL,
        )?;
        assert_eq!(rt; end, End::Done);
        assert_eq!(rt; held.as_slice(), text);
    }
    Ok(())
}

// A read that fails in the last recording: nothing is written. A write that fails: what was written before is there.
#[test]
fn nothing_is_written_before_the_end(rt: HostRuntime) -> Result<(), Fail> {
    let words = stream(rt.alloc())?;
    let reads = [
        Bytes(ANY),
        Bytes(ANY),
        Bytes(ANY),
        Bytes(ANY),
        Bytes(ANY),
        Bytes(9),
        Fails(ErrorKind::Other),
    ];
    let (end, held) = run(
        rt.alloc(),
        Program::Figures,
        &[],
        words.as_slice(),
        &reads,
        &ALL,
    )?;
    assert_eq!(rt; end, End::Read(ErrorKind::Other));
    assert!(rt; held.is_empty());

    let writes = [Bytes(ANY), Bytes(5), Fails(ErrorKind::StorageFull)];
    let (end, held) = run(
        rt.alloc(),
        Program::Figures,
        &[],
        words.as_slice(),
        &ALL,
        &writes,
    )?;
    assert_eq!(rt; end, End::Write(ErrorKind::StorageFull));
    assert_eq!(rt; held.as_slice(), &TEXT[..77]);
    Ok(())
}

// 65,536 recordings are counted, and of one more only the refusal is printed. All are empty.
#[test]
fn too_many_recordings_are_refused(rt: HostRuntime) -> Result<(), Fail> {
    let mut turns = Vec::new(rt.alloc());
    let mut words = Vec::new(rt.alloc());
    for _ in 0..65538 {
        turns.push(Bytes(ANY))?;
    }
    for _ in 0..65536 {
        words.push(0)?;
    }
    let (end, held) = run(
        rt.alloc(),
        Program::Figures,
        &[],
        words.as_slice(),
        turns.as_slice(),
        turns.as_slice(),
    )?;
    assert_eq!(rt; end, End::Done);
    assert!(rt;
        held.as_slice().ends_with(
            b"\nrecording 65535 asked 0 painted 0 hidden 0 commands 0 fills 0 refused 1\n\
        total asked 0 painted 0 hidden 0 commands 0 fills 0 refused 65536\n"
        )
    );

    words.push(0)?;
    let (end, held) = run(
        rt.alloc(),
        Program::Figures,
        &[],
        words.as_slice(),
        turns.as_slice(),
        turns.as_slice(),
    )?;
    assert_eq!(rt; end, End::Done);
    assert_eq!(rt; held.as_slice(), b"refused 4\n".as_slice());
    Ok(())
}
