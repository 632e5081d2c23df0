use crate::fakes::Turn::{Bytes, Fails};
use crate::programs::{ANY, DUMP, End, LIST, Program, WORKED, run};
use std::io::ErrorKind;
use std::test::*;

// The list of one recording, through short and interrupted reads and writes, and under options that change nothing of it; what a width that is none
// gives.
#[test]
fn a_recording_is_listed(rt: HostRuntime) -> Result<(), Fail> {
    let reads = [
        Bytes(5),
        Fails(ErrorKind::Interrupted),
        Bytes(ANY),
        Bytes(0),
    ];
    let writes = [
        Bytes(1),
        Fails(ErrorKind::Interrupted),
        Bytes(7),
        Bytes(ANY),
    ];
    let cases: [(&[&str], &[u8]); 4] = [
        (&[], LIST),
        (&["--width", "64", "--width", "128"], LIST),
        (&["--width", "100"], b"refused 2\n"),
        (&["--width", "100", "--snap", "--width", "128"], LIST),
    ];
    for (args, text) in cases {
        let (end, held) = run(rt.alloc(), Program::Rowlist, args, &WORKED, &reads, &writes)?;
        assert_eq!(rt; end, End::Done);
        assert_eq!(rt; held.as_slice(), text);
    }
    Ok(())
}

// Two recordings of a stream, the second with a reader or a writer that fails in the middle of it: the first is there whole, and of the second what was
// written before.
#[test]
fn a_stream_that_fails_leaves_whole_recordings(rt: HostRuntime) -> Result<(), Fail> {
    let mut words = Vec::new(rt.alloc());
    for _ in 0..2 {
        words.push(276)?;
        words.extend_from_slice(&WORKED)?;
    }
    let mut first = Vec::new(rt.alloc());
    first.extend_from_slice(b"recording 0\n")?;
    first.extend_from_slice(DUMP)?;
    let mut both = Vec::new(rt.alloc());
    both.extend_from_slice(first.as_slice())?;
    both.extend_from_slice(b"recording 1\n")?;
    both.extend_from_slice(DUMP)?;
    let all = [Bytes(ANY), Bytes(ANY), Bytes(ANY), Bytes(ANY), Bytes(ANY)];
    let (end, whole) = run(
        rt.alloc(),
        Program::Rowdump,
        &[],
        words.as_slice(),
        &all,
        &all,
    )?;
    assert_eq!(rt; end, End::Done);
    assert_eq!(rt; whole.as_slice(), both.as_slice());

    let reads = [
        Bytes(ANY),
        Bytes(ANY),
        Bytes(ANY),
        Bytes(9),
        Fails(ErrorKind::Other),
    ];
    let (end, held) = run(
        rt.alloc(),
        Program::Rowdump,
        &[],
        words.as_slice(),
        &reads,
        &all,
    )?;
    assert_eq!(rt; end, End::Read(ErrorKind::Other));
    assert_eq!(rt; held.as_slice(), first.as_slice());

    let writes = [Bytes(ANY), Bytes(3), Fails(ErrorKind::BrokenPipe)];
    let (end, held) = run(
        rt.alloc(),
        Program::Rowdump,
        &[],
        words.as_slice(),
        &all,
        &writes,
    )?;
    assert_eq!(rt; end, End::Write(ErrorKind::BrokenPipe));
    first.extend_from_slice(b"rec")?;
    assert_eq!(rt; held.as_slice(), first.as_slice());
    Ok(())
}

// A file that is too long is refused after all of it was read over: where that fails, nothing of it is printed.
#[test]
fn the_rest_of_a_long_file_comes_first(rt: HostRuntime) -> Result<(), Fail> {
    let cases: [(Program, &[&str], &[u32], &[u8]); 2] = [
        (Program::Rowdump, &[], &[65544], b"recording 0\nrefused 3\n"),
        (
            Program::Why,
            &["--stream"],
            &[65544, 0, 0],
            b"question 0\nrefused 3\n",
        ),
    ];
    for (program, args, head, text) in cases {
        let mut words = Vec::new(rt.alloc());
        words.extend_from_slice(head)?;
        for _ in 0..16386 {
            words.push(0)?;
        }
        let reads = [Bytes(ANY), Bytes(ANY), Bytes(ANY), Bytes(ANY), Bytes(ANY)];
        let (end, held) = run(
            rt.alloc(),
            program,
            args,
            words.as_slice(),
            &reads,
            &[Bytes(ANY), Bytes(ANY)],
        )?;
        assert_eq!(rt; end, End::Done);
        assert_eq!(rt; held.as_slice(), text);

        let reads = [Bytes(ANY), Bytes(ANY), Fails(ErrorKind::Other)];
        let (end, held) = run(
            rt.alloc(),
            program,
            args,
            words.as_slice(),
            &reads,
            &[Bytes(ANY), Bytes(ANY)],
        )?;
        assert_eq!(rt; end, End::Read(ErrorKind::Other));
        assert!(rt; held.is_empty());
    }
    Ok(())
}

// A tile's list is taken of a file that is too long for the other programs: samples/worked.rec with 4,096 paints. It comes through a writer that takes it in
// pieces; where that fails, what it took is there.
#[test]
fn a_long_file_is_listed(rt: HostRuntime) -> Result<(), Fail> {
    let mut words = Vec::new(rt.alloc());
    words.extend_from_slice(&WORKED[..5])?;
    words.push(4096)?;
    for _ in 0..4096 {
        words.extend_from_slice(&[1, 1, 0, 0])?;
    }
    words.extend_from_slice(&WORKED[10..])?;
    let (end, held) = run(
        rt.alloc(),
        Program::Tilelist,
        &["1", "7"],
        words.as_slice(),
        &[Bytes(65536), Fails(ErrorKind::Interrupted), Bytes(ANY)],
        &[Bytes(5), Bytes(ANY)],
    )?;
    assert_eq!(rt; end, End::Done);
    assert_eq!(rt;
        held.as_slice(),
        b"p 1 7 8 - 1 0\nl 0 7 8 - 1 0\n".as_slice()
    );

    let (end, held) = run(
        rt.alloc(),
        Program::Tilelist,
        &["1", "7"],
        words.as_slice(),
        &[Bytes(ANY)],
        &[Bytes(5), Fails(ErrorKind::StorageFull)],
    )?;
    assert_eq!(rt; end, End::Write(ErrorKind::StorageFull));
    assert_eq!(rt; held.as_slice(), b"p 1 7".as_slice());

    let (end, held) = run(
        rt.alloc(),
        Program::Why,
        &["1", "7"],
        words.as_slice(),
        &[Bytes(ANY)],
        &[Bytes(ANY)],
    )?;
    assert_eq!(rt; end, End::Done);
    assert_eq!(rt; held.as_slice(), b"refused 3\n".as_slice());
    Ok(())
}
