use crate::fakes::Turn::Bytes;
use crate::programs::{ANY, End, LIST, Program, WORKED, WORKED_TWO, run};
use std::test::*;

// What is told of samples/worked.rec in edition two in a stream, each line with its panel.
const DUMP_TWO: &[u8] =
    b"recording 0\nrows 2 buckets 2 ids 3\nrow 0 depth 1 render 1\nD 1 2 0\nP 10 32 - 0\nrow 1 depth 0 render 4\nB 0 64\n\
        P 0 8 - 1\nL 0 64 - 0\nE\npaint attributes 2\nA 0 0 3 0 1 0 0 0 5\nA 0 0 3 0 2 0 0 0 5\nlayer attributes 1\n\
        Y 0 3 1056964608 0 3 0 6\nfilter paints 0\npainted 0 pieces 2\np 0 32 64 - 0 5\np 0 10 32 - 0 5\n\
        painted 1 pieces 2\np 1 0 8 - 1 5\nl 0 0 64 - 1 6\n";

// What a tile of it shows.
const WHY_TWO: &[u8] =
    b"draw 0: no segment covers the tile, panel 5\ndraw 1: shown, place 0, panel 5\nlayer 0: shown, place 1, panel 6\n";

// What it receives.
const TILE_TWO: &[u8] = b"p 1 7 8 - 1 5\nl 0 7 8 - 1 6\n";

// The list of each edition's file, and the refusals: a file of the other edition, an edition that is none, also before a width that is none.
#[test]
fn a_file_is_of_the_edition_that_is_told(rt: HostRuntime) -> Result<(), Fail> {
    let cases: [(&[&str], &[u32], &[u8]); 11] = [
        (&["--edition", "1"], &WORKED, LIST),
        (&["--edition", "2"], &WORKED_TWO, LIST),
        (&["--edition", "2"], &WORKED, b"refused 3\n"),
        (&[], &WORKED_TWO, b"refused 3\n"),
        (&["--edition", "3"], &WORKED, b"refused 3\n"),
        (&["--edition", "0"], &WORKED, b"refused 3\n"),
        (&["--edition", "3", "--width", "7"], &WORKED, b"refused 3\n"),
        (&["--width", "7", "--edition", "2"], &WORKED, b"refused 3\n"),
        (
            &["--width", "7", "--edition", "2"],
            &WORKED_TWO,
            b"refused 2\n",
        ),
        (
            &["--edition", "3", "--snap", "--edition", "2"],
            &WORKED_TWO,
            LIST,
        ),
        (
            &["--edition", "2", "--edition", "4294967295"],
            &WORKED_TWO,
            b"refused 3\n",
        ),
    ];
    for (args, words, text) in cases {
        let (end, held) = run(
            rt.alloc(),
            Program::Rowlist,
            args,
            words,
            &[Bytes(ANY)],
            &[Bytes(ANY)],
        )?;
        assert_eq!(rt; end, End::Done);
        assert_eq!(rt; held.as_slice(), text);
    }
    Ok(())
}

// The other programs that read recordings: of a stream each file is answered under its own line.
#[test]
fn every_reader_takes_an_edition(rt: HostRuntime) -> Result<(), Fail> {
    let cases: [(Program, &[&str], &[u32], &[u8]); 10] = [
        (
            Program::Rowdump,
            &["--edition", "2", "--panels"],
            &[296],
            DUMP_TWO,
        ),
        (
            Program::Rowdump,
            &["--edition", "3", "--width", "7"],
            &[296],
            b"recording 0\nrefused 3\n",
        ),
        (
            Program::Rowdump,
            &["--edition", "2", "--width", "7"],
            &[296],
            b"recording 0\nrefused 2\n",
        ),
        (Program::Why, &["--edition", "2", "1", "7"], &[], WHY_TWO),
        (
            Program::Why,
            &["--edition", "3", "1", "7"],
            &[],
            b"refused 3\n",
        ),
        (
            Program::Why,
            &["--edition", "1", "--stream"],
            &[296, 1, 7],
            b"question 0\nrefused 3\n",
        ),
        (
            Program::Tilelist,
            &["--edition", "2", "1", "7"],
            &[],
            TILE_TWO,
        ),
        (
            Program::Tilelist,
            &["--edition", "3", "--width", "7", "1", "7"],
            &[],
            b"refused 3\n",
        ),
        (
            Program::Tilelist,
            &["--edition", "2", "--width", "7", "--stream"],
            &[296, 1, 7],
            b"list 0\nrefused 2\n",
        ),
        (
            Program::Tilelist,
            &["--stream"],
            &[296, 1, 7],
            b"list 0\nrefused 3\n",
        ),
    ];
    for (program, args, head, text) in cases {
        let mut words = Vec::new(rt.alloc());
        words.extend_from_slice(head)?;
        words.extend_from_slice(&WORKED_TWO)?;
        let all = [Bytes(ANY), Bytes(ANY), Bytes(ANY), Bytes(ANY)];
        let (end, held) = run(rt.alloc(), program, args, words.as_slice(), &all, &all)?;
        assert_eq!(rt; end, End::Done);
        assert_eq!(rt; held.as_slice(), text);
    }
    Ok(())
}
