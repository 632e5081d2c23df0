use crate::fakes::Turn::{Bytes, Fails};
use crate::programs::{ANY, End, Program, WORKED, run};
use std::io::ErrorKind;
use std::test::*;

// Usages: nothing is read or written, and the first line says which word is wrong.
#[test]
fn a_usage_names_the_word_that_is_wrong(rt: HostRuntime) -> Result<(), Fail> {
    let cases: [(Program, &[&str], &str); 42] = [
        (Program::Rowlist, &["--wdith"], "--wdith is no option"),
        (Program::Rowlist, &["--panels"], "--panels is no option"),
        (
            Program::Rowlist,
            &["--width"],
            "--width wants a number after it",
        ),
        (Program::Rowlist, &["--width", "+64"], "+64 is no number"),
        (
            Program::Rowlist,
            &["--snap", "--edition"],
            "--edition wants a number after it",
        ),
        (Program::Rowdump, &["--edition", "x"], "x is no number"),
        (
            Program::Why,
            &["--edition", "4294967296", "3", "70"],
            "4294967296 is no number",
        ),
        (
            Program::Rowlist,
            &["--snap", "--help"],
            "--help stands alone or not at all",
        ),
        (
            Program::Rowlist,
            &["--version", "--snap"],
            "--version stands alone or not at all",
        ),
        (Program::Rowlist, &["x"], "x is one argument too many"),
        (
            Program::Rowdump,
            &["--panels", "--snpa"],
            "--snpa is no option",
        ),
        (
            Program::Rowdump,
            &["--panels", "--version"],
            "--version stands alone or not at all",
        ),
        (
            Program::Rowdump,
            &["--width", "4294967296"],
            "4294967296 is no number",
        ),
        (
            Program::Rowdump,
            &["x", "--panels"],
            "x is one argument too many",
        ),
        (Program::Why, &[], "ROW is missing"),
        (Program::Why, &["3"], "TILE is missing"),
        (Program::Why, &["3", "x"], "x is no number"),
        (
            Program::Why,
            &["3", "70", "shape", "1"],
            "shape is neither draw nor layer",
        ),
        (
            Program::Why,
            &["3", "70", "draw"],
            "draw wants a number after it",
        ),
        (
            Program::Why,
            &["3", "70", "draw", "1", "2"],
            "2 is one argument too many",
        ),
        (Program::Why, &["--panels", "3"], "--panels is no option"),
        (
            Program::Why,
            &["--version", "3", "70"],
            "--version stands alone or not at all",
        ),
        (
            Program::Why,
            &["--stream", "3"],
            "3 is one argument too many",
        ),
        (
            Program::Why,
            &["3", "70", "--help"],
            "--help is neither draw nor layer",
        ),
        (Program::Tilelist, &["--snap"], "ROW is missing"),
        (Program::Tilelist, &["3"], "TILE is missing"),
        (
            Program::Tilelist,
            &["3", "70", "draw"],
            "draw is one argument too many",
        ),
        (
            Program::Tilelist,
            &["--stream", "3"],
            "3 is one argument too many",
        ),
        (
            Program::Tilelist,
            &["--panels", "3"],
            "--panels is no option",
        ),
        (Program::Figures, &["--panels"], "--panels is no option"),
        (
            Program::Figures,
            &["--width"],
            "--width wants a number after it",
        ),
        (Program::Figures, &["x"], "x is one argument too many"),
        (
            Program::Figures,
            &["--snap", "--help"],
            "--help stands alone or not at all",
        ),
        (Program::Editions, &["--snap"], "new or old is missing"),
        (Program::Editions, &["--stream"], "new or old is missing"),
        (
            Program::Editions,
            &["newer"],
            "newer is neither new nor old",
        ),
        (
            Program::Editions,
            &["--stream", "2", "new"],
            "2 is neither new nor old",
        ),
        (
            Program::Editions,
            &["new", "--snap"],
            "--snap is one argument too many",
        ),
        (
            Program::Editions,
            &["--snap", "--stream", "old", "x"],
            "x is one argument too many",
        ),
        (
            Program::Editions,
            &["--width", "64", "new"],
            "--width is no option",
        ),
        (
            Program::Editions,
            &["--edition", "2"],
            "--edition is no option",
        ),
        (
            Program::Editions,
            &["--version", "new"],
            "--version stands alone or not at all",
        ),
    ];
    for (program, args, line) in cases {
        let (end, held) = run(
            rt.alloc(),
            program,
            args,
            &WORKED,
            &[Fails(ErrorKind::Other)],
            &[],
        )?;
        assert_eq!(rt; end, End::Usage(line.to_string(rt.alloc())?));
        assert!(rt; held.is_empty());
    }
    Ok(())
}

#[test]
fn help_prints_the_usage_and_reads_nothing(rt: HostRuntime) -> Result<(), Fail> {
    let programs: [(Program, &[u8]); 6] = [
        (
            Program::Editions,
            b"usage: editions [--snap] new|old < FILE > CONVERTED\n       editions [--snap] --stream new|old < STREAM > CONVERTED\n",
        ),
        (
            Program::Rowlist,
            b"usage: rowlist [--snap] [--width N] [--edition N] < FILE\n",
        ),
        (
            Program::Rowdump,
            b"usage: rowdump [--snap] [--width N] [--edition N] [--panels] < STREAM\n",
        ),
        (
            Program::Why,
            b"usage: why [--snap] [--width N] [--edition N] ROW TILE [draw N | layer N] < FILE\n",
        ),
        (
            Program::Tilelist,
            b"usage: tilelist [--snap] [--width N] [--edition N] ROW TILE < FILE\n",
        ),
        (
            Program::Figures,
            b"usage: figures [--snap] [--width N] [--edition N] < STREAM\n",
        ),
    ];
    for (program, line) in programs {
        for word in ["--help", "-h"] {
            let (end, held) = run(
                rt.alloc(),
                program,
                &[word],
                &[],
                &[Fails(ErrorKind::Other)],
                &[Bytes(ANY)],
            )?;
            assert_eq!(rt; end, End::Done);
            assert!(rt; held.as_slice().starts_with(line));
            assert!(rt;
                held.as_slice().ends_with(
                    b"  15: a draw or a layer has a panel, and edition one has none\n"
                )
            );
        }
    }
    Ok(())
}

// Through short writes; where writing fails, a beginning of the line is there.
#[test]
fn version_prints_one_line_and_reads_nothing(rt: HostRuntime) -> Result<(), Fail> {
    let programs: [(Program, &[u8]); 5] = [
        (
            Program::Rowlist,
            b"rowlist 0.3.0 rattle-kit-13f dac8208d650f15bf\n",
        ),
        (
            Program::Rowdump,
            b"rowdump 0.3.0 rattle-kit-13f dac8208d650f15bf\n",
        ),
        (Program::Why, b"why 0.3.0 rattle-kit-13f dac8208d650f15bf\n"),
        (
            Program::Tilelist,
            b"tilelist 0.3.0 rattle-kit-13f dac8208d650f15bf\n",
        ),
        (
            Program::Figures,
            b"figures 0.3.0 rattle-kit-13f dac8208d650f15bf\n",
        ),
    ];
    let reads = [Fails(ErrorKind::Other)];
    for (program, line) in programs {
        let (end, held) = run(
            rt.alloc(),
            program,
            &["--version"],
            &[],
            &reads,
            &[Bytes(3), Bytes(ANY)],
        )?;
        assert_eq!(rt; end, End::Done);
        assert_eq!(rt; held.as_slice(), line);

        let (end, held) = run(
            rt.alloc(),
            program,
            &["--version"],
            &[],
            &reads,
            &[Bytes(9), Fails(ErrorKind::StorageFull)],
        )?;
        assert_eq!(rt; end, End::Write(ErrorKind::StorageFull));
        assert_eq!(rt; held.as_slice(), &line[..9]);
    }
    Ok(())
}
