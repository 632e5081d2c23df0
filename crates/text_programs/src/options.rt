//! The programs' arguments. Options stand before the others, in any order, and of a repeated one the last counts.
ghost use Rattle.std.specs.Prelude.{◌≡◌, ◌<◌, ◌⊎◌, IfErr, IfSome, length, map, string_bytes, MatchOption};
ghost use Rattle.text_programs.specs.declared.failure.Failure.TheVariants as Failure;
ghost use Rattle.text_programs.specs.declared.failure.Stop.TheVariants as Stop;
ghost use Rattle.sizes.specs.Editions.{edition_of};
ghost use Rattle.sizes.specs.Widths.{width_of};
ghost use Rattle.rect.specs.Rects.{mode_of};
ghost use Rattle.text_programs.specs.Failures.{IsUsage};
ghost use Rattle.text_programs.specs.Arguments.{number_of, chosen_of, NoOption, OneOption, reading-by, reading_of, wanted_by, wanted_of, read_arguments};

use crate::failure::{Failure, Stop};
use crate::usage::Wrong;
use rect::Mode;
use sizes::edition::Edition;
use sizes::width::Width;
use std::env;
use std::io::ErrorKind;
use std::rt::Env;

/// What a file is read for: the edition that it is of, its viewport's mode, the width of a bucket.
#[derive(Clone, Copy)]
pub struct View {
    pub edition: Edition,
    pub mode: Mode,
    pub width: Width,
}

/// How each file is read. NoWidth: the number typed for the width is none, and every file is refused, by 3 for its form in the edition, else by 2.
/// NoEdition: that for the edition is none, and every file is refused by 3, whatever was typed for the width.
#[derive(Clone, Copy)]
pub enum Reading {
    Screen(View),
    NoWidth(Edition),
    NoEdition,
}

/// What the options want: how each file is read, and whether lines with a panel show it.
#[derive(Clone, Copy)]
pub struct Want {
    pub reading: Reading,
    pub panels: bool,
}

/// others: the arguments from the first on that is no option.
#[derive(Clone, Copy)]
pub struct Options<'a> {
    pub want: Want,
    pub others: &'a [String],
}

// What the options read so far have chosen.
#[derive(Clone, Copy)]
struct ReadSoFar {
    edition: u32,
    mode: Mode,
    pixels: u32,
    panels: bool,
}

// In the edition of a number, with so many pixels a bucket.
fn reading_of(edition: u32, mode: Mode, pixels: u32) -> Reading
    ensures { reading_of result ≡ reading-by (edition_of edition) (mode_of mode) (width_of pixels) }
{
    let Ok(edition) = Edition::try_from(edition) else {
        return Reading::NoEdition;
    };
    match Width::try_from(pixels) {
        Ok(width) => Reading::Screen(View {
            edition,
            mode,
            width,
        }),
        Err(_) => Reading::NoWidth(edition),
    }
}

/// A number: decimal digits alone, at most 4,294,967,295.
pub fn number(text: &str) -> Option<u32>
    ensures { result ≡ number_of text.now }
{
    if text.starts_with('+') {
        return None;
    }
    text.parse().ok()
}

// The choice after the option that stands first, and the arguments after it; none where no option stands there.
fn next_option<'a>(
    chosen: ReadSoFar,
    panels_known: bool,
    args: &'a [String],
) -> Option<(ReadSoFar, &'a [String])>
    ensures shorter { IfSome result (λ r. length r.1.now < length args.now) }
    ensures left { MatchOption result (NoOption panels_known (chosen_of chosen) (map string_bytes args.now))
        (λ r. OneOption panels_known (chosen_of chosen) (map string_bytes args.now) (chosen_of r.0) (map string_bytes r.1.now)) }
{
    let (word, rest) = args.split_first()?;
    match word.as_str() {
        "--snap" => Some((
            ReadSoFar {
                mode: Mode::Snapping,
                ..chosen
            },
            rest,
        )),
        "--panels" if panels_known => Some((
            ReadSoFar {
                panels: true,
                ..chosen
            },
            rest,
        )),
        "--width" => {
            let (text, rest) = rest.split_first()?;
            let pixels = number(text.as_str())?;
            Some((ReadSoFar { pixels, ..chosen }, rest))
        }
        "--edition" => {
            let (text, rest) = rest.split_first()?;
            let edition = number(text.as_str())?;
            Some((ReadSoFar { edition, ..chosen }, rest))
        }
        _ => None,
    }
}

/// The options at the front of a program's arguments, 128 pixels a bucket without `--width`, edition one without `--edition`; panels_known: `--panels` is one
/// of them. Whatever is none ends them: what may stand there the program knows.
pub fn read_options(args: &[String], panels_known: bool) -> Options<'_>
    ensures wanted { wanted_of result.want ≡ wanted_by (read_arguments panels_known (map string_bytes args.now)).choice }
    ensures others { map string_bytes result.others.now ≡ (read_arguments panels_known (map string_bytes args.now)).others }
{
    let mut chosen = ReadSoFar {
        edition: 1,
        mode: Mode::Exact,
        pixels: 128,
        panels: false,
    };
    let mut others = args;
    while let Some((next, rest)) = next_option(chosen, panels_known, others) {
        chosen = next;
        others = rest;
    }
    Options {
        want: Want {
            reading: reading_of(chosen.edition, chosen.mode, chosen.pixels),
            panels: chosen.panels,
        },
        others,
    }
}

/// The arguments that the program was started with, without its name. One that is no text is no argument of a program.
pub fn arguments<R: Env + AllocGlobal>(rt: &R) -> Result<Vec<String>, Stop<'static>>
    ensures { IfErr result (λ stop. (stop ≡ Stop.Failed Failure.OutOfMemory) ⊎ IsUsage stop) }
{
    match env::args(rt) {
        Ok(mut args) => {
            args.next();
            Ok(args.collect(rt.alloc())?)
        }
        Err(error) if error.kind() == ErrorKind::OutOfMemory => {
            Err(Stop::Failed(Failure::OutOfMemory))
        }
        Err(_) => Err(Stop::Usage(Wrong::NoText)),
    }
}
