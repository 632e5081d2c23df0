//! Everything that stands on a screen, as words: its numbers; each row's counts, summary, levels, commands, depth fills, depth words,
//! minima and painting; the attributes and filter paints.
use crate::answers::Answers;
use crate::tables::Shape;
use crate::words::word_at;
use screen::{Lent, Screen};
use sizes::{FILTER_PAINT, LAYER_ATTR, LAYER_PANEL, OPACITY_BASE, PAINT_ATTR, ROW};

fn show_numbers(answers: &mut Answers<'_>, screen: Screen) {
    let clip = screen.clip_bbox;
    answers.put_all(&[
        screen.next_draw_id,
        screen.paint_attrs,
        screen.layer_attrs,
        screen.filter_paints,
        screen.layers,
        u32::from(screen.painting),
        clip.x0,
        clip.y0,
        clip.x1,
        clip.y1,
    ]);
}

// Row i of a screen. Of a longer one's commands and depth fills those are shown that its counts name.
fn show_row(answers: &mut Answers<'_>, i: u32, shape: Shape, lent: &Lent<'_>) {
    let i = i as usize;
    let row = i * ROW;
    let renders = word_at(lent.rows, row) as usize;
    let depths = word_at(lent.rows, row + 1) as usize;
    answers.put_part(lent.rows, row, 6);
    answers.put_part(
        lent.render_cmds,
        i * shape.render_cmds as usize,
        4 * renders,
    );
    answers.put_part(lent.depth_cmds, i * shape.depth_cmds as usize, 2 * depths);
    let buckets = shape.depth as usize;
    answers.put_part(lent.depth, i * buckets, buckets);
    let room = shape.minima as usize;
    answers.put_part(lent.minima, i * room, room);
    answers.put_part(lent.painting, i * 2, 2);
}

/// The bits of an opacity, or the NaN pattern that is kept beside it.
pub fn bits_of(opacity: f32, nan: u32) -> u32 {
    if opacity.is_nan() {
        nan
    } else {
        opacity.to_bits()
    }
}

// A layer attribute's words but for its NaN pattern, in whose place its opacity stands.
fn show_layer(answers: &mut Answers<'_>, words: &[u32], opacity: f32) {
    answers.put_part(words, 0, 5);
    answers.put(bits_of(opacity, word_at(words, 5)));
    answers.put(word_at(words, LAYER_PANEL));
}

// Each word as 1 if it is negative and 0 else, and how far it is from 0.
fn show_filters(answers: &mut Answers<'_>, words: &[i32]) {
    for word in words {
        answers.put(u32::from(*word < 0));
        answers.put(word.unsigned_abs());
    }
}

/// Puts the screen's numbers, then its rows, then the attributes and filter paints that it has.
pub fn show(answers: &mut Answers<'_>, screen: Screen, lent: &Lent<'_>) {
    show_numbers(answers, screen);
    let shape = Shape::of_screen(screen);
    for i in 0..shape.rows {
        show_row(answers, i, shape, lent);
    }
    let paint_words = PAINT_ATTR * screen.paint_attrs as usize;
    answers.put_part(lent.paint_attrs, 0, paint_words);
    let layers = lent.layer_attrs.chunks_exact(LAYER_ATTR);
    let opacities = lent.opacities.iter().skip(OPACITY_BASE);
    for (words, opacity) in layers.zip(opacities).take(screen.layer_attrs as usize) {
        show_layer(answers, words, *opacity);
    }
    let filter_words = FILTER_PAINT * screen.filter_paints as usize;
    show_filters(
        answers,
        &lent.filter_paints[..filter_words.min(lent.filter_paints.len())],
    );
}
