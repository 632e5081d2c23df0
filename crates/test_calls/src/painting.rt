//! The painting calls of a sequence. A call that lists something is lent so many words of a list, full of marks; they follow its answer.
use crate::answers::{Answers, MARK};
use crate::call::Painting;
use crate::tables::{Shape, Table, Tables, first};
use depth::Depth;
use paint::{
    Canvas, Stepped, Stored, begin_painting, can_skip, is_hidden, paint_step, unset_runs,
    unset_runs_and_write, visible_runs,
};
use screen::{Lent, Screen};
use sizes::answers::{Refusal, answer_number};

// Most words of a list.
const LIST: usize = 64;

impl Painting {
    fn room(self) -> usize {
        match self {
            Painting::UnsetRuns { room, .. }
            | Painting::VisibleRuns { room, .. }
            | Painting::UnsetRunsAndWrite { room, .. } => room,
            Painting::CanSkip { .. } | Painting::IsHidden { .. } => 0,
        }
    }

    /// Makes the call on what is lent, and puts its number and what it gives.
    pub fn run(self, screen: &mut Screen, lent: &mut Lent<'_>, answers: &mut Answers<'_>) {
        let mut marks = [MARK; LIST];
        let list = &mut marks[..self.room().min(LIST)];
        match self {
            Painting::UnsetRuns { row, tiles, .. } => {
                let runs = unset_runs(*screen, row, lent.depth, tiles, list);
                answers.put_runs(runs, list);
            }
            Painting::VisibleRuns { row, id, tiles, .. } => {
                let runs = visible_runs(*screen, row, lent.depth, tiles, id, list);
                answers.put_runs(runs, list);
            }
            // Done, it ends painting.
            Painting::UnsetRunsAndWrite {
                row,
                id,
                buckets,
                ..
            } => {
                let mut depth = Depth {
                    words: lent.depth,
                    minima: lent.minima,
                };
                let runs = unset_runs_and_write(screen, row, &mut depth, buckets, id, list);
                answers.put_runs(runs, list);
            }
            Painting::CanSkip { row, tiles, id } => {
                answers.put_answer(can_skip(*screen, row, lent.rows, tiles, id));
            }
            Painting::IsHidden { row, buckets, id } => {
                answers.put_answer(is_hidden(*screen, row, lent.minima, buckets, id));
            }
        }
    }
}

impl Tables {
    /// Begins painting, with what a screen is lent: the number.
    pub fn begin(&mut self, screen: &mut Screen, short: Option<Table>) -> u32 {
        let n = Shape::of_screen(*screen).lengths(short);
        let mut canvas = Canvas {
            depth: Depth {
                words: first(&mut self.depth, n.depth),
                minima: first(&mut self.minima, n.minima),
            },
            painting: first(&mut self.painting, n.painting),
        };
        answer_number(begin_painting(screen, &mut canvas))
    }

    // A step of a row, with what a screen is lent. What it only reads and what it changes are parts of one loan, so it is made here.
    fn paint_step(
        &mut self,
        screen: Screen,
        row: usize,
        short: Option<Table>,
        list: &mut [u32],
    ) -> Result<Stepped, Refusal> {
        let n = Shape::of_screen(screen).lengths(short);
        let stored = Stored {
            rows: first(&mut self.rows, n.rows),
            render_cmds: first(&mut self.render_cmds, n.render_cmds),
            depth_cmds: first(&mut self.depth_cmds, n.depth_cmds),
            paint_attrs: first(&mut self.paint_attrs, n.paint_attrs),
            layer_attrs: first(&mut self.layer_attrs, n.layer_attrs),
        };
        let mut canvas = Canvas {
            depth: Depth {
                words: first(&mut self.depth, n.depth),
                minima: first(&mut self.minima, n.minima),
            },
            painting: first(&mut self.painting, n.painting),
        };
        paint_step(screen, row, &stored, &mut canvas, list)
    }

    /// The same, lent so many words of a list.
    pub fn step(
        &mut self,
        screen: Screen,
        row: usize,
        room: usize,
        short: Option<Table>,
        answers: &mut Answers<'_>,
    ) {
        let mut marks = [MARK; LIST];
        let list = &mut marks[..room.min(LIST)];
        let done = self.paint_step(screen, row, short, list);
        answers.put_step(done, list);
    }
}
