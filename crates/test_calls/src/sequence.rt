//! A sequence, from its calls to their answers.
use crate::answers::Answers;
use crate::build::compact;
use crate::call::Call;
use crate::forge::sum_all;
use crate::reading::Calls;
use crate::show::show;
use crate::tables::{Shape, Table, Tables};
use rect::NOWHERE;
use screen::{Screen, fresh};
use sizes::answers::answer_number;
use sizes::width::Width;

// The screen of a sequence, and the table that its calls are lent one word less of.
#[derive(Clone, Copy)]
struct Stand {
    screen: Screen,
    short: Option<Table>,
}

impl Stand {
    // No rows, and no table short.
    fn new() -> Stand {
        Stand {
            screen: fresh(NOWHERE, 1, 1, Width::W128),
            short: None,
        }
    }

    fn answer(&mut self, call: Call<'_>, tables: &mut Tables, answers: &mut Answers<'_>) {
        match call {
            Call::Build(step) => {
                let mut lent = tables.lend(step.shape(self.screen), self.short);
                answers.put(answer_number(step.run(&mut self.screen, &mut lent)));
            }
            Call::FillList(list) => {
                let mut lent = tables.lend(Shape::of_screen(self.screen), self.short);
                let done = list.run(&mut self.screen, &mut lent);
                answers.put_fills(done, list.draws.end.saturating_sub(list.draws.start));
            }
            Call::Begin => answers.put(tables.begin(&mut self.screen, self.short)),
            Call::Paint(painting) => {
                let mut lent = tables.lend(Shape::of_screen(self.screen), self.short);
                painting.run(&mut self.screen, &mut lent, answers);
            }
            Call::PaintStep { row, room } => {
                tables.step(self.screen, row, room, self.short, answers);
            }
            Call::CompactRow { row } => {
                let mut lent = tables.lend(Shape::of_screen(self.screen), self.short);
                answers.put(answer_number(compact(&mut self.screen, &mut lent, row)));
            }
            Call::NextId(id) => {
                self.screen.next_draw_id = id;
                answers.put(0);
            }
            Call::Show => {
                let lent = tables.lend(Shape::of_screen(self.screen), self.short);
                answers.put(0);
                show(answers, self.screen, &lent);
            }
            Call::Forge(forgery) => {
                forgery.run(&mut self.screen, tables);
                answers.put(0);
            }
            Call::LendShort(table) => {
                self.short = table;
                answers.put(0);
            }
            Call::Sum => answers.put(sum_all(self.screen, tables)),
            Call::Unknown => {}
        }
    }
}

/// All calls of a sequence on a screen of its own; how many words their answers have, which are dropped where there is no room for them.
pub fn run(sequence: &[u32], tables: &mut Tables, words: &mut [u32]) -> usize {
    let mut stand = Stand::new();
    let mut answers = Answers { words, at: 0 };
    for call in Calls::new(sequence) {
        stand.answer(call, tables, &mut answers);
    }
    answers.at
}
