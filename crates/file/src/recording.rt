//! A recording file of good form: its records by their numbers, its lists as parts of the words. Where they stand among the words no caller has to know.
ghost use Rattle.std.specs.Prelude.{◌≡◌, ◌*◌, ◌≤◌, ◌<◌, length, get_or};
ghost use Rattle.sizes.specs.Refusals.{answer_number};
ghost use Rattle.rules.specs.Inputs as rule;
ghost use Rattle.rules.specs.Recording as rules;
ghost use Rattle.rules.specs.Recording.{in-one};
ghost use Rattle.sizes.specs.Editions.{draw-size};
ghost use Rattle.rect.specs.Rects.{box_of};
ghost use Rattle.segments.specs.Segs.{segs-of};
ghost use Rattle.inputs.specs.Inputs.{draw-of};
ghost use Rattle.file.specs.Held.{file_of};
ghost use Rattle.file.specs.Judging.{judged};
ghost use Rattle.file.specs.Records.{layer-of, node-of};

use crate::form::{Layout, read_form};
use crate::judge::judge_records;
use crate::records::{Layer, Node, box_at, layer_at, node_at, root_at};
use inputs::Draw;
use inputs::draws::draw_at;
use rect::Rect;
use sizes::answers::Refusal;
use sizes::edition::Edition;
use sizes::{NODE, PAINT, SEGMENT};

/// A recording file: the edition that it is told to be of, and its words.
#[derive(Clone, Copy)]
pub struct File<'a> {
    pub edition: Edition,
    pub words: &'a [u32],
}

impl File<'_> {
    /// Words of edition one.
    pub fn in_one(words: &[u32]) -> File<'_>
        ensures { file_of result ≡ in-one words.now }
    {
        File {
            edition: Edition::One,
            words,
        }
    }
}

/// A file's words, and where its sections stand in them.
#[derive(Clone, Copy)]
pub struct Recording<'a> {
    words: &'a [u32],
    layout: Layout,
}

impl Recording<'_> {
    ghost use Rattle.file.specs.Held.{held, paints-in, FitsIn, HeldOf, edition-of, DrawsIn};

    /// The recording of a file, or BadForm, 3: its words are not exactly those of a file of its edition.
    pub fn read(file: File<'_>) -> Result<Recording<'_>, Refusal>
        ensures { HeldOf (file_of file.entry) result }
    {
        let layout = read_form(file.words, file.edition)?;
        Ok(Recording {
            words: file.words,
            layout,
        })
    }

    /// The viewport, in pixels.
    pub fn viewport(&self) -> Rect
        requires { FitsIn self.now }
        ensures { box_of result ≡ (held self.now).viewport }
    {
        box_at(self.words, self.layout.viewport.at)
    }

    /// The paints' words, four each.
    pub fn paints(&self) -> &[u32]
        requires { FitsIn self.now }
        ensures read { paints-in result.now (length (held self.now).paints) ≡ (held self.now).paints }
        ensures long { length result.now ≡ 4 * length (held self.now).paints }
    {
        let paints = self.layout.paints;
        &self.words[paints.at..paints.at + PAINT * paints.count]
    }

    /// How many paints there are, at most 4,096.
    pub fn paint_count(&self) -> usize
        requires { FitsIn self.now }
        ensures same { result ≡ length (held self.now).paints }
        ensures few { result ≤ 4096 }
    {
        self.layout.paints.count
    }

    /// The segments' words, five each.
    pub fn segments(&self) -> &[u32]
        requires { FitsIn self.now }
        ensures read { segs-of result.now ≡ (held self.now).segments }
        ensures long { length result.now ≡ 5 * length (held self.now).segments }
    {
        let segments = self.layout.segments;
        &self.words[segments.at..segments.at + SEGMENT * segments.count]
    }

    /// The edition that its words are read in.
    pub fn edition(&self) -> Edition
        ensures { result ≡ edition-of self.now }
    {
        self.layout.edition
    }

    /// The draws' words, as many each as the edition says.
    pub fn draws(&self) -> &[u32]
        requires { FitsIn self.now }
        ensures read { DrawsIn self.now result.now }
        ensures long { length result.now ≡ draw-size (edition-of self.now) * length (held self.now).draws }
    {
        let draws = self.layout.draws;
        &self.words[draws.at..draws.at + self.layout.edition.draw() * draws.count]
    }

    /// Draw i, counted from 0.
    pub fn draw(&self, i: usize) -> Draw
        requires fits { FitsIn self.now }
        requires there { i < length (held self.now).draws }
        ensures { (d : rule.Draw) → draw-of result ≡ get_or (held self.now).draws i d }
    {
        let edition = self.layout.edition;
        draw_at(
            self.words,
            edition,
            self.layout.draws.at + edition.draw() * i,
        )
    }

    /// Layer i, counted from 0.
    pub fn layer(&self, i: usize) -> Layer
        requires fits { FitsIn self.now }
        requires there { i < length (held self.now).layers }
        ensures { (d : rules.LayerRec) → layer-of result ≡ get_or (held self.now).layers i d }
    {
        let edition = self.layout.edition;
        layer_at(
            self.words,
            self.layout.layers.at + edition.layer() * i,
            edition,
        )
    }

    /// Node i, counted from 0.
    pub fn node(&self, i: usize) -> Node
        requires fits { FitsIn self.now }
        requires there { i < length (held self.now).nodes }
        ensures { (d : rules.Node) → node-of result ≡ get_or (held self.now).nodes i d }
    {
        node_at(self.words, self.layout.nodes.at + NODE * i)
    }

    /// The nodes that the root names: the first, and the one past the last.
    pub fn root(&self) -> (usize, usize)
        requires { FitsIn self.now }
        ensures { result ≡ ((held self.now).start, (held self.now).end) }
    {
        root_at(self.words, self.layout.root.at)
    }

    /// BadRecord, 4, if a record is bad, then BadOrder, 5, if a list is out of order; every record, also one that no walk reaches.
    pub fn judge(&self) -> Result<(), Refusal>
        requires { FitsIn self.now }
        ensures { answer_number result ≡ judged (held self.now) }
    {
        judge_records(self.words, self.layout)
    }
}
