//! Sizes, limits, table lengths and places of fields by name, for code; `specs/Sizes` has the same for contracts, and `constants_hold` ties the two.
//! `answers` has the refusals with their numbers, `width` the widths of a depth bucket, `edition` the editions of a recording file.
#![tactic(auto)]

pub mod answers;
pub mod edition;
pub mod width;

ghost use Rattle.std.specs.Prelude.{◌≡◌, ◌+◌, ◌*◌, ℕ};
ghost use Rattle.sizes.specs.Sizes.{narrowest, tile-end, bucket-end, tile-width, tile-height, scene-end, tile-alphas, most-width, most-height, most-rows, most-runs, most-room, most-layers, most-attrs, most-filters, thread-end, handle-end, last-id, panel-end, most-records, file-bytes, long-file-bytes};
ghost use Rattle.sizes.specs.Sizes.{renders-at, depths-at, first-at, end-at, largest-at, levels-at, level-at, row-size, open-layer-size, open-layer-table, paint-attr-size, paint-id-at, paint-panel-at, paint-attr-table, layer-attr-size, layer-id-at, layer-panel-at, layer-attr-table, filter-paint-size, filter-paint-table, opacity-count, piece-size, line-size, line-table, state-size};
ghost use Rattle.sizes.specs.Sizes.{program-rows, program-buckets, program-room, program-render, program-fills, program-depth, program-minima, program-records, program-painting};

/// Tiles in a depth bucket of the narrowest width, 64 pixels.
pub const NARROWEST: usize = 16;

/// Tile numbers and row numbers are below it; the end of a span of tiles is at most it.
pub const TILE_END: u32 = 8192;

/// The end of a range of buckets is at most this at any width: the buckets up to TILE_END at the narrowest.
pub const BUCKET_END: usize = TILE_END as usize / NARROWEST;

/// Pixels that a tile is wide (vello_common, Tile::WIDTH).
pub const TILE_WIDTH: u32 = 4;

/// Pixels that a tile is high (vello_common, Tile::HEIGHT); a row of a screen is one tile high.
pub const TILE_HEIGHT: u32 = 4;

/// Pixels of the scene: the ends of boxes are at most this, as those of the tiles below TILE_END are.
pub const SCENE_END: u32 = TILE_END * TILE_WIDTH;

/// Alpha values of one tile: an alpha index moves by so many a tile.
pub const TILE_ALPHAS: u32 = 16;

/// Pixels that a viewport is wide at most.
pub const MOST_WIDTH: u32 = 4096;

/// Pixels that a viewport is high at most.
pub const MOST_HEIGHT: u32 = 2048;

/// Rows of tiles that a screen has at most: the highest viewport.
pub const MOST_ROWS: usize = (MOST_HEIGHT / TILE_HEIGHT) as usize;

/// Runs that a row of a screen has at most: every second bucket of the widest viewport, at the narrowest width.
pub const MOST_RUNS: usize = (MOST_WIDTH / TILE_WIDTH) as usize / NARROWEST / 2;

/// C and D are at most this: render commands, and depth fills, that a row has room for.
pub const MOST_ROOM: u32 = 1024;

/// Layers open at once; one more is refused by 6.
pub const MOST_LAYERS: u32 = 16;

/// Attributes of each kind, of paints and of layers, since a reset; one more is refused by 9.
pub const MOST_ATTRS: u32 = 1024;

/// Paints of filter fills since a reset; one more is refused by 9.
pub const MOST_FILTERS: u32 = 256;

/// Thread numbers are below it.
pub const THREAD_END: u32 = 256;

/// Handles of paints, masks and pictures are below it, 2^31.
pub const HANDLE_END: u32 = 2147483648;

/// Ids go from 1 up to this one, 2^20; a step that takes one after it is refused by 8.
pub const LAST_ID: u32 = 1048576;

/// Panel numbers are below it.
pub const PANEL_END: u32 = 256;

/// Records in a section of a recording file, and paints in a paint list, at most.
pub const MOST_RECORDS: usize = 4096;

/// Bytes of a recording file that `rowlist`, `rowdump` and `why` read, at most.
pub const FILE_BYTES: usize = 65536;

/// Bytes of one that a program reads which keeps no rows, at most.
pub const LONG_FILE_BYTES: usize = 1048576;

/// The words of a record in a recording file, and in the lists that a step is lent: a paint's,
pub const PAINT: usize = 4;

/// .. a segment's,
pub const SEGMENT: usize = 5;

/// .. a node's. How long a draw's and a layer's are the edition says.
pub const NODE: usize = 3;

/// A row's record, by word: how many render commands it has.
pub const RENDERS: usize = 0;

/// .. how many depth fills.
pub const DEPTHS: usize = 1;

/// .. the depth summary's first tile.
pub const FIRST: usize = 2;

/// .. its end tile.
pub const END: usize = 3;

/// .. its largest id; 0 where the row has no depth fill.
pub const LARGEST: usize = 4;

/// .. how many levels: open layers whose PushBuf stands on the row.
pub const LEVELS: usize = 5;

/// Level k, from 1 on, has LEVEL words from LEVEL_BASE + LEVEL * k on: the place of its PushBuf among the row's commands, and the tag and the span word that
/// this PushBuf gets at the pop. There is no level 0; its place would be in words 3 to 5.
pub const LEVEL_BASE: usize = 3;

/// The words of one level.
pub const LEVEL: usize = 3;

/// The words of a row's record.
pub const ROW: usize = LEVEL_BASE + LEVEL * (MOST_LAYERS as usize + 1);

/// The words of one open layer.
pub const OPEN_LAYER: usize = 17;

/// The words of the table of open layers.
pub const OPEN_TABLE: usize = MOST_LAYERS as usize * OPEN_LAYER;

/// The words of one paint attribute.
pub const PAINT_ATTR: usize = 9;

/// Which of them is the draw's id.
pub const PAINT_ID: usize = 4;

/// .. and the panel.
pub const PAINT_PANEL: usize = 8;

/// The words of the table of paint attributes.
pub const PAINT_TABLE: usize = MOST_ATTRS as usize * PAINT_ATTR;

/// The words of one layer attribute. Its opacity stands apart.
pub const LAYER_ATTR: usize = 7;

/// Which of them is the closing layer's id.
pub const LAYER_ID: usize = 3;

/// .. and the panel.
pub const LAYER_PANEL: usize = 6;

/// The words of the table of layer attributes.
pub const LAYER_TABLE: usize = MOST_ATTRS as usize * LAYER_ATTR;

/// The words of one paint of a filter fill; they are signed.
pub const FILTER_PAINT: usize = 4;

/// The words of the table of filter paints.
pub const FILTER_TABLE: usize = MOST_FILTERS as usize * FILTER_PAINT;

/// The words of one painted piece.
pub const PIECE: usize = 7;

/// The words of one attribute's line in the story of a tile.
pub const LINE: usize = 7;

/// The words of the lines of all attributes, of paints and of layers.
pub const LINE_TABLE: usize = LINE * (MOST_ATTRS as usize + MOST_ATTRS as usize);

/// Where the opacities of the layer attributes begin: those of the open layers stand before them.
pub const OPACITY_BASE: usize = MOST_LAYERS as usize;

/// How many opacities are lent: of the open layers, then of the layer attributes.
pub const OPACITIES: usize = OPACITY_BASE + MOST_ATTRS as usize;

/// The words of a screen's numbers, as a host lends them.
pub const STATE: usize = 17;

/// The programs' screens: rows at most; a file with more is refused by 2.
pub const PROGRAM_ROWS: usize = 32;

/// .. buckets in a row at most, at the narrowest width.
pub const PROGRAM_BUCKETS: usize = (MOST_WIDTH / TILE_WIDTH) as usize / NARROWEST;

/// .. C and D.
pub const PROGRAM_ROOM: u32 = 64;

/// The words of a row's render commands on such a screen, four a command.
pub const PROGRAM_RENDERS: usize = 4 * PROGRAM_ROOM as usize;

/// The words of a row's depth fills, two a fill.
pub const PROGRAM_DEPTHS: usize = 2 * PROGRAM_ROOM as usize;

/// The words of all rows: of their render commands.
pub const PROGRAM_RENDER: usize = PROGRAM_ROWS * PROGRAM_RENDERS;

/// .. of their depth fills.
pub const PROGRAM_FILLS: usize = PROGRAM_ROWS * PROGRAM_DEPTHS;

/// .. of their depth buckets, one a bucket.
pub const PROGRAM_DEPTH: usize = PROGRAM_ROWS * PROGRAM_BUCKETS;

/// .. of the minima above these, of a row at most twice its buckets less one.
pub const PROGRAM_MINIMA: usize = PROGRAM_ROWS * (2 * PROGRAM_BUCKETS - 1);

/// .. of their records.
pub const PROGRAM_RECORDS: usize = PROGRAM_ROWS * ROW;

/// .. of what painting keeps of them: steps done and nesting.
pub const PROGRAM_PAINTING: usize = PROGRAM_ROWS * 2;

// Each constant is the number that contracts call by the same name. It does nothing: what it promises is a theorem.
fn constants_hold()
    ensures tiles { (TILE_END ≡ tile-end) × (TILE_WIDTH ≡ tile-width) × (TILE_HEIGHT ≡ tile-height) × (TILE_ALPHAS ≡ tile-alphas) × (SCENE_END ≡ scene-end) }
    ensures buckets { (NARROWEST ≡ narrowest) × (BUCKET_END ≡ bucket-end) × (MOST_RUNS ≡ most-runs) }
    ensures screens { (MOST_WIDTH ≡ most-width) × (MOST_HEIGHT ≡ most-height) × (MOST_ROWS ≡ most-rows) × (MOST_ROOM ≡ most-room) }
    ensures counts { (MOST_LAYERS ≡ most-layers) × (MOST_ATTRS ≡ most-attrs) × (MOST_FILTERS ≡ most-filters) × (MOST_RECORDS ≡ most-records) }
    ensures ends { (THREAD_END ≡ thread-end) × (HANDLE_END ≡ handle-end) × (PANEL_END ≡ panel-end) × (LAST_ID ≡ last-id) }
    ensures file { (FILE_BYTES ≡ file-bytes) × (LONG_FILE_BYTES ≡ long-file-bytes) × (PAINT ≡ 4) × (SEGMENT ≡ 5) × (NODE ≡ 3) }
    ensures row { (RENDERS ≡ renders-at) × (DEPTHS ≡ depths-at) × (LEVELS ≡ levels-at) × (ROW ≡ row-size) }
    ensures summary { (FIRST ≡ first-at) × (END ≡ end-at) × (LARGEST ≡ largest-at) }
    ensures levels { (k : ℕ) → LEVEL_BASE + LEVEL * k ≡ level-at k }
    ensures layers { (OPEN_LAYER ≡ open-layer-size) × (OPEN_TABLE ≡ open-layer-table) × (OPACITY_BASE ≡ most-layers) × (OPACITIES ≡ opacity-count) }
    ensures paint_attrs { (PAINT_ATTR ≡ paint-attr-size) × (PAINT_ID ≡ paint-id-at) × (PAINT_PANEL ≡ paint-panel-at) × (PAINT_TABLE ≡ paint-attr-table) }
    ensures layer_attrs { (LAYER_ATTR ≡ layer-attr-size) × (LAYER_ID ≡ layer-id-at) × (LAYER_PANEL ≡ layer-panel-at) × (LAYER_TABLE ≡ layer-attr-table) }
    ensures filter_paints { (FILTER_PAINT ≡ filter-paint-size) × (FILTER_TABLE ≡ filter-paint-table) }
    ensures results { (PIECE ≡ piece-size) × (LINE ≡ line-size) × (LINE_TABLE ≡ line-table) × (STATE ≡ state-size) }
    ensures programs { (PROGRAM_ROWS ≡ program-rows) × (PROGRAM_BUCKETS ≡ program-buckets) × (PROGRAM_ROOM ≡ program-room) }
    ensures tables { (PROGRAM_RENDER ≡ program-render) × (PROGRAM_FILLS ≡ program-fills) × (PROGRAM_DEPTH ≡ program-depth) }
    ensures records { (PROGRAM_MINIMA ≡ program-minima) × (PROGRAM_RECORDS ≡ program-records) × (PROGRAM_PAINTING ≡ program-painting) }
{}
