//! Each text.
ghost use Rattle.std.specs.Prelude.{◌≡◌};
ghost use Rattle.row.specs.Rows.{all-held};
ghost use Rattle.screen.specs.Lent.{tables_in};
ghost use Rattle.file.specs.Held.{file_of};
ghost use Rattle.text.specs.Dumped.{tables_of};
ghost use Rattle.theorem_once.specs.Painting.{row-text-words};

use crate::Twice;
use file::File;
use paint::{Canvas, Stored};
use row::Rows;
use screen::{Lent, Screen, Setup};
use sizes::answers::Refusal;
use text::{
    FileBytes, FileText, Size, Tables, attrs_text, list_screen, no_width_refusal, recording_text,
    refusal_line, row_text, size_of,
};
use text_files::file_text;
use text_files::tables::Tables as FileTables;

/// Two calls of `list_screen`.
pub fn list_twice(
    a: &Rows<'_>,
    a_bytes: &mut [u8],
    b: &Rows<'_>,
    b_bytes: &mut [u8],
    screen: Screen,
) -> Twice<Result<usize, Refusal>>
    ensures { (all-held a.now ≡ all-held b.now) × (a_bytes.old ≡ b_bytes.old)
        → (result.0 ≡ result.1) × (a_bytes.new ≡ b_bytes.new) }
{
    (
        list_screen(screen, a, a_bytes),
        list_screen(screen, b, b_bytes),
    )
}

/// Two calls of `refusal_line`.
pub fn refusal_line_twice(
    a_bytes: &mut [u8],
    b_bytes: &mut [u8],
    n: u32,
) -> Twice<Result<usize, Refusal>>
    ensures { a_bytes.old ≡ b_bytes.old
        → (result.0 ≡ result.1) × (a_bytes.new ≡ b_bytes.new) }
{
    (refusal_line(n, a_bytes), refusal_line(n, b_bytes))
}

/// Two calls of `attrs_text`.
pub fn attrs_twice(
    a: &Tables<'_>,
    a_bytes: &mut [u8],
    b: &Tables<'_>,
    b_bytes: &mut [u8],
    screen: Screen,
    panels: bool,
) -> Twice<Result<usize, Refusal>>
    ensures { (tables_of a.now ≡ tables_of b.now) × (a_bytes.old ≡ b_bytes.old)
        → (result.0 ≡ result.1) × (a_bytes.new ≡ b_bytes.new) }
{
    (
        attrs_text(screen, panels, a, a_bytes),
        attrs_text(screen, panels, b, b_bytes),
    )
}

/// What a row's text reads and writes.
#[derive(Drop)]
pub struct RowTextLent<'a> {
    pub stored: Stored<'a>,
    pub canvas: Canvas<'a>,
    pub list: &'a mut [u32],
    pub bytes: &'a mut [u8],
}

/// Two calls of `row_text`.
pub fn row_text_twice(
    a: &mut RowTextLent<'_>,
    b: &mut RowTextLent<'_>,
    screen: Screen,
    row: u32,
    panels: bool,
) -> Twice<Result<usize, Refusal>>
    ensures { row-text-words a.old ≡ row-text-words b.old
        → (result.0 ≡ result.1) × (row-text-words a.new ≡ row-text-words b.new) }
{
    (
        row_text(
            screen,
            row,
            panels,
            &a.stored,
            &mut a.canvas,
            a.list,
            a.bytes,
        ),
        row_text(
            screen,
            row,
            panels,
            &b.stored,
            &mut b.canvas,
            b.list,
            b.bytes,
        ),
    )
}

/// Two calls of `size_of`.
pub fn size_twice(a: File<'_>, b: File<'_>, setup: Setup) -> Twice<Result<Size, Refusal>>
    ensures { file_of a.entry ≡ file_of b.entry → result.0 ≡ result.1 }
{
    (size_of(a, setup), size_of(b, setup))
}

/// Two calls of `recording_text`.
pub fn recording_text_twice(
    a: File<'_>,
    a_lent: &mut Lent<'_>,
    a_bytes: &mut [u8],
    b: File<'_>,
    b_lent: &mut Lent<'_>,
    b_bytes: &mut [u8],
    setup: Setup,
) -> Twice<FileText>
    ensures { (file_of a.entry ≡ file_of b.entry) × (tables_in a_lent.old ≡ tables_in b_lent.old) × (a_bytes.old ≡ b_bytes.old)
        → (result.0 ≡ result.1) × (tables_in a_lent.new ≡ tables_in b_lent.new) × (a_bytes.new ≡ b_bytes.new) }
{
    (
        recording_text(a, setup, a_lent, a_bytes),
        recording_text(b, setup, b_lent, b_bytes),
    )
}

/// Two calls of `no_width_refusal`.
pub fn no_width_twice(a: FileBytes<'_>, b: FileBytes<'_>) -> Twice<Refusal>
    ensures { (a.entry.edition ≡ b.entry.edition) × (a.entry.bytes.now ≡ b.entry.bytes.now) → result.0 ≡ result.1 }
{
    (no_width_refusal(a), no_width_refusal(b))
}

/// Two calls of `file_text`, each over tables of its own, which may hold anything.
pub fn file_text_twice(
    a: FileBytes<'_>,
    a_tables: &mut FileTables,
    a_bytes: &mut [u8],
    b: FileBytes<'_>,
    b_tables: &mut FileTables,
    b_bytes: &mut [u8],
    setup: Setup,
) -> Twice<FileText>
    ensures { (a.entry.edition ≡ b.entry.edition) × (a.entry.bytes.now ≡ b.entry.bytes.now) × (a_bytes.old ≡ b_bytes.old)
        → (result.0 ≡ result.1) × (a_bytes.new ≡ b_bytes.new) }
{
    (
        file_text(a, setup, a_tables, a_bytes),
        file_text(b, setup, b_tables, b_bytes),
    )
}
