use super::{to_edition_one, to_edition_two};
use rect::Mode;

// The bits of a NaN, a layer's opacity.
const NAN: u32 = 0x7fc0_0001;

// A screen of one tile, a paint with shifts 5 and 6, a segment, a draw of thread 2, a layer, a node and the root, in edition one.
const ONE: [u32; 54] = [
    1, 0, 0, 4, 4, 1, 1, 7, 5, 6, 1, 0, 0, 0, 1, 0, 1, 2, 0, 1, 0, 0, 3, 0, 1, 0, 0, 0, 0, 3, NAN,
    0, 0, 0, 0, 0, 0, 0, 0, 0, 0, 0, 0, 0, 0, 0, 0, 1, 0, 1, 1, 1, 0, 1,
];

// The same in edition two: the head, and a panel 0 at the end of the draw and of the layer.
const TWO: [u32; 58] = [
    1, 2, 1, 0, 0, 4, 4, 1, 1, 7, 5, 6, 1, 0, 0, 0, 1, 0, 1, 2, 0, 1, 0, 0, 3, 0, 0, 1, 0, 0, 0, 0,
    3, NAN, 0, 0, 0, 0, 0, 0, 0, 0, 0, 0, 0, 0, 0, 0, 0, 0, 0, 1, 0, 1, 1, 1, 0, 1,
];

#[test]
fn converts_to_edition_two(rt: HostRuntime) {
    let mut out = [9; 59];
    assert_eq!(rt; to_edition_two(&ONE, Mode::Exact, &mut out), Ok(58));
    assert!(rt; out.starts_with(&TWO));
    assert_eq!(rt; out[58], 9);
}

#[test]
fn converts_to_edition_one(rt: HostRuntime) {
    let mut out = [9; 55];
    assert_eq!(rt; to_edition_one(&TWO, Mode::Exact, &mut out), Ok(54));
    assert!(rt; out.starts_with(&ONE));
    assert_eq!(rt; out[54], 9);
}
