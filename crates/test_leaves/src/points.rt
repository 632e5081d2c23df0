//! The leaves at the rules' known points (docs/RULES.md), at 128 pixels a bucket, and that a turned word is seen.
use crate::cases::Case;
use sizes::width::Width;
use span::TileSpan;

// Four buckets, the second with a depth fill of id 7.
const DEPTH: [u32; 4] = [0, 7, 0, 0];

fn split<'a>(first: u32, end: u32, parts: &'a [u32]) -> Case<'a> {
    Case::Split {
        width: Some(Width::W128),
        tiles: TileSpan { first, end },
        parts: Some(parts),
    }
}

// The unset runs of tiles 10 to 100.
fn unset<'a>(depth: &'a [u32], runs: &'a [u32]) -> Case<'a> {
    Case::Unset {
        width: Width::W128,
        depth,
        tiles: TileSpan {
            first: 10,
            end: 100,
        },
        runs,
    }
}

// Those visible at an id.
fn visible<'a>(depth: &'a [u32], id: u32, runs: &'a [u32]) -> Case<'a> {
    Case::Visible {
        width: Width::W128,
        depth,
        id,
        tiles: TileSpan {
            first: 10,
            end: 100,
        },
        runs,
    }
}

#[test]
fn splits_agree(rt: HostRuntime) {
    assert!(rt; split(10, 100, &[0, 10, 32, 1, 1, 3, 0, 96, 100]).agrees());
    assert!(rt; split(10, 40, &[0, 10, 40]).agrees());
    assert!(rt; split(0, 64, &[1, 0, 2]).agrees());
    assert!(rt; split(32, 64, &[1, 1, 2]).agrees());
    assert!(rt; split(5, 5, &[0, 5, 5]).agrees());
}

#[test]
fn runs_agree(rt: HostRuntime) {
    assert!(rt; unset(&DEPTH, &[10, 32, 64, 100]).agrees());
    assert!(rt; visible(&DEPTH, 7, &[10, 100]).agrees());
    assert!(rt; visible(&DEPTH, 6, &[10, 32, 64, 100]).agrees());
}

#[test]
fn turned_words_are_seen(rt: HostRuntime) {
    assert!(rt; !split(10, 100, &[0, 10, 32, 1, 1, 3, 0, 96, 99]).agrees());
    assert!(rt; !unset(&DEPTH, &[10, 32, 64, 99]).agrees());
    assert!(rt; !unset(&DEPTH, &[10, 32]).agrees());
    assert!(rt; !visible(&DEPTH, 7, &[10, 32, 64, 100]).agrees());
}
