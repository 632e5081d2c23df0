//! What the building calls take, of a recording's records. Parts: callers have judged them.
ghost use Rattle.std.specs.Prelude.{◌≡◌, ◌<◌};
ghost use Rattle.std.specs.Float.{binary32};
ghost use Rattle.std.specs.Float.Ieee.{of_bits, nan_bits};
ghost use Rattle.rules.specs.Walk.{props-of};
ghost use Rattle.file.specs.Records.{layer-of};
ghost use Rattle.walk.specs.Reading.{pattern_of, clip_in, clip_read, props_in, present, buffered};

use file::Layer;
use inputs::Clip;
use screen::layers::LayerProps;

// A NaN's pattern: past infinity's, but for the sign.
#[tactic(auto, using(crate::proofs::Opacity::no_nan, crate::proofs::Opacity::a_nan))]
fn is_nan_bits(bits: u32) -> bool
    ensures { result ≡ nan_bits binary32 bits }
{
    2139095040 < bits % 2147483648
}

/// The f32 of a word. A NaN's pattern is lost here: `pattern_of` keeps it.
pub fn float_of(bits: u32) -> f32
    ensures { result ≡ of_bits binary32 bits }
{
    if is_nan_bits(bits) {
        0.0 / 0.0
    } else {
        f32::from_bits(bits)
    }
}

/// A NaN's pattern, else 0.
pub fn pattern_of(bits: u32) -> u32
    ensures { result ≡ pattern_of bits }
{
    if is_nan_bits(bits) { bits } else { 0 }
}

// A layer's clip, if it is present.
fn to_clip(layer: Layer) -> Option<Clip>
    ensures { result ≡ clip_in (clip_read (layer-of layer)) }
{
    if layer.flag == 1 {
        Some(layer.clip)
    } else {
        None
    }
}

/// What a push is given of a layer. The opacity's word is the bits of an f32.
pub fn to_props(layer: Layer) -> LayerProps
    ensures props { result ≡ props_in (props-of (layer-of layer)) }
    ensures word { (layer-of layer).opacity < 4294967296 }
{
    LayerProps {
        blend: layer.blend,
        opacity: float_of(layer.opacity),
        nan: pattern_of(layer.opacity),
        mask: layer.mask,
        clip: to_clip(layer),
        panel: layer.panel,
    }
}

/// Rule 2: whether a filter layer is pushed and popped around its filter fill. A NaN opacity is not equal to 1.0, so it is.
pub fn needs_buffer(props: LayerProps) -> bool
    ensures { result ≡ buffered props }
{
    !props.blend.is_default() || props.opacity != 1.0 || props.mask != 0 || props.clip.is_some()
}
