// For the proof: the data of segments are bytes.

ghost use Rattle.std.specs.Prelude.{◌<◌, All};
ghost use Rattle.module_ast.specs.declared.module.Segment.{Segment};

use module_ast::module::Segment;

// For the proof: bytes are below 256, because their type says so. None is read.
fn are_bytes(_bytes: &[u8])
    ensures { All (λ b. b < 256) _bytes.now }
{}

/// For the proof: the data of each segment are bytes. Takes a step for each segment, and reads none of the bytes.
pub(crate) fn have_bytes(segments: &[Segment])
    ensures { All (λ (d : Segment). All (λ b. b < 256) d.bytes) segments.now }
{
    for segment in segments {
        are_bytes(segment.bytes.as_slice());
    }
}
