//! The headers of a program.
ghost use Rattle.std.specs.Prelude.{◌≡◌, ◌+◌, ◌%◌, ◌≤◌, Some, slice_get};
ghost use Rattle.bm_pipeline.specs.Validity.{IsValid, IsHeader, IsInPackets};

use bm_pipeline::headers::Header;
use bm_pipeline::program::Program;

/// The header at a place among the headers, one that is read from packets or written to them.
#[tactic(auto, using(crate::proofs::Places::in_packets))]
pub(crate) fn header_at(program: &Program, place: usize) -> &Header
    requires valid { IsValid program.now }
    requires in_packets { IsInPackets program.now place }
    ensures found { slice_get program.now.headers place ≡ Some result.now }
    ensures place { result.now.place.header ≡ place }
    ensures header { IsHeader result.now.place.header result.now.place.first result.now }
    ensures whole { result.now.bits % 8 ≡ 0 }
    ensures fields { result.now.place.first + result.now.place.count ≤ program.now.fields }
{
    &program.headers.as_slice()[place]
}
