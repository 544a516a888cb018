// A reading of the head: read, or refused.
use crate::Answer;
use crate::steps::Read;
use flow::Dim;
use head::{Cause, Refusal, Shedder};
use store::OFFSETS;

fn read<A: Drop>(value: Result<A, Refusal>) -> Answer {
    value.map(|_| None)
}

pub fn reading(which: Read, head: Shedder, offsets: &[u32; OFFSETS]) -> Answer {
    match which {
        Read::Visited => read(head_readings::visited(head, offsets)),
        Read::CutBatches => read(head_readings::cut_batches(head, offsets, Cause::OverShare)),
        Read::Level => read(head_readings::level(head, offsets, Dim::Receptions)),
        Read::Rate => read(head_readings::rate(head, offsets, Dim::Bytes)),
        Read::IsBounded => read(head_readings::is_bounded(head, offsets)),
    }
}
