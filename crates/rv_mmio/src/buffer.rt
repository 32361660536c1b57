//! Copies of rings.
ghost use Rattle.std.specs.Prelude.{◌≡◌, IfOk};

use circular_buffer::HeapCircularBuffer;
use rv_base::NoMemory;
use std::alloc::Global;

/// Returns a copy of a ring, with its capacity.
///
/// # Errors
///
/// `NoMemory` if memory runs out.
#[tactic(auto, using(crate::proofs::Buffers::filled))]
pub fn copied_buffer<T: Copy>(
    alloc: Global,
    buffer: &HeapCircularBuffer<T>,
) -> Result<HeapCircularBuffer<T>, NoMemory>
    ensures { IfOk result (λ copy. copy ≡ buffer.now) }
{
    let mut copy = HeapCircularBuffer::with_capacity(alloc, buffer.capacity())?;
    let (first, rest) = buffer.as_slices();
    copy.extend_from_slice(first);
    copy.extend_from_slice(rest);
    Ok(copy)
}
