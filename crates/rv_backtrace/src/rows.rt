//! The row of an address.
ghost use Rattle.std.specs.Prelude.{◌≡◌};
ghost use Rattle.rv_backtrace.specs.Backtrace as spec;

use rv_frames::FrameRow;

/// Returns the row of an address: the last that begins there or before it.
pub(crate) fn row_at(rows: &[FrameRow], address: u32) -> Option<FrameRow>
    ensures { result ≡ spec.row_at rows.now address }
{
    let mut last = None;
    let mut left = rows;
    while let [row, rest @ ..] = left {
        if row.address <= address {
            last = Some(*row);
        }
        left = rest;
    }
    last
}
