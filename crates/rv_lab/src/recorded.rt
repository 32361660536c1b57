//! The recording of a lab, for those that move it otherwise than by command lines.
ghost use Rattle.std.specs.Prelude.{◌≡◌};
ghost use Rattle.std.specs.Borrow.{sem};
ghost use Rattle.rv_lab.specs.Lending.{LendsRecording};

use crate::lab::Lab;
use rv_recording::Recording;

impl Lab {
    /// Returns the recording.
    pub fn recording(&self) -> &Recording
        ensures { result.now ≡ self.now.recording }
    {
        &self.recording
    }

    /// Returns the recording, to be moved.
    pub fn recording_mut(&mut self) -> &mut Recording
        ensures* lends { sem 𝓛 (LendsRecording self.entry result) }
        ensures value { result.now ≡ self.old.recording }
    {
        &mut self.recording
    }
}
