//! Sessions that take recorded steps again from a kept state on.
ghost use Rattle.std.specs.Prelude.{◌≡◌, ◌≤◌, IfOk};
ghost use Rattle.rv_recording.specs.Recording.{gone_back};

use crate::Recording;
use rv_base::NoMemory;
use rv_cache::DecodeCache;
use rv_monitor::Session;
use rv_ram::PagedRam;

impl Recording {
    /// Returns a session that takes the recorded steps again, and no more, and how many of the first `steps` it
    /// has taken: as many as the newest state that is kept of them, so it takes none here. The recording stays as
    /// it is.
    ///
    /// # Errors
    ///
    /// `NoMemory` if memory runs out.
    #[tactic(auto, using(crate::proofs::Stands::replayed))]
    pub fn replay_near(&self, steps: u64) -> Result<(Session<PagedRam, DecodeCache>, u64), NoMemory>
        ensures within { IfOk result (λ r. r.1 ≤ steps) }
        ensures timed { IfOk result (λ r. r.0.timed ≡ (gone_back self.now r.1).session.timed) }
        ensures limit { IfOk result (λ r. r.0.limit ≡ self.now.session.timed.taken) }
    {
        let taken = self.session().taken();
        let mut run = self.begun_again(taken)?;
        let (board, before) = self.board_before(steps.min(taken))?;
        run.resume(board, before, 0)?;
        Ok((run, before))
    }
}
