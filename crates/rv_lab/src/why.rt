//! Why a trap came, and where a value came from.
ghost use Rattle.std.specs.Prelude.{◌≡◌, IfOk, Some};
ghost use Rattle.rv_lab.specs.Runs.{origin_of, trail_after};
ghost use Rattle.rv_lab.specs.Support.Short.{Executes};
ghost use Rattle.rv_lab.specs.declared.order.Order.TheVariants as orders;

use crate::lab::{Done, Lab};
use crate::trail::Trail;
use rv_answers::{Answer, Origin};
use rv_base::NoMemory;
use rv_why::{explain, origin};

/// Returns what is followed after a write was told: the write before it.
fn trail_after(trail: Trail, origin: &Origin) -> Trail
    ensures { result ≡ trail_after trail origin.now }
{
    let steps = match origin.write {
        Some(write) => write.step.saturating_sub(1),
        None => 0,
    };
    Trail {
        watched: trail.watched,
        steps,
    }
}

impl Lab {
    /// Answers `why`.
    #[tactic(auto, using(crate::proofs::Obeyed::kept))]
    pub(crate) fn explained(&self) -> Result<Done, NoMemory>
        ensures { Executes orders.Explain self.now self.now result }
    {
        Ok(Done::more(Answer::Explained(explain(&self.recording)?)))
    }

    /// Returns the last write of what is followed.
    pub(crate) fn origin_of(&self, trail: &Trail) -> Result<Origin, NoMemory>
        ensures { IfOk result (λ o. o ≡ origin_of self.now trail.now) }
    {
        origin(&self.recording, trail.watched, trail.steps)
    }

    /// Keeps what `why` alone goes on with.
    fn keep_trail(&mut self, trail: Trail)
        ensures { self.new ≡ record self.old { trail = Some trail } }
    {
        self.last.trail = Some(trail);
    }

    /// Tells the last write of what is followed, and keeps that the one before it is told next.
    #[tactic(auto, using(crate::proofs::Obeyed::kept))]
    pub(crate) fn origin(&mut self, trail: Trail) -> Result<Done, NoMemory>
        ensures { Executes (orders.Origin trail) self.old self.new result }
    {
        let origin = self.origin_of(&trail)?;
        self.keep_trail(trail_after(trail, &origin));
        Ok(Done::more(Answer::Origin(origin)))
    }
}
