//! Requests, one by one.
ghost use Rattle.std.specs.Prelude.{◌≡◌, ◌==◌, ◌++◌, IfOk, MatchOption, OnOk, codes, false, if◌then◌else◌, true};
ghost use Rattle.rv_monitor.specs.State.{without_break};
ghost use Rattle.rv_packets.specs.Items.{framed};
ghost use Rattle.rv_lab.specs.State.{board};
ghost use Rattle.rv_replies.specs.Looks.{look_text};
ghost use Rattle.rv_gdb.specs.Moves.{state_packet, went_back, with_session};
ghost use Rattle.rv_gdb.specs.Serves.{Replies, Says, Serves, inserted, removed, then_of, watch_of};
ghost use Rattle.rv_gdb.specs.Target.{mode_text, thread_text};
ghost use Rattle.rv_replies.specs.declared.stops.Reason.TheVariants.{Plain};

use crate::moves::TRAPPED;
use crate::target::{NO_HANDLER, Target};
use rv_base::NoMemory;
use rv_moves::{Aim, Watch};
use rv_packets::append_packet;
use rv_pmp::Mode;
use rv_replies::{Reason, append_hex_text, append_look};
use rv_requests::{Point, Request};

/// What follows a request.
#[derive(Clone, Copy)]
pub enum Then {
    /// The next request.
    Waits,
    /// A run.
    Runs,
    /// Nothing: the talk is over.
    Ends,
}

/// Returns the watch that a point is, if it isn't a breakpoint.
fn watch_of(point: Point, address: u32, size: u32) -> Option<Watch>
    ensures { result ≡ watch_of point address size }
{
    let (stores, loads) = match point {
        Point::Break => return None,
        Point::Store => (true, false),
        Point::Load => (false, true),
        Point::Access => (true, true),
    };
    Some(Watch {
        stores,
        loads,
        address,
        size,
    })
}

/// Returns what is said of a mode.
fn mode_text(mode: Mode) -> &'static [u8]
    ensures { result.now ≡ mode_text mode }
{
    match mode {
        Mode::User => b"user mode",
        Mode::Machine => b"machine mode",
    }
}

impl Target {
    /// Appends a packet.
    pub(crate) fn say(&self, contents: &[u8], out: &mut Vec<u8>) -> Result<(), NoMemory>
        ensures { OnOk result (out.new.items ≡ out.old.items ++ framed contents.now) }
    {
        append_packet(self.alloc, contents, out)
    }

    /// Inserts a point.
    fn insert(&mut self, point: Point, address: u32, size: u32) -> Result<(), NoMemory>
        ensures { OnOk result (self.new ≡ inserted point address size self.old) }
    {
        match watch_of(point, address, size) {
            Some(watch) => self.watches.insert(watch)?,
            None => self.lab.recording_mut().set_break(address)?,
        }
        Ok(())
    }

    /// Removes a point. The one where a trap without a handler leads stays.
    fn remove(&mut self, point: Point, address: u32, size: u32)
        ensures { self.new ≡ removed point address size self.old }
    {
        match watch_of(point, address, size) {
            Some(watch) => self.watches.remove(watch),
            None => self.clear(address),
        }
    }

    /// Removes a breakpoint, but for the one where a trap without a handler leads.
    fn clear(&mut self, address: u32)
        ensures { self.new ≡ (if address == 0 then self.old
            else with_session self.old (without_break self.old.lab.recording.session address)) }
    {
        if address != NO_HANDLER {
            let _was = self.lab.recording_mut().clear_break(address);
        }
    }

    /// Goes back to the first step.
    fn restart(&mut self, out: &mut Vec<u8>) -> Result<(), NoMemory>
        ensures state { OnOk result (self.new ≡ went_back self.old 0) }
        ensures says { OnOk result (out.new.items ≡ out.old.items ++ state_packet 5 Plain self.new) }
    {
        self.go_back(0)?;
        self.append_state(TRAPPED, Reason::Plain, out)
    }

    /// Returns what follows a request.
    #[tactic(auto, unfolding(crate::specs::Serves::then_of))]
    fn then_of(&self, request: &Request) -> Then
        ensures { result ≡ then_of request.now self.now }
    {
        match request {
            Request::StepWithin(_, _) => match self.met_next() {
                Some(_) => Then::Waits,
                None => Then::Runs,
            },
            Request::Continue => Then::Runs,
            Request::Detach | Request::End => Then::Ends,
            _ => Then::Waits,
        }
    }

    /// Does what a request asks for, and replies to it.
    #[tactic(auto, unfolding(crate::specs::Serves::Serves, crate::specs::Serves::Says))]
    fn answer(&mut self, request: &Request, out: &mut Vec<u8>) -> Result<(), NoMemory>
        ensures state { OnOk result (Serves request.now self.old self.new) }
        ensures says { OnOk result (Says request.now self.old self.new out.old.items out.new.items) }
    {
        match request {
            Request::Step => self.step(out),
            Request::StepWithin(from, to) => self.begin_within(*from, *to, out),
            Request::StepBack => self.step_back(out),
            Request::ContinueBack => self.run_back(out),
            Request::Continue => {
                self.begin(Aim::Stop);
                Ok(())
            }
            Request::Insert(point, address, size) => {
                self.insert(*point, *address, *size)?;
                self.say(b"OK", out)
            }
            Request::Remove(point, address, size) => {
                self.remove(*point, *address, *size);
                self.say(b"OK", out)
            }
            Request::Run => self.restart(out),
            Request::Command(line) => self.answer_line(line.bytes(), out),
            Request::ThreadText => self.describe_thread(out),
            Request::Detach => self.say(b"OK", out),
            Request::End | Request::Answered(_) => Ok(()),
            _ => self.tell(request, out),
        }
    }

    /// Serves a request, and returns what follows it.
    ///
    /// # Errors
    ///
    /// `NoMemory` if memory runs out. A move may have been made then.
    pub fn serve(&mut self, request: &Request, out: &mut Vec<u8>) -> Result<Then, NoMemory>
        ensures state { OnOk result (Serves request.now self.old self.new) }
        ensures says { OnOk result (Says request.now self.old self.new out.old.items out.new.items) }
        ensures next { IfOk result (λ next. next ≡ then_of request.now self.old) }
    {
        let then = self.then_of(request);
        self.answer(request, out)?;
        Ok(then)
    }

    /// Replies with what is said of the one thread: the board's mode.
    fn describe_thread(&self, out: &mut Vec<u8>) -> Result<(), NoMemory>
        ensures { OnOk result (out.new.items ≡ out.old.items ++ framed (thread_text (board self.now.lab))) }
    {
        let mut contents = Vec::new(self.alloc);
        append_hex_text(&mut contents, mode_text(self.board().mode()))?;
        self.say(&contents, out)
    }

    /// Replies to a request that leaves the board as it stands, and returns whether it is one.
    fn look(&self, request: &Request, out: &mut Vec<u8>) -> Result<bool, NoMemory>
        ensures { IfOk result (λ known. MatchOption (look_text request.now (board self.now.lab) self.now.files)
            ((known ≡ false) × (out.new ≡ out.old))
            (λ t. (known ≡ true) × (out.new.items ≡ out.old.items ++ framed t))) }
    {
        let mut contents = Vec::new(self.alloc);
        let known = append_look(&mut contents, request, self.board(), &self.files)?;
        if known {
            append_packet(self.alloc, &contents, out)?;
        }
        Ok(known)
    }

    /// Replies to a request that doesn't move the board: what it asks for, or else that it is agreed to.
    fn tell(&self, request: &Request, out: &mut Vec<u8>) -> Result<(), NoMemory>
        ensures { OnOk result (Replies request.now self.now out.old.items out.new.items) }
    {
        if self.look(request, out)? {
            return Ok(());
        }
        self.say(b"OK", out)
    }
}
