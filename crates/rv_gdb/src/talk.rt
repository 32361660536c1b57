//! The talk with gdb: what each item of the stream, and each part of a run, leaves and appends.
ghost use Rattle.std.specs.Prelude.{◌≡◌, ◌++◌, OnOk};
ghost use Rattle.rv_packets.specs.declared.item.Item.TheVariants.{Packet};
ghost use Rattle.rv_requests.specs.Requests.{request_of};
ghost use Rattle.rv_gdb.specs.Talk.{GoesOn, Handles, Part, PartOrStop, Sends, Takes, after_acks, after_run, after_then, answered, answered_text, asked, asked_text, if_acks, next_of, opened, run_text, stopped, stopped_text};

use crate::served::Then;
use crate::target::Target;
use rv_base::NoMemory;
use rv_packets::{Contents, Item, append_packet};
use rv_requests::{Request, read_request};
use std::alloc::Global;
use std::marker::Model;

/// The question whether gdb asks to stop: whether its file 0 is a terminal. No memory is touched by it.
const QUESTION: &[u8] = b"Fisatty,0";

/// What the server goes on with.
#[derive(Clone, Copy, PartialEq, Eq, Debug)]
pub enum Next {
    /// It waits for bytes.
    Bytes,
    /// A run goes on: `go_on` takes steps of it.
    Steps,
    /// The talk is over.
    End,
}

/// A talk with gdb.
#[derive(Drop)]
pub(crate) struct Talk {
    alloc: Global,
    target: Target,
    /// What was sent last.
    last: Vec<u8>,
    /// Whether each packet is acknowledged.
    acks: bool,
    /// Whether gdb is asked, between parts of a run, if it is to stop.
    asks: bool,
    /// Whether a run isn't over.
    is_running: bool,
    /// Whether gdb was asked, and didn't answer yet.
    is_asked: bool,
    /// Whether it asked to stop.
    is_interrupted: bool,
    /// Whether the talk is over.
    is_over: bool,
}

impl Model for Talk {
    ghost use Rattle.std.specs.Coded.{codes, coded_ℕ};
    ghost use Rattle.std.specs.FinSet as set;
    ghost use Rattle.std.specs.Ordering.{nat_cmp};
    ghost use Rattle.rv_plic.specs.Support.Codes.{plic_code};
    ghost use Rattle.rv_gdb.specs.Talk.{TalkState};

    ghost Value = { TalkState };

    ghost coded = { Prim.hlevel (codes, plic_code, set.code {R = nat_cmp} coded_ℕ) };

    ghost view = { λ t. record { target = t.target; last = t.last.items; acks = t.acks; asks = t.asks; is_running = t.is_running; is_asked = t.is_asked; is_interrupted = t.is_interrupted; is_over = t.is_over } };
}

impl Talk {
    /// Begins a talk about a target. `asks` tells whether gdb is asked during a run if it is to stop.
    pub(crate) fn new(alloc: Global, target: Target, asks: bool) -> Talk
        ensures { result ≡ opened target asks }
    {
        Talk {
            alloc,
            target,
            last: Vec::new(alloc),
            acks: true,
            asks,
            is_running: false,
            is_asked: false,
            is_interrupted: false,
            is_over: false,
        }
    }

    /// Returns what the server goes on with.
    pub(crate) fn next(&self) -> Next
        ensures { result ≡ next_of self.now }
    {
        if self.is_over {
            return Next::End;
        }
        if self.is_running && !self.is_asked {
            return Next::Steps;
        }
        Next::Bytes
    }

    /// Stops a run for gdb.
    fn stop(&mut self, sent: &mut Vec<u8>) -> Result<(), NoMemory>
        ensures state { OnOk result (self.new ≡ stopped self.old) }
        ensures text { OnOk result (sent.new.items ≡ sent.old.items ++ stopped_text self.old) }
    {
        self.is_running = false;
        self.is_interrupted = false;
        self.target.interrupt(sent)
    }

    /// Takes gdb's answer to the question.
    fn answered(&mut self, stops: bool, sent: &mut Vec<u8>) -> Result<(), NoMemory>
        ensures state { OnOk result (self.new ≡ answered stops self.old) }
        ensures text { OnOk result (sent.new.items ≡ sent.old.items ++ answered_text stops self.old) }
    {
        self.is_asked = false;
        if stops || self.is_interrupted {
            return self.stop(sent);
        }
        Ok(())
    }

    /// Goes on with what follows a request.
    fn go_by(&mut self, then: Then)
        ensures { self.new ≡ after_then then self.old }
    {
        match then {
            Then::Waits => {}
            Then::Runs => self.is_running = true,
            Then::Ends => self.is_over = true,
        }
    }

    /// Acknowledges no more packets after a request for that.
    fn keep_acks(&mut self, request: &Request)
        ensures { self.new ≡ after_acks request.now self.old }
    {
        if let Request::StopAcks = request {
            self.acks = false;
        }
    }

    /// Serves a request.
    #[tactic(auto, unfolding(crate::specs::Talk::Handles))]
    fn serve(&mut self, request: &Request, sent: &mut Vec<u8>) -> Result<(), NoMemory>
        ensures { OnOk result (Handles request.now self.old self.new sent.old.items sent.new.items) }
    {
        if let Request::Answered(stops) = request {
            if self.is_asked {
                return self.answered(*stops, sent);
            }
            return Ok(());
        }
        let then = self.target.serve(request, sent)?;
        self.go_by(then);
        self.keep_acks(request);
        Ok(())
    }

    /// Takes a packet.
    fn take_packet(&mut self, contents: &[u8], sent: &mut Vec<u8>) -> Result<(), NoMemory>
        ensures { OnOk result (Handles (request_of contents.now) self.old self.new sent.old.items sent.new.items) }
    {
        let request = read_request(self.alloc, contents)?;
        self.serve(&request, sent)
    }

    /// Appends bytes if packets are acknowledged.
    fn append_if_acks(&self, bytes: &[u8], out: &mut Vec<u8>) -> Result<(), NoMemory>
        ensures { OnOk result (out.new.items ≡ out.old.items ++ if_acks self.now bytes.now) }
    {
        if self.acks {
            out.extend_from_slice(bytes)?;
        }
        Ok(())
    }

    /// Appends what is sent, and keeps it.
    fn send(&mut self, sent: Vec<u8>, out: &mut Vec<u8>) -> Result<(), NoMemory>
        ensures { OnOk result (Sends self.old self.new sent.items out.old.items out.new.items) }
    {
        out.extend_from_slice(&sent)?;
        self.last = sent;
        Ok(())
    }

    /// Takes a packet, and appends its acknowledgment and the answer.
    #[tactic(auto, using(crate::proofs::Talking::taken))]
    fn answer(&mut self, contents: &Contents, out: &mut Vec<u8>) -> Result<(), NoMemory>
        ensures { OnOk result (Takes (Packet contents.now) self.old self.new out.old.items out.new.items) }
    {
        self.append_if_acks(b"+", out)?;
        let mut sent = Vec::new(self.alloc);
        self.take_packet(contents.bytes(), &mut sent)?;
        self.send(sent, out)
    }

    /// Takes what the stream says, and appends the answer.
    #[tactic(auto, unfolding(crate::specs::Talk::Takes))]
    pub(crate) fn take_item(&mut self, item: &Item, out: &mut Vec<u8>) -> Result<(), NoMemory>
        ensures { OnOk result (Takes item.now self.old self.new out.old.items out.new.items) }
    {
        match item {
            Item::Packet(contents) => self.answer(contents, out),
            Item::BadSum => self.append_if_acks(b"-", out),
            Item::Again => self.append_if_acks(&self.last, out),
            Item::Interrupt => {
                self.is_interrupted = self.is_running;
                Ok(())
            }
            Item::Ack => Ok(()),
        }
    }

    /// Asks gdb whether the run is to stop, unless it isn't to be asked.
    fn ask(&mut self, sent: &mut Vec<u8>) -> Result<(), NoMemory>
        ensures state { OnOk result (self.new ≡ asked self.old) }
        ensures text { OnOk result (sent.new.items ≡ sent.old.items ++ asked_text self.old) }
    {
        if !self.asks {
            return Ok(());
        }
        self.is_asked = true;
        append_packet(self.alloc, QUESTION, sent)
    }

    /// Goes on after a part of a run, by whether the run does.
    fn end_part(&mut self, goes_on: bool, sent: &mut Vec<u8>) -> Result<(), NoMemory>
        ensures state { OnOk result (self.new ≡ after_run goes_on self.old) }
        ensures text { OnOk result (sent.new.items ≡ sent.old.items ++ run_text goes_on self.old) }
    {
        if goes_on {
            return self.ask(sent);
        }
        self.is_running = false;
        Ok(())
    }

    /// Takes at most `most` steps of the run, and tells where they end.
    fn take_part(&mut self, most: u64, sent: &mut Vec<u8>) -> Result<(), NoMemory>
        ensures { OnOk result (Part most self.old self.new sent.old.items sent.new.items) }
    {
        let end = self.target.take_part(most)?;
        let goes_on = self.target.end_part(end, sent)?;
        self.end_part(goes_on, sent)
    }

    /// Takes at most `most` steps of the run, or stops it where gdb asked for that.
    fn run_or_stop(&mut self, most: u64, sent: &mut Vec<u8>) -> Result<(), NoMemory>
        ensures { OnOk result (PartOrStop self.old.is_interrupted most self.old self.new sent.old.items sent.new.items) }
    {
        if self.is_interrupted {
            self.stop(sent)
        } else {
            self.take_part(most, sent)
        }
    }

    /// Takes at most `most` steps of the run, and appends what gdb is told.
    #[tactic(auto, using(crate::proofs::Talking::gone_on))]
    pub(crate) fn go_on(&mut self, most: u64, out: &mut Vec<u8>) -> Result<(), NoMemory>
        ensures { OnOk result (GoesOn most self.old self.new out.old.items out.new.items) }
    {
        let mut sent = Vec::new(self.alloc);
        self.run_or_stop(most, &mut sent)?;
        self.send(sent, out)
    }
}
