//! The server: the talk with gdb over a stream of bytes.
ghost use Rattle.std.specs.Prelude.{◌≡◌, OnOk, option_to_list};
ghost use Rattle.rv_packets.specs.Items.{after, items, outside, step};
ghost use Rattle.rv_gdb.specs.Talk.{GoesOn, Talks, next_of, opened};

use crate::talk::{Next, Talk};
use crate::target::Target;
use rv_base::NoMemory;
use rv_packets::Receiver;
use std::alloc::Global;
use std::marker::Model;

/// A server of gdb's remote protocol; its view is a talk, and where the stream of gdb's bytes stands.
#[derive(Drop)]
pub struct Server {
    alloc: Global,
    talk: Talk,
    receiver: Receiver,
}

impl Model for Server {
    ghost use Rattle.std.specs.Coded.{codes, coded_ℕ};
    ghost use Rattle.std.specs.FinSet as set;
    ghost use Rattle.std.specs.Ordering.{nat_cmp};
    ghost use Rattle.rv_plic.specs.Support.Codes.{plic_code};
    ghost use Rattle.rv_gdb.specs.Talk.{ServerState};

    ghost Value = { ServerState };

    ghost coded = { Prim.hlevel (codes, plic_code, set.code {R = nat_cmp} coded_ℕ) };

    ghost view = { λ s. record { talk = s.talk; stream = s.receiver } };
}

impl Server {
    /// Makes a server of a target. `asks` tells whether gdb is asked during a run if it is to stop.
    pub fn new(alloc: Global, target: Target, asks: bool) -> Server
        ensures { result ≡ record { talk = opened target asks; stream = outside } }
    {
        Server {
            alloc,
            talk: Talk::new(alloc, target, asks),
            receiver: Receiver::new(alloc),
        }
    }

    /// Returns what the server goes on with.
    pub fn next(&self) -> Next
        ensures { result ≡ next_of self.now.talk }
    {
        self.talk.next()
    }

    /// Takes a byte of gdb, and appends what answers it.
    #[tactic(auto, using(crate::proofs::Talking::one, crate::proofs::Talking::none))]
    fn take_byte(&mut self, byte: u8, out: &mut Vec<u8>) -> Result<(), NoMemory>
        ensures stream { OnOk result (self.new.stream ≡ (step self.old.stream.phase self.old.stream byte).state) }
        ensures talk { OnOk result (Talks (option_to_list (step self.old.stream.phase self.old.stream byte).item)
            self.old.talk self.new.talk out.old.items out.new.items) }
    {
        match self.receiver.feed(self.alloc, byte)? {
            Some(item) => self.talk.take_item(&item, out),
            None => Ok(()),
        }
    }

    /// Takes bytes of gdb, and appends the bytes that answer them. Bytes in several pieces are answered as they are in one.
    ///
    /// # Errors
    ///
    /// `NoMemory` if memory runs out.
    #[tactic(auto, using(crate::proofs::Talking::fed_begins, crate::proofs::Talking::fed_more, crate::proofs::Talking::fed_ends))]
    pub fn feed(&mut self, bytes: &[u8], out: &mut Vec<u8>) -> Result<(), NoMemory>
        ensures stream { OnOk result (self.new.stream ≡ after self.old.stream bytes.now) }
        ensures talk { OnOk result (Talks (items self.old.stream bytes.now) self.old.talk self.new.talk
            out.old.items out.new.items) }
    {
        for byte in bytes {
            self.take_byte(*byte, out)?;
        }
        Ok(())
    }

    /// Takes at most `most` steps of the run, and appends what gdb is told.
    ///
    /// # Errors
    ///
    /// `NoMemory` if memory runs out.
    pub fn go_on(&mut self, most: u64, out: &mut Vec<u8>) -> Result<(), NoMemory>
        ensures stream { OnOk result (self.new.stream ≡ self.old.stream) }
        ensures talk { OnOk result (GoesOn most self.old.talk self.new.talk out.old.items out.new.items) }
    {
        self.talk.go_on(most, out)
    }
}
