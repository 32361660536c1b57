//! What gdb debugs: a lab, and the files that gdb reads of it.
ghost use Rattle.std.specs.Prelude.{◌≡◌, ◌++◌, IfOk, OnOk, drop};
ghost use Rattle.rv_gdb.specs.Target.{begun, console_text, note_packet, with_console};
ghost use Rattle.rv_lab.specs.State.{board};

use rv_base::NoMemory;
use rv_board::BootedBoard;
use rv_lab::Lab;
use rv_moves::{Aim, Watches};
use rv_packets::append_packet;
use rv_replies::{Files, append_hex_text};
use std::alloc::Global;
use std::marker::Model;

/// Where a trap goes whose handler wasn't named: mtvec is 0 at reset, and there is no memory.
pub(crate) const NO_HANDLER: u32 = 0;

/// A lab that gdb debugs, with the files that it reads. `told` is the number of bytes of the console that it was told,
/// `aim` what a run goes on for, and `calls` how many handlers and calls are open in it.
pub struct Target {
    pub(crate) alloc: Global,
    pub(crate) lab: Lab,
    pub(crate) files: Files,
    pub(crate) told: usize,
    pub(crate) watches: Watches,
    pub(crate) aim: Aim,
    pub(crate) calls: u64,
}

// Hand-written: a derived `Drop` would be proved anew at each exit (docs/PROVING.md).
impl Drop for Target {
    fn drop(self) {
        let Target {
            alloc: _,
            lab: _,
            files: _,
            told: _,
            watches: _,
            aim: _,
            calls: _,
        } = self;
    }
}

impl Model for Target {
    ghost use Rattle.std.specs.Coded.{codes, coded_ℕ};
    ghost use Rattle.std.specs.FinSet as set;
    ghost use Rattle.std.specs.Ordering.{nat_cmp};
    ghost use Rattle.rv_plic.specs.Support.Codes.{plic_code};
    ghost use Rattle.rv_gdb.specs.Target.{TargetState};

    ghost Value = { TargetState };

    ghost coded = { Prim.hlevel (codes, plic_code, set.code {R = nat_cmp} coded_ℕ) };

    ghost view = { λ t. record { lab = t.lab; files = t.files; told = t.told; watches = t.watches; aim = t.aim; calls = t.calls } };
}

impl Target {
    /// Makes a target of a lab. A trap without a handler will stop it.
    ///
    /// # Errors
    ///
    /// `NoMemory` if memory runs out.
    pub fn new(alloc: Global, lab: Lab, files: Files) -> Result<Target, NoMemory>
        ensures { IfOk result (λ t. t ≡ begun lab files) }
    {
        let mut lab = lab;
        lab.recording_mut().set_break(NO_HANDLER)?;
        Ok(Target {
            alloc,
            lab,
            files,
            told: 0,
            watches: Watches::new(alloc),
            aim: Aim::Stop,
            calls: 0,
        })
    }

    /// Returns the board.
    pub(crate) fn board(&self) -> &BootedBoard
        ensures { result.now ≡ board self.now.lab }
    {
        self.lab.board()
    }

    /// Returns the bytes of the console that weren't told.
    fn untold(&self) -> &[u8]
        ensures { result.now ≡ drop self.now.told (board self.now.lab).machine.bus.serial.sent }
    {
        let console = self.board().console();
        console.split_at(console.len().min(self.told)).1
    }

    /// Appends a packet with a text for the console.
    pub(crate) fn append_note(&self, text: &[u8], out: &mut Vec<u8>) -> Result<(), NoMemory>
        ensures { OnOk result (out.new.items ≡ out.old.items ++ note_packet text.now) }
    {
        let mut contents = Vec::new(self.alloc);
        contents.extend_from_slice(b"O")?;
        append_hex_text(&mut contents, text)?;
        append_packet(self.alloc, &contents, out)
    }

    /// Appends a packet with what the console got and wasn't told, if it got anything.
    fn append_untold(&self, out: &mut Vec<u8>) -> Result<(), NoMemory>
        ensures { OnOk result (out.new.items ≡ out.old.items ++ console_text self.now) }
    {
        let untold = self.untold();
        if untold.is_empty() {
            return Ok(());
        }
        self.append_note(untold, out)
    }

    /// Tells what the console got.
    pub(crate) fn append_console(&mut self, out: &mut Vec<u8>) -> Result<(), NoMemory>
        ensures text { OnOk result (out.new.items ≡ out.old.items ++ console_text self.old) }
        ensures told { OnOk result (self.new ≡ with_console self.old) }
    {
        self.append_untold(out)?;
        self.told = self.board().console().len();
        Ok(())
    }
}
