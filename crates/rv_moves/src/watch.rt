//! Watched bytes, and what accesses them.
ghost use Rattle.std.specs.Prelude.{◌≡◌, ◌&&◌, ◌+◌, if◌then◌else◌, nat_lt};
ghost use Rattle.std.specs.Option.{option_and_then};
ghost use Rattle.rv_isa.specs.Support.Meaning.{means};
ghost use Rattle.rv_monitor.specs.Views.{word_at};
ghost use Rattle.rv_moves.specs.Watches as spec;

use rv_base::NoMemory;
use rv_board::BootedBoard;
use rv_isa::{Instr, Kind, decode};
use rv_monitor::word_at;
use rv_recording::address_at;
use std::alloc::Global;
use std::marker::Model;

/// What an instruction loads or stores.
#[derive(Clone, Copy)]
pub struct Access {
    /// Whether it stores.
    pub stores: bool,
    /// The address of the first byte.
    pub address: u32,
    /// The number of bytes.
    pub size: u32,
}

/// Bytes of memory that are watched.
#[derive(Clone, Copy)]
pub struct Watch {
    /// Whether a store to one of them is looked for.
    pub stores: bool,
    /// Whether a load of one of them is.
    pub loads: bool,
    /// The address of the first byte.
    pub address: u32,
    /// The number of bytes.
    pub size: u32,
}

/// Returns what an instruction accesses.
#[tactic(auto, unfolding(crate::specs::Watches::access_by))]
fn access_by(board: &BootedBoard, instr: Instr) -> Option<Access>
    ensures { result ≡ spec.access_by board.now instr }
{
    match instr.kind() {
        Kind::Load {
            op,
            base,
            offset,
            ..
        } => Some(Access {
            stores: false,
            address: address_at(board, base, offset),
            size: op.width().bytes(),
        }),
        Kind::Store {
            width,
            base,
            offset,
            ..
        } => Some(Access {
            stores: true,
            address: address_at(board, base, offset),
            size: width.bytes(),
        }),
        _ => None,
    }
}

/// Returns what the next instruction accesses.
fn next_access(board: &BootedBoard) -> Option<Access>
    ensures { result ≡ spec.next_access board.now }
{
    access_by(board, decode(word_at(board, board.pc())?)?)
}

/// Returns whether an access is looked for.
fn sees(watch: Watch, access: Access) -> bool
    ensures { result ≡ spec.sees watch access }
{
    let is_kind = if access.stores {
        watch.stores
    } else {
        watch.loads
    };
    let (first, watched) = (u64::from(access.address), u64::from(watch.address));
    is_kind && first < watched + u64::from(watch.size) && watched < first + u64::from(access.size)
}

/// Returns the first of some watches that looks for an access.
fn first_seeing(watches: &[Watch], access: Access) -> Option<Watch>
    ensures { result ≡ spec.first_seeing access watches.now }
{
    let [watch, rest @ ..] = watches else {
        return None;
    };
    // Copies: for the borrow checker a call moves its argument.
    let (asked, watch) = (access, *watch);
    if sees(watch, asked) {
        return Some(watch);
    }
    first_seeing(rest, access)
}

/// Returns whether two watches look for the same.
fn are_same(left: Watch, right: Watch) -> bool
    ensures { result ≡ spec.are_same left right }
{
    left.stores == right.stores
        && left.loads == right.loads
        && left.address == right.address
        && left.size == right.size
}

/// Watches, the newest last; the view is their list.
#[derive(Drop)]
pub struct Watches {
    list: Vec<Watch>,
}

impl Model for Watches {
    ghost use Rattle.std.specs.Prelude.{List};
    ghost use Rattle.rv_moves.specs.declared.watch.Watch.{Watch};

    ghost Value = { List Watch };

    ghost view = { λ w. w.list.items };
}

impl Watches {
    ghost use Rattle.std.specs.Prelude.{◌≡◌, ◌<◌, [], IfSome, OnErr, OnOk, length};
    ghost use Rattle.std.specs.List.{position};
    ghost use Rattle.rv_moves.specs.Watches.{met, with_watch, without_watch};

    /// Makes no watches.
    pub fn new(alloc: Global) -> Watches
        ensures { result ≡ [] }
    {
        Watches {
            list: Vec::new(alloc),
        }
    }

    /// Returns whether there are none.
    pub fn is_empty(&self) -> bool
        ensures { result ≡ spec.are_none self.now }
    {
        self.list.is_empty()
    }

    /// Returns the place of a watch, if it is there.
    fn place_of(&self, watch: Watch) -> Option<usize>
        ensures value { result ≡ position (spec.are_same watch) self.now }
        ensures below { IfSome result (λ n. n < length self.now) }
    {
        self.list.iter().position(|other| are_same(watch, *other))
    }

    /// Adds a watch, unless it is there.
    ///
    /// # Errors
    ///
    /// `NoMemory` if memory runs out. Nothing changes then.
    pub fn insert(&mut self, watch: Watch) -> Result<(), NoMemory>
        ensures ok { OnOk result (self.new ≡ with_watch watch self.old) }
        ensures err { OnErr result (self.new ≡ self.old) }
    {
        let added = watch;
        if self.place_of(watch).is_some() {
            return Ok(());
        }
        Ok(self.list.extend_from_slice(&[added])?)
    }

    /// Removes a watch, if it is there.
    pub fn remove(&mut self, watch: Watch)
        ensures { self.new ≡ without_watch watch self.old }
    {
        if let Some(place) = self.place_of(watch) {
            let _watch = self.list.remove(place);
        }
    }

    /// Returns the first watch that looks for what the next instruction of a board accesses, whether or not it will be
    /// let to: a board that has halted has none.
    pub fn met(&self, board: &BootedBoard) -> Option<Watch>
        ensures { result ≡ met self.now board.now }
    {
        if board.halted().is_some() {
            return None;
        }
        first_seeing(&self.list, next_access(board)?)
    }
}
