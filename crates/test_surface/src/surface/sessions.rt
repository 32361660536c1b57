//! rv_monitor: sessions with their timed inputs and commands.
use rv_asm::Program;
use rv_board::Board;
use rv_cache::NoCache;
use rv_isa::NoMemory;
use rv_monitor::{Next, Session, Stop, Timeline, TimelineFault};
use rv_ram::FlatMemory;
use std::alloc::Global;

const _: fn(Global, &[u8]) -> Result<Timeline, TimelineFault> = Timeline::read;

type FlatBoard = Board<FlatMemory, NoCache>;

type FlatSession = Session<FlatMemory, NoCache>;

const _: fn(Global, FlatBoard, Timeline, Program, u64) -> FlatSession = Session::new;

const _: fn(&mut FlatSession, u64) -> Result<Stop, NoMemory> = Session::step;

const _: fn(&mut FlatSession, u64) -> Result<Stop, NoMemory> = Session::go;

const _: fn(&mut FlatSession, u32) -> Result<(), NoMemory> = Session::set_break;

const _: fn(&mut FlatSession, u32) -> bool = Session::clear_break;

const _: fn(&mut FlatSession, &[u8], &mut Vec<u8>) -> Result<Next, NoMemory> = Session::command;

const _: fn(&FlatSession) -> &FlatBoard = Session::board;

const _: [Stop; 3] = [Stop::Halted, Stop::Breakpoint, Stop::Limit];
