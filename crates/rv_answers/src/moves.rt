//! What commands say that move the board, change breakpoints, give inputs or save.
use crate::many::Many;
use crate::values::{Place, RegisterValue, Standing, Trap};
use rv_isa::Reg;

/// Why a run is over.
#[derive(Clone, Copy)]
pub enum Ending {
    /// The board halted.
    Halted,
    /// It came to what it went on for.
    Reached,
    /// The next instruction is at a breakpoint.
    Breakpoint,
    /// As many steps were taken as were asked for.
    Limit,
    /// The lab takes no more steps.
    Stuck,
}

/// What is watched.
#[derive(Clone, Copy)]
pub enum Target {
    /// A register.
    Register(Reg),
    /// The word of memory at an address.
    Word(u32),
}

/// What is watched, with its value now, if it has one.
#[derive(Clone, Copy)]
pub struct Watch {
    pub target: Target,
    pub value: Option<u32>,
}

/// What is watched, with its values before a step that changed it and after it, if it had some.
#[derive(Clone, Copy)]
pub struct Change {
    pub target: Target,
    /// Its value before the step.
    pub before: Option<u32>,
    /// Its value after it.
    pub value: Option<u32>,
}

/// What a run went on for.
#[derive(Clone, Copy)]
pub enum Aim {
    /// A number of steps.
    Steps,
    /// A breakpoint.
    Breakpoint,
    /// The return from a function or a handler.
    Return,
    /// A place of the C source.
    Mark,
    /// A trap; with the last one, if there was one.
    Trap(Option<Trap>),
    /// A byte of the console.
    Console,
    /// A place.
    Arrival,
    /// That what is watched changes, or compares with a value.
    Watch(Watch),
}

/// A run that is over.
#[derive(Drop)]
pub struct Run {
    /// Why it is over.
    pub ending: Ending,
    /// What it went on for.
    pub aim: Aim,
    /// The steps that it took.
    pub steps: u64,
    /// The registers that it changed, with their values now.
    pub changed: Many<RegisterValue>,
    /// What its last step changed of what is watched.
    pub watched: Many<Change>,
    /// Where the board stands.
    pub standing: Standing,
}

/// What a step did.
#[derive(Drop)]
pub struct Step {
    /// Its number, from 1: the steps that the board has taken after it.
    pub number: u64,
    /// The place of pc before it.
    pub place: Place,
    /// The trap that it took.
    pub trap: Option<Trap>,
    /// The registers that it changed, with their values after it.
    pub changed: Many<RegisterValue>,
}

/// A single step, and where the board stands after it.
#[derive(Drop)]
pub struct Stepped {
    pub step: Step,
    pub standing: Standing,
}

/// Steps, each with what it did.
#[derive(Drop)]
pub struct Trace {
    pub steps: Many<Step>,
    /// Why there are no more.
    pub ending: Ending,
    /// Where the board stands after them.
    pub standing: Standing,
}

/// A breakpoint that was set.
#[derive(Drop)]
pub struct Breakpoint {
    pub place: Place,
    /// The condition on which a run stops there, as it was given, if there is one.
    pub condition: Option<Many<u8>>,
    /// How many hits a run passes before one stops it.
    pub passes: u64,
}

/// What a breakpoint stops a run on.
#[derive(Drop)]
pub struct BreakCondition {
    /// The address of the breakpoint.
    pub address: u32,
    /// The condition, as it was given, if there is one.
    pub text: Option<Many<u8>>,
    /// How many hits a run passes before one stops it.
    pub passes: u64,
}

/// All breakpoints.
#[derive(Drop)]
pub struct Breakpoints {
    /// Their places, in the order of their addresses.
    pub places: Many<Place>,
    /// What those stop a run on that have a condition or passed hits, in the order in which that was given.
    pub conditions: Many<BreakCondition>,
    /// What is watched, in the order in which it was asked for.
    pub watches: Many<Watch>,
}

/// A place without a breakpoint.
#[derive(Clone, Copy)]
pub struct Cleared {
    pub place: Place,
    /// Whether a breakpoint was there.
    pub was_there: bool,
}

/// Inputs by hand.
#[derive(Clone, Copy)]
pub struct Given {
    /// Their number.
    pub inputs: usize,
    /// The number of steps that the board has taken before them.
    pub steps: u64,
    /// Whether the board has halted: it takes no input then.
    pub is_halted: bool,
}

/// What was done, for rvboard to repeat.
#[derive(Drop)]
pub struct Saved {
    /// The name under which to save it: what follows is `Next::Save`.
    pub name: Option<Many<u8>>,
    /// The timed list of all inputs.
    pub list: Many<u8>,
    /// The number of inputs.
    pub inputs: usize,
    /// Commands of the monitor that take as many steps as the board has taken.
    pub commands: Many<u8>,
    /// The steps that the board has taken.
    pub steps: u64,
    /// The steps of `--steps`: rvboard takes 1,000,000,000 at most.
    pub limit: u64,
    /// The pages of `--pages`.
    pub pages: u32,
}
