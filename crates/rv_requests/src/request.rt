//! What a packet asks for.
use rv_packets::Contents;

/// A part of a text or of a file.
#[derive(Clone, Copy)]
pub struct Extent {
    /// The number of its first byte, from 0.
    pub from: u32,
    /// The most bytes of it.
    pub most: u32,
}

/// A text that gdb reads.
#[derive(Clone, Copy)]
pub enum Part {
    /// The registers that the target has.
    Features,
    /// The addresses at which it has memory.
    MemoryMap,
    /// The path of the program that it runs.
    ProgramPath,
}

/// What stops a run.
#[derive(Clone, Copy)]
pub enum Point {
    /// An instruction at the first byte.
    Break,
    /// A store to one of the bytes.
    Store,
    /// A load of one of them.
    Load,
    /// Either of the two.
    Access,
}

/// What a packet asks for.
#[derive(Drop)]
pub enum Request {
    /// `?`: why the target stands still.
    LastStop,
    /// `g`: the registers x0 to x31 and the pc.
    Registers,
    /// `p`: the register of this number.
    Register(u32),
    /// `m`: bytes of memory.
    Memory(Extent),
    /// `s`, `S`: a step.
    Step,
    /// `r` of `vCont`: steps until the pc is at none of some addresses: from the first one on, below the second.
    StepWithin(u32, u32),
    /// `c`, `C`: a run.
    Continue,
    /// `bs`: a step back.
    StepBack,
    /// `bc`: a run back.
    ContinueBack,
    /// `Z`: a point at which runs stop: its address, and how many bytes it has.
    Insert(Point, u32, u32),
    /// `z`: that point no more.
    Remove(Point, u32, u32),
    /// `G`, `P`, `M`, `X`: to write registers or memory.
    Write,
    /// `qSupported`: what the server can do.
    Supported,
    /// `QStartNoAckMode`: packets without acknowledgments from here on.
    StopAcks,
    /// `vCont?`: the actions of `vCont`.
    Actions,
    /// `qXfer`: a part of a text.
    Read(Part, Extent),
    /// `vFile:setfs`: to name files as the target does.
    SetFiles,
    /// `vFile:open`: to open the file of this path.
    Open(Contents),
    /// `vFile:pread`: a part of the open file.
    ReadFile(Extent),
    /// `vFile:fstat`: the open file's size.
    FileSize,
    /// `vFile:close`: to close it.
    Close,
    /// `qRcmd`: to answer this line.
    Command(Contents),
    /// `qfThreadInfo`: the threads.
    Threads,
    /// `qsThreadInfo`: the threads that follow them.
    MoreThreads,
    /// `qC`: the thread that stopped.
    ThisThread,
    /// `qThreadExtraInfo`: a line on the thread.
    ThreadText,
    /// `qAttached`: whether the program ran before gdb came.
    IsAttached,
    /// `H`, `T`, `qSymbol`: nothing that needs an answer but `OK`.
    Agree,
    /// `!`: that the server outlives the program.
    Extend,
    /// `vRun`: the program from its first step on.
    Run,
    /// `vKill`: the end of the program.
    Kill,
    /// `D`: the end of the talk.
    Detach,
    /// `k`: the end of the server.
    End,
    /// `F`: the answer to the server's question, and whether it asks to stop.
    Answered(bool),
    /// A packet that is known, with contents that aren't.
    Malformed,
    /// Any other packet.
    Unknown,
}
