//! The names of packets, of the calls of `vFile`, and of the texts of `qXfer`.
ghost use Rattle.std.specs.Prelude.{◌≡◌};
ghost use Rattle.rv_base.specs.Tables.{lookup};
ghost use Rattle.rv_requests.specs.Requests as spec;

use crate::request::Part;
use rv_base::look_up;

/// A packet whose name is a word.
#[derive(Clone, Copy)]
pub(crate) enum Packet {
    ToStepBack,
    ToContinueBack,
    ToTellSupport,
    ToStopAcks,
    ToTellActions,
    ToAct,
    ToTransfer,
    ToCallFile,
    ToCommand,
    ToTellThreads,
    ToTellMoreThreads,
    ToTellThread,
    ToDescribeThread,
    ToTellAttached,
    ToOffer,
    ToRun,
    ToKill,
}

/// The packets by their names.
static PACKETS: [(&str, Packet); 17] = [
    ("bs", Packet::ToStepBack),
    ("bc", Packet::ToContinueBack),
    ("qSupported", Packet::ToTellSupport),
    ("QStartNoAckMode", Packet::ToStopAcks),
    ("vCont?", Packet::ToTellActions),
    ("vCont", Packet::ToAct),
    ("qXfer", Packet::ToTransfer),
    ("vFile", Packet::ToCallFile),
    ("qRcmd", Packet::ToCommand),
    ("qfThreadInfo", Packet::ToTellThreads),
    ("qsThreadInfo", Packet::ToTellMoreThreads),
    ("qC", Packet::ToTellThread),
    ("qThreadExtraInfo", Packet::ToDescribeThread),
    ("qAttached", Packet::ToTellAttached),
    ("qSymbol", Packet::ToOffer),
    ("vRun", Packet::ToRun),
    ("vKill", Packet::ToKill),
];

/// A call of `vFile`.
#[derive(Clone, Copy)]
pub(crate) enum FileCall {
    Naming,
    Opening,
    Reading,
    Sizing,
    Closing,
}

/// The calls by their names.
static FILE_CALLS: [(&str, FileCall); 5] = [
    ("setfs", FileCall::Naming),
    ("open", FileCall::Opening),
    ("pread", FileCall::Reading),
    ("fstat", FileCall::Sizing),
    ("close", FileCall::Closing),
];

/// The texts of `qXfer` by their names.
static PARTS: [(&str, Part); 3] = [
    ("features", Part::Features),
    ("memory-map", Part::MemoryMap),
    ("exec-file", Part::ProgramPath),
];

/// Returns the packet of this name.
pub(crate) fn packet_named(name: &[u8]) -> Option<Packet>
    ensures { result ≡ lookup name.now spec.packets }
{
    look_up(&PACKETS, name)
}

/// Returns the call of this name.
pub(crate) fn file_call_named(name: &[u8]) -> Option<FileCall>
    ensures { result ≡ lookup name.now spec.file_calls }
{
    look_up(&FILE_CALLS, name)
}

/// Returns the text of this name.
pub(crate) fn part_named(name: &[u8]) -> Option<Part>
    ensures { result ≡ spec.part name.now }
{
    look_up(&PARTS, name)
}
