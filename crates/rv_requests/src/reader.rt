//! Reads packets.
ghost use Rattle.std.specs.Prelude.{◌≡◌, ◌<◌, IfOk, IfSome, if◌then◌else◌, length, slice_index};
ghost use Rattle.std.specs.List.{position};
ghost use Rattle.rv_requests.specs.Requests as spec;
ghost use Rattle.rv_requests.specs.declared.request.Request.TheVariants.{Insert, Remove};

use crate::names::{FileCall, Packet, file_call_named, packet_named, part_named};
use crate::numbers::{before, behind, number, pair, triple};
use crate::request::{Extent, Point, Request};
use crate::text::read_text;
use rv_base::{NoMemory, hex_byte};
use std::alloc::Global;

/// Returns a request that has no operands, if there are none.
fn alone(more: &[u8], request: Request) -> Request
    ensures { result ≡ spec.alone more.now request }
{
    if more.is_empty() {
        request
    } else {
        Request::Malformed
    }
}

/// Returns a request that has a signal, if it is one.
fn signal(more: &[u8], request: Request) -> Request
    ensures { result ≡ spec.signal more.now request }
{
    if hex_byte(more).is_some() {
        request
    } else {
        Request::Malformed
    }
}

/// Returns the kind of a point.
fn point(kind: u32) -> Option<Point>
    ensures { result ≡ spec.point kind }
{
    match kind {
        0 | 1 => Some(Point::Break),
        2 => Some(Point::Store),
        3 => Some(Point::Load),
        4 => Some(Point::Access),
        _ => None,
    }
}

/// Reads the operands of `r` of `vCont`: addresses from one on, below another that isn't lower.
fn read_range(more: &[u8]) -> Request
    ensures { result ≡ spec.range more.now }
{
    match pair(more) {
        Some((from, to)) if from <= to => Request::StepWithin(from, to),
        _ => Request::Malformed,
    }
}

/// Reads the operands of `p`.
fn read_register(more: &[u8]) -> Request
    ensures { result ≡ spec.register more.now }
{
    match number(more) {
        Some(number) => Request::Register(number),
        None => Request::Malformed,
    }
}

/// Reads the operands of `m`.
fn read_memory(more: &[u8]) -> Request
    ensures { result ≡ spec.memory more.now }
{
    match pair(more) {
        Some((from, most)) => Request::Memory(Extent { from, most }),
        None => Request::Malformed,
    }
}

/// Reads the operands of `Z`, or those of `z`.
fn read_point(more: &[u8], is_new: bool) -> Request
    ensures { result ≡ spec.at_point more.now (if is_new then Insert else Remove) }
{
    let Some((kind, address, size)) = triple(more) else {
        return Request::Malformed;
    };
    match point(kind) {
        Some(point) if is_new => Request::Insert(point, address, size),
        Some(point) => Request::Remove(point, address, size),
        None => Request::Unknown,
    }
}

/// Reads the operands of `F`.
fn read_answered(more: &[u8]) -> Request
    ensures { result ≡ spec.answered more.now }
{
    Request::Answered(more.last() == Some(&b'C'))
}

/// Reads an action of a run.
#[tactic(auto, unfolding(crate::specs::Requests::action))]
fn read_action(letter: &[u8], more: &[u8]) -> Request
    ensures { result ≡ spec.action letter.now more.now }
{
    match letter {
        b"s" => alone(more, Request::Step),
        b"S" => signal(more, Request::Step),
        b"c" => alone(more, Request::Continue),
        b"C" => signal(more, Request::Continue),
        b"r" => read_range(more),
        _ => Request::Unknown,
    }
}

/// Reads a packet whose name is a letter.
#[tactic(auto, unfolding(crate::specs::Requests::by_letter))]
fn read_letter(letter: &[u8], more: &[u8]) -> Request
    ensures { result ≡ spec.by_letter letter.now more.now }
{
    match letter {
        b"?" => alone(more, Request::LastStop),
        b"g" => alone(more, Request::Registers),
        b"p" => read_register(more),
        b"m" => read_memory(more),
        b"G" => Request::Write,
        b"P" => Request::Write,
        b"M" => Request::Write,
        b"X" => Request::Write,
        b"Z" => read_point(more, true),
        b"z" => read_point(more, false),
        b"H" => Request::Agree,
        b"T" => Request::Agree,
        b"!" => alone(more, Request::Extend),
        b"D" => Request::Detach,
        b"k" => Request::End,
        b"F" => read_answered(more),
        _ => read_action(letter, more),
    }
}

/// Reads the operands of `qXfer`.
#[tactic(auto, unfolding(crate::specs::Requests::transfer))]
fn read_transfer(text: &[u8]) -> Request
    ensures { result ≡ spec.transfer text.now }
{
    let rest = behind(text, b':');
    if before(rest, b':') != b"read".as_slice() {
        return Request::Unknown;
    }
    let Some(part) = part_named(before(text, b':')) else {
        return Request::Unknown;
    };
    match pair(behind(behind(rest, b':'), b':')) {
        Some((from, most)) => Request::Read(part, Extent { from, most }),
        None => Request::Malformed,
    }
}

/// Reads the path of `vFile:open`.
fn read_path(alloc: Global, digits: &[u8]) -> Result<Request, NoMemory>
    ensures { IfOk result (λ r. r ≡ spec.open_file digits.now) }
{
    match read_text(alloc, digits)? {
        Some(path) => Ok(Request::Open(path)),
        None => Ok(Request::Malformed),
    }
}

/// Reads the line of `qRcmd`.
fn read_line(alloc: Global, digits: &[u8]) -> Result<Request, NoMemory>
    ensures { IfOk result (λ r. r ≡ spec.command digits.now) }
{
    match read_text(alloc, digits)? {
        Some(line) => Ok(Request::Command(line)),
        None => Ok(Request::Malformed),
    }
}

/// Reads the operands of `vFile:pread`.
fn read_file(operands: &[u8]) -> Request
    ensures { result ≡ spec.file_extent operands.now }
{
    match triple(operands) {
        Some((_, most, from)) => Request::ReadFile(Extent { from, most }),
        None => Request::Malformed,
    }
}

/// Reads the operands of a call of `vFile`.
#[tactic(auto, unfolding(crate::specs::Requests::by_call))]
fn read_call(alloc: Global, call: FileCall, operands: &[u8]) -> Result<Request, NoMemory>
    ensures { IfOk result (λ r. r ≡ spec.by_call call operands.now) }
{
    match call {
        FileCall::Naming => Ok(Request::SetFiles),
        FileCall::Opening => read_path(alloc, before(operands, b',')),
        FileCall::Reading => Ok(read_file(operands)),
        FileCall::Sizing => Ok(Request::FileSize),
        FileCall::Closing => Ok(Request::Close),
    }
}

/// Reads a call of `vFile`.
fn read_file_call(alloc: Global, text: &[u8]) -> Result<Request, NoMemory>
    ensures { IfOk result (λ r. r ≡ spec.file_call text.now) }
{
    match file_call_named(before(text, b':')) {
        Some(call) => read_call(alloc, call, behind(text, b':')),
        None => Ok(Request::Unknown),
    }
}

/// Reads the first of the actions of `vCont`.
fn read_actions(text: &[u8]) -> Request
    ensures { result ≡ spec.actions text.now }
{
    let action = before(before(text, b';'), b':');
    let (letter, more) = action.split_at(action.len().min(1));
    read_action(letter, more)
}

/// Reads what follows the name of a packet.
#[tactic(auto, unfolding(crate::specs::Requests::by_packet))]
fn read_packet(alloc: Global, packet: Packet, more: &[u8]) -> Result<Request, NoMemory>
    ensures { IfOk result (λ r. r ≡ spec.by_packet packet more.now) }
{
    match packet {
        Packet::ToStepBack => Ok(Request::StepBack),
        Packet::ToContinueBack => Ok(Request::ContinueBack),
        Packet::ToTellSupport => Ok(Request::Supported),
        Packet::ToStopAcks => Ok(Request::StopAcks),
        Packet::ToTellActions => Ok(Request::Actions),
        Packet::ToAct => Ok(read_actions(more)),
        Packet::ToTransfer => Ok(read_transfer(more)),
        Packet::ToCallFile => read_file_call(alloc, more),
        Packet::ToCommand => read_line(alloc, more),
        Packet::ToTellThreads => Ok(Request::Threads),
        Packet::ToTellMoreThreads => Ok(Request::MoreThreads),
        Packet::ToTellThread => Ok(Request::ThisThread),
        Packet::ToDescribeThread => Ok(Request::ThreadText),
        Packet::ToTellAttached => Ok(Request::IsAttached),
        Packet::ToOffer => Ok(Request::Agree),
        Packet::ToRun => Ok(Request::Run),
        Packet::ToKill => Ok(Request::Kill),
    }
}

/// Reads a packet whose name is a word.
fn read_word(alloc: Global, word: &[u8], more: &[u8]) -> Result<Request, NoMemory>
    ensures { IfOk result (λ r. r ≡ spec.by_word word.now more.now) }
{
    match packet_named(word) {
        Some(packet) => read_packet(alloc, packet, more),
        None => Ok(Request::Unknown),
    }
}

/// Returns whether a byte ends a word.
fn ends_word(byte: u8) -> bool
    ensures { result ≡ spec.ends_word byte }
{
    byte == b':' || byte == b';' || byte == b','
}

/// Returns whether a packet begins with a word.
fn begins_word(contents: &[u8]) -> bool
    ensures { result ≡ spec.begins_word (slice_index contents.now 0) }
{
    !contents.is_empty() && matches!(contents[0], b'q' | b'Q' | b'v' | b'b')
}

/// Returns the index of the first byte that ends a word.
fn word_end(contents: &[u8]) -> Option<usize>
    ensures value { result ≡ position spec.ends_word contents.now }
    ensures below { IfSome result (λ n. n < length contents.now) }
{
    contents.iter().position(|b| ends_word(*b))
}

/// Reads what the contents of a packet ask for.
///
/// # Errors
///
/// `NoMemory` if memory runs out.
#[tactic(auto, unfolding(crate::specs::Requests::request_of))]
pub fn read_request(alloc: Global, contents: &[u8]) -> Result<Request, NoMemory>
    ensures { IfOk result (λ r. r ≡ spec.request_of contents.now) }
{
    if !begins_word(contents) {
        let (letter, more) = contents.split_at(contents.len().min(1));
        return Ok(read_letter(letter, more));
    }
    match word_end(contents) {
        Some(end) => {
            let word = contents.split_at(end).0;
            read_word(alloc, word, contents.split_at(end + 1).1)
        }
        None => read_word(alloc, contents, b""),
    }
}
