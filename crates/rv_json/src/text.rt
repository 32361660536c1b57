//! The JSON texts of an answer, of a command's line, and of a rejected source.
ghost use Rattle.std.specs.Prelude.{◌≡◌, IfOk, string_bytes};
ghost use Rattle.rv_json.specs.Support.Sends.{Sends};
ghost use Rattle.serde_json.specs.Written.{compact_text};
ghost use Rattle.rv_asm.specs.Seen.{seen};
ghost use Rattle.rv_json.specs.Json.{answer_data, faults_data, reply_data};
ghost use Rattle.rv_json.specs.Support.Labels.{labels};

use crate::faults::{Fault, misplaced};
use crate::names::Names;
use crate::object::object;
use crate::sent::{Bytes, ToJson};
use rv_answers::{Answer, Many};
use rv_asm::{Listing, list};
use rv_base::NoMemory;
use serde::{Described, Serialize, Serializer};
use std::alloc::Global;

/// What has a JSON, beside what names its places.
#[derive(Clone, Copy)]
struct Told<'a, T> {
    value: &'a T,
    names: Names<'a>,
}

impl<T: ToJson> Described for Told<'_, T> {
    ghost writes = { λ t. Sends (T.json (labels t.names) t.value.now) };
}

impl<T: ToJson> Serialize for Told<'_, T> {
    fn serialize<S: Serializer>(&self, out: &mut S) -> Result<(), S::Error> {
        self.value.send(&self.names, out)
    }
}

/// Returns the JSON of a value by the labels of a listing, in one line without spaces.
#[tactic(auto, using(crate::proofs::Lists::text_of))]
fn text_of<T: ToJson>(alloc: Global, listing: Listing<'_>, value: &T) -> Result<String, NoMemory>
    ensures { IfOk result
        (λ s. string_bytes s ≡ compact_text (T.json (seen listing.entry).labels value.now)) }
{
    let names = Names { listing, alloc };
    match serde_json::to_string(alloc, &Told { value, names }) {
        Ok(text) => Ok(text),
        Err(_) => Err(NoMemory),
    }
}

/// Returns the JSON of an answer of a lab with a listing, in one line without spaces.
pub fn answer_json(alloc: Global, listing: Listing<'_>, answer: &Answer) -> Result<String, NoMemory>
    ensures { IfOk result
        (λ s. string_bytes s ≡ compact_text (answer_data (seen listing.entry).labels answer.now)) }
{
    text_of(alloc, listing, answer)
}

/// Returns the JSON of what a command answers, with a word for what follows it and what the console got
/// meanwhile, in one line without spaces.
#[tactic(auto, unfolding(crate::specs::Json::reply_data))]
pub fn reply_json(
    alloc: Global,
    listing: Listing<'_>,
    answer: &Answer,
    next: &str,
    console: &[u8],
) -> Result<String, NoMemory>
    ensures { IfOk result (λ s. string_bytes s
        ≡ compact_text (reply_data (seen listing.entry).labels answer.now next.now console.now)) }
{
    text_of(
        alloc,
        listing,
        &object!(_: answer, next = next, console = Bytes(console)),
    )
}

/// Returns the JSON of the faults of a source that is rejected, in one line without spaces.
#[tactic(auto, unfolding(crate::specs::Json::faults_data))]
pub fn faults_json(alloc: Global, faults: &Many<Fault>) -> Result<String, NoMemory>
    ensures { IfOk result (λ s. string_bytes s ≡ compact_text (faults_data faults.now)) }
{
    // They name no place, so any listing serves.
    let Ok((program, places)) = list(alloc, b"") else {
        return Err(NoMemory);
    };
    let listing = Listing {
        program: &program,
        places: &places,
    };
    let following = &misplaced(faults.items()).saturating_sub(1);
    text_of(
        alloc,
        listing,
        &object!(_: kind = "faults", faults, following),
    )
}
