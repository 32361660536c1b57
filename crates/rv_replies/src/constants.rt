//! Replies that are the same whatever the board is.
ghost use Rattle.std.specs.Prelude.{◌≡◌};
ghost use Rattle.std.specs.Option.{option_copied};
ghost use Rattle.rv_replies.specs.Looks as spec;

use rv_requests::Request;

/// Why nothing is written.
const REFUSAL: &[u8] = b"E.the board is the run of its recorded inputs: nothing is written";

/// What the server can do.
const SUPPORT: &[u8] =
    b"PacketSize=4000;QStartNoAckMode+;qXfer:features:read+;qXfer:memory-map:read+;qXfer:exec-file:read+;swbreak+;hwbreak+;vContSupported+;ReverseStep+;ReverseContinue+";

/// Returns the reply to a request that has always the same.
#[tactic(auto, unfolding(crate::specs::Looks::constant))]
pub(crate) fn constant(request: &Request) -> Option<&'static [u8]>
    ensures { option_copied result ≡ spec.constant request.now }
{
    match request {
        Request::Write => Some(REFUSAL),
        Request::Supported => Some(SUPPORT),
        Request::Actions => Some(b"vCont;c;C;s;S;r"),
        Request::SetFiles => Some(b"F0"),
        Request::Close => Some(b"F0"),
        Request::Threads => Some(b"m1"),
        Request::MoreThreads => Some(b"l"),
        Request::ThisThread => Some(b"QC1"),
        Request::IsAttached => Some(b"1"),
        Request::Agree => Some(b"OK"),
        Request::Malformed => Some(b"E01"),
        Request::Unknown => Some(b""),
        _ => None,
    }
}
