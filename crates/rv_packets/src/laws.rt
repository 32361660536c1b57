//! Laws of the definition of a stream.
ghost use Rattle.rv_packets.specs.Laws.{FramedIsRead, ItemsJoin};

/// Says that a stream says in any pieces what it says as a whole, and does nothing.
#[tactic(auto, using(crate::proofs::Joining::joined))]
pub fn items_join()
    ensures { ItemsJoin }
{}

/// Says that a packet that is framed is read, whatever its contents are, and does nothing.
#[tactic(auto, using(crate::proofs::Framing::read_back))]
pub fn framed_is_read()
    ensures { FramedIsRead }
{}
