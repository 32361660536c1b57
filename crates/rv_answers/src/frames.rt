//! The frames of calls.
ghost use Rattle.std.specs.Prelude.{◌≡◌};
ghost use Rattle.rv_answers.specs.Frames.{is_guess};

use crate::many::Many;

/// How a frame was reached from the one below it.
#[derive(Clone, Copy)]
pub enum Reached {
    /// It is the first: pc is there.
    Here,
    /// The function below was called there. It is a guess unless a call to that function stands there.
    Call(bool),
    /// The handler below was entered there by a trap. It is a guess if the handler has written mepc.
    Trap(bool),
}

/// A frame.
#[derive(Clone, Copy)]
pub struct Frame {
    /// The address of the instruction at which it stands: the next one, the call, or the one that trapped.
    pub address: u32,
    /// What sp is there.
    pub sp: u32,
    /// How it was reached.
    pub reached: Reached,
}

/// Why no frame is told above the last one.
#[derive(Clone, Copy)]
pub enum Outermost {
    /// The program begins with its function.
    Start,
    /// Its function was made to begin by MRET.
    Resumed,
    /// No function is known to lie there.
    NoFunction,
    /// It isn't known where its function returns to.
    NoRa,
    /// It isn't known where its caller's sp is.
    NoSp,
    /// It is a handler in which a trap came, which has written mepc.
    NoMepc,
    /// The next one would be at that address, where no line of the source lies.
    Outside(u32),
    /// The next one's sp would be there, which isn't further up.
    Below(u32),
    /// There are more.
    More,
}

/// The frames of the calls in which a board stands.
#[derive(Drop)]
pub struct Backtrace {
    /// The frames, the innermost first.
    pub frames: Many<Frame>,
    /// Why no more are told.
    pub outermost: Outermost,
}

/// Returns whether a frame is a guess that was reached so.
pub fn is_guess(reached: Reached) -> bool
    ensures { result ≡ is_guess reached }
{
    match reached {
        Reached::Here => false,
        Reached::Call(is_guess) => is_guess,
        Reached::Trap(is_guess) => is_guess,
    }
}
