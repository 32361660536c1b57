//! What is watched.
ghost use Rattle.std.specs.Prelude.{◌≡◌, ◌<◌, ◌≤◌, IfSome, length, vec_capacity, vec_len};
ghost use Rattle.std.specs.List.{position};
ghost use Rattle.rv_runs.specs.Watches.{is_same, with_watch, without_watch};

use rv_recording::Watched;

/// Returns whether two are the same.
fn is_same(one: &Watched, other: &Watched) -> bool
    ensures { result ≡ is_same one.now other.now }
{
    match (one, other) {
        (Watched::Register(one), Watched::Register(other)) => one.number() == other.number(),
        (Watched::Word(one), Watched::Word(other)) => one == other,
        _ => false,
    }
}

/// Returns the place of one among what is watched, if it is.
pub fn place_of(watches: &[Watched], watched: &Watched) -> Option<usize>
    ensures value { result ≡ position (is_same watched.now) watches.now }
    ensures below { IfSome result (λ n. n < length watches.now) }
{
    watches.iter().position(|other| is_same(watched, other))
}

/// Removes one from what is watched, if it is.
pub fn remove_watch(watches: &mut Vec<Watched>, watched: &Watched)
    ensures items { watches.new.items ≡ without_watch watched.now watches.old.items }
    ensures len { vec_len watches.new ≤ vec_len watches.old }
    ensures capacity { vec_capacity watches.new ≡ vec_capacity watches.old }
{
    if let Some(place) = place_of(watches, watched) {
        let _watched = watches.remove(place);
    }
}

/// Puts one behind what else is watched.
pub fn put_watch(watches: &mut Vec<Watched>, watched: &Watched)
    requires { vec_len watches.old < vec_capacity watches.old }
    ensures { watches.new.items ≡ with_watch watched.now watches.old.items }
{
    remove_watch(watches, watched);
    watches.push_reserved(*watched);
}
