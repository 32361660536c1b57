//! Laws of what is explained.
ghost use Rattle.std.specs.Prelude.{◌≡◌, ◌%◌, ◌^◌, ◌<◌, length};
ghost use Rattle.std.specs.Result.{result_ok};
ghost use Rattle.rv_hart.specs.Fetch.{fetch_result};
ghost use Rattle.rv_board.specs.BoardState.{BoardState};
ghost use Rattle.rv_why.specs.Why.{fetched};

/// Law: what is fetched from pc is what the machine fetches. As on each board, pc is an address that is a
/// multiple of 4, and the memory has whole words.
#[tactic(auto, using(crate::proofs::SameFetch::fetches_same))]
pub fn fetches_as_the_machine()
    ensures { (b : BoardState) → b.machine.pc % 4 ≡ 0 → b.machine.pc < 2 ^ 32 → length b.machine.bus.ram % 4 ≡ 0
        → result_ok (fetched b) ≡ result_ok (fetch_result b.machine) }
{}
