//! Which operand of a line its word doesn't take.
ghost use Rattle.std.specs.Prelude.{◌≤◌, length};

use rv_source::{Operand, Role, Shape, is_in_role, shape_of};

/// The most rows of a word.
const MOST_ROWS: usize = 4;

/// Returns how many operands are in their roles before the first that isn't.
fn count_in_roles(roles: &[Role], operands: &[Operand]) -> usize
    ensures operands { result ≤ length operands.now }
    ensures roles { result ≤ length roles.now }
{
    let [role, roles @ ..] = roles else {
        return 0;
    };
    let [operand, operands @ ..] = operands else {
        return 0;
    };
    if is_in_role(*role, operand) {
        1 + count_in_roles(roles, operands)
    } else {
        0
    }
}

/// Returns how many operands are in a role before the first that isn't.
fn count_in_role(role: Role, operands: &[Operand]) -> usize
    ensures { result ≤ length operands.now }
{
    let [operand, operands @ ..] = operands else {
        return 0;
    };
    if is_in_role(role, operand) {
        1 + count_in_role(role, operands)
    } else {
        0
    }
}

/// How well operands fit a shape.
#[derive(Clone, Copy)]
struct Fit {
    /// Whether it takes as many.
    counted: bool,
    /// How many are in their roles before the first that isn't.
    fitting: usize,
    /// The first that isn't, counted from 1; 0 if operands are missing.
    wrong: usize,
}

impl Fit {
    /// Returns how well operands fit a shape.
    fn of(shape: Shape, operands: &[Operand]) -> Fit {
        match shape {
            Shape::These(roles) => {
                let fitting = count_in_roles(roles, operands);
                let missing = fitting == operands.len();
                Fit {
                    counted: roles.len() == operands.len(),
                    fitting,
                    wrong: if missing { 0 } else { fitting + 1 },
                }
            }
            Shape::Each(role) => {
                let fitting = count_in_role(role, operands);
                let missing = fitting == operands.len();
                Fit {
                    counted: !operands.is_empty(),
                    fitting,
                    wrong: if missing { 0 } else { fitting + 1 },
                }
            }
        }
    }
}

/// Returns whether operands fit one shape better than another: it takes as many, or more are in their roles.
fn is_better(one: Fit, other: Fit) -> bool {
    if one.counted == other.counted {
        one.fitting > other.fitting
    } else {
        one.counted
    }
}

/// Returns the operand, counted from 1, that a word doesn't take; 0 if operands are missing. Of the rows of
/// the word the one is meant that the operands fit best.
pub fn wrong_operand(word: &[u8], operands: &[Operand]) -> usize {
    let mut best: Option<Fit> = None;
    for index in 0..MOST_ROWS {
        if let Some(shape) = shape_of(word, index) {
            let this = Fit::of(shape, operands);
            best = match best {
                Some(other) if !is_better(this, other) => Some(other),
                _ => Some(this),
            };
        }
    }
    match best {
        Some(fit) => fit.wrong,
        None => 0,
    }
}
