// SPDX-FileCopyrightText: 2026 The PPVM Authors
// SPDX-License-Identifier: Apache-2.0

// The parts of a step by their numbers, 0 to 5: the tests with the copy, the first hop, the predictor, the second hop, the corrector, the
// end.
ghost use Rattle.std.specs.Prelude.{◌≡◌, ◌||◌, ◌≤◌, eqb};
ghost use Rattle.expm.specs.Selects.{max_products};
ghost use Rattle.step.specs.Between.{after_first, due_of, entries_in, products_in, added_to};

use refusal::Refusal;
use step_parts::taken::Step;

// What comes after the predictor: the second hop if there is room, else the end.
fn after_first(taken: Result<Step, Refusal>, limit: usize) -> usize
    ensures { result ≡ after_first limit taken }
{
    let Ok(step) = taken else {
        return 5;
    };
    if limit <= step.entries {
        return 5;
    }
    3
}

// The part that is due.
pub fn due_part(part: usize, taken: Result<Step, Refusal>, limit: usize) -> usize
    ensures { result ≡ due_of part limit taken }
{
    if part == 3 {
        return after_first(taken, limit);
    }
    part
}

pub fn is_hop(part: usize) -> bool
    ensures { result ≡ (eqb part 1 || eqb part 3) }
{
    if part == 1 {
        return true;
    }
    part == 3
}

// How many words stand.
pub fn entries_of(taken: Result<Step, Refusal>) -> usize
    ensures { result ≡ entries_in taken }
{
    let Ok(step) = taken else {
        return 0;
    };
    step.entries
}

fn products_of(taken: Result<Step, Refusal>) -> usize
    ensures { result ≡ products_in taken }
{
    let Ok(step) = taken else {
        return 0;
    };
    step.products
}

// What an evolution left, with the products of before.
pub fn add_products(
    taken: Result<Step, Refusal>,
    done: Result<Step, Refusal>,
) -> Result<Step, Refusal>
    requires { (products_in taken ≤ max_products) × (products_in done ≤ max_products) }
    ensures { result ≡ added_to taken done }
{
    let before = products_of(taken);
    let Step { entries, products } = done?;
    Ok(Step {
        entries,
        products: before + products,
    })
}
