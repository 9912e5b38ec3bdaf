// SPDX-FileCopyrightText: 2026 The PPVM Authors
// SPDX-License-Identifier: Apache-2.0

// Testing the operators of a matrix: texts and terms stand one after another, by their lengths and
// by the count of each operator. The first refusal is the answer.
ghost use Rattle.std.specs.Prelude.{◌≡◌, ◌*◌, ◌≤◌, length};
ghost use Rattle.sums.specs.Numbers.{complexes};
ghost use Rattle.model_build.specs.Given.{read_operator};
ghost use Rattle.model_build.specs.Built.{parts, term_items};
ghost use Rattle.model_build.specs.Items.{answer_of};
ghost use Rattle.lent.specs.Read.{each};
ghost use Rattle.lent.specs.Laid.{total};

use model_build::items::{check_operator, sum_of};
use refusal::Refusal;

// The operators: a count of terms for each.
pub fn check_operators(
    texts: &[u8],
    lengths: &[u64],
    counts: &[u64],
    numbers: &[f64],
    n_qubits: usize,
) -> Result<(), Refusal>
    requires { (total counts.now ≡ length lengths.now) × (length numbers.now ≡ 2 * length lengths.now) × (total lengths.now ≤ length texts.now) }
    ensures { result ≡ answer_of (each (read_operator n_qubits) 0 (parts counts.now (term_items (parts lengths.now texts.now) (complexes numbers.now)))) }
{
    let mut at = 0;
    let mut t = 0;
    for (j, count) in counts.iter().enumerate() {
        let k = *count as usize;
        let own = &lengths[t..t + k];
        check_operator(
            &texts[at..],
            own,
            &numbers[2 * t..2 * t + 2 * k],
            n_qubits,
            j,
        )?;
        at += sum_of(own);
        t += k;
    }
    Ok(())
}
