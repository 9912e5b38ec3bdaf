// SPDX-FileCopyrightText: 2026 The PPVM Authors
// SPDX-License-Identifier: Apache-2.0

// The lengths of the work tables of a step.
ghost use Rattle.std.specs.Prelude.{◌≡◌};
ghost use Rattle.step.specs.Exports.{step_sizes};

use step::sizes::StepSizes;

#[unsafe(no_mangle)]
pub extern "C" fn pebblelinen_step_sizes(
    qubits: usize,
    words: usize,
    protected: usize,
    touched: usize,
    candidates: usize,
    entries: usize,
) -> StepSizes
    ensures { result ≡ step_sizes qubits words protected touched candidates entries }
{
    step::sizes::pebblelinen_step_sizes(qubits, words, protected, touched, candidates, entries)
}
