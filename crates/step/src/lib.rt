// SPDX-FileCopyrightText: 2026 The PPVM Authors
// SPDX-License-Identifier: Apache-2.0

// The predictor-corrector step: its parts in their order, and the lengths of its work tables. step_c exports both functions to C.
#![tactic(auto)]

mod parts;
pub mod sizes;
pub mod steps;
