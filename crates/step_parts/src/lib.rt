// SPDX-FileCopyrightText: 2026 The PPVM Authors
// SPDX-License-Identifier: Apache-2.0

// The tests of a predictor-corrector step, the copy of the basis on which it works, and its end: what is kept of the
// copy, handed over.
#![tactic(auto)]

pub mod begin;
mod check;
mod copy;
pub mod finish;
pub mod places;
pub mod taken;
