// SPDX-FileCopyrightText: 2026 The PPVM Authors
// SPDX-License-Identifier: Apache-2.0

// The legs of a predictor-corrector step, over the copy of the basis: a hop, which lets in what leaks, and the evolution
// over the basis that it leaves.
#![tactic(auto)]

pub mod evolve;
pub mod hop;
