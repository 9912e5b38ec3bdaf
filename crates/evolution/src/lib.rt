// SPDX-FileCopyrightText: 2026 The PPVM Authors
// SPDX-License-Identifier: Apache-2.0

// The coefficients of a lent basis evolved by one time step, by the generator of a lent model over it.
#![tactic(auto)]

pub mod check;
pub mod evolve;
pub mod matrix;
