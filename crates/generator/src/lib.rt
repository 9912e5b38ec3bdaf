// SPDX-FileCopyrightText: 2026 The PPVM Authors
// SPDX-License-Identifier: Apache-2.0

// The generator of a lent model over a lent basis, and the same matrix by rows.
#![tactic(auto)]

pub mod check;
pub mod csr;
pub mod gather;
pub mod generator;
pub mod tables;
