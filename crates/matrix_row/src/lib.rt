// SPDX-FileCopyrightText: 2026 The PPVM Authors
// SPDX-License-Identifier: Apache-2.0

// One row of a lent matrix: where it stands, and its sum with a vector.
#![tactic(auto)]

pub mod rows;
pub mod sums;
