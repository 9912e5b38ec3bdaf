// SPDX-FileCopyrightText: 2026 The PPVM Authors
// SPDX-License-Identifier: Apache-2.0

// The norm of the generator over a lent basis, and the Taylor degree for it.
#![tactic(auto)]

pub mod check;
pub mod columns;
pub mod degree;
pub mod norm;
