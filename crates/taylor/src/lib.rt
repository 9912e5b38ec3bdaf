// SPDX-FileCopyrightText: 2026 The PPVM Authors
// SPDX-License-Identifier: Apache-2.0

// Numbers evolved by one time step over a lent matrix by rows, in stages of Taylor terms (Al-Mohy and Higham
// 2011). Nothing here knows a model.
#![tactic(auto)]

pub mod evolve;
pub mod rows;
pub mod stages;
