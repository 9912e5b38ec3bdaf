// SPDX-FileCopyrightText: 2026 The PPVM Authors
// SPDX-License-Identifier: Apache-2.0

// The step and the lengths of its work tables for programs in other languages, as include/pebblelinen.h documents them: the functions of
// the crate step under their C names, with the clauses that they have there.
#![tactic(auto)]

pub mod sizes;
pub mod steps;
