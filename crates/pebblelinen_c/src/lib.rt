// SPDX-FileCopyrightText: 2026 The PPVM Authors
// SPDX-License-Identifier: Apache-2.0

// The library for programs in other languages, as include/pebblelinen.h documents it: each function of the crate pebblelinen under its C
// name, with the clauses that it has there.
#![tactic(auto)]

pub mod actions;
pub mod bases;
pub mod evolutions;
pub mod generators;
pub mod leakages;
pub mod markets;
pub mod models;
pub mod norms;
pub mod products;
pub mod words;
