// SPDX-FileCopyrightText: 2026 The PPVM Authors
// SPDX-License-Identifier: Apache-2.0

// The calls that programs in other languages make, as include/pebblelinen.h documents them: pebblelinen_c exports them. Each function
// takes any input, calls the crate that does the work and puts the answer into plain numbers.
#![tactic(auto)]

pub mod actions;
pub mod bases;
pub mod evolutions;
pub mod generators;
pub mod leakages;
pub mod markets;
pub mod models;
pub mod norms;
pub mod products;
pub mod words;
