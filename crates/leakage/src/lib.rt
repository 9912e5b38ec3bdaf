// SPDX-FileCopyrightText: 2026 The PPVM Authors
// SPDX-License-Identifier: Apache-2.0

// Leakage as a call: its tests, and how a model moves a basis onto words outside it.
#![tactic(auto)]

pub mod check;
pub mod clear;
pub mod lay;
pub mod leak;
pub mod listing;
pub mod places;
pub mod run;
