// SPDX-FileCopyrightText: 2026 The PPVM Authors
// SPDX-License-Identifier: Apache-2.0

// Lent tables: what every call asks of them, whatever it does with them. Nothing here knows a model.
#![tactic(auto)]

pub mod clear;
pub mod copy;
pub mod numbers;
pub mod sizes;
pub mod tests;
pub mod words;
