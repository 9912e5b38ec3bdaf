// SPDX-FileCopyrightText: 2026 The PPVM Authors
// SPDX-License-Identifier: Apache-2.0

// The Kossakowski form of a dissipator: a matrix K over operators, compiled into pairs and added to a
// model that stands.
#![tactic(auto)]

pub mod check;
pub mod kossakowski;
pub mod operators;
pub mod pairs;
