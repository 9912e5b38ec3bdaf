// SPDX-FileCopyrightText: 2026 The PPVM Authors
// SPDX-License-Identifier: Apache-2.0

// Models built in lent tables from texts and numbers.
#![tactic(auto)]

pub mod check;
pub mod compile;
pub mod items;
pub mod jumps;
pub mod lengths;
pub mod spec;
pub mod store;
pub mod take;
