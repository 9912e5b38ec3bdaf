// SPDX-FileCopyrightText: 2026 The PPVM Authors
// SPDX-License-Identifier: Apache-2.0

// The passes of leakage: the candidates of a pass, what stays of them, and the list after the last pass.
#![tactic(auto)]

pub mod list;
pub mod pass;
pub mod passes;
pub mod room;
pub mod terms;
