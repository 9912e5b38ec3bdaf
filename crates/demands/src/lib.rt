// SPDX-FileCopyrightText: 2026 The PPVM Authors
// SPDX-License-Identifier: Apache-2.0

// The three demands that the product has to meet are stated in specs/Demands.antt, sentence by sentence,
// of the exported calls, and proved in proofs/. Nothing here runs.
#![tactic(auto)]
