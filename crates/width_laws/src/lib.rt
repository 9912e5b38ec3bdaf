// SPDX-FileCopyrightText: 2026 The PPVM Authors
// SPDX-License-Identifier: Apache-2.0

// That lanes of 0 added to words change nothing is proved in proofs/, for any number of lanes before and any
// number added: letters, products, phases, order, and the action of a model. Nothing here runs.
#![tactic(auto)]
