// SPDX-FileCopyrightText: 2026 The PPVM Authors
// SPDX-License-Identifier: Apache-2.0

// What the action of a model that was built has to do with what was given is proved in proofs/: its
// rules are those over what was given, and of whole numbers the answer is exactly that of the GKSL
// generator. Nothing here runs.
#![tactic(auto)]
