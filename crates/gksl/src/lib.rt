// SPDX-FileCopyrightText: 2026 The PPVM Authors
// SPDX-License-Identifier: Apache-2.0

// The rules of the adjoint GKSL generator and its exact definition are in specs/, and that they agree
// is proved in proofs/. Nothing here runs: the crate `action` has the code that meets these
// definitions.
#![tactic(auto)]
