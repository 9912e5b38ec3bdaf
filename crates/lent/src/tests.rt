// SPDX-FileCopyrightText: 2026 The PPVM Authors
// SPDX-License-Identifier: Apache-2.0

// The refusal of a length, and the places that a table needs.
ghost use Rattle.std.specs.Prelude.{◌≡◌};
ghost use Rattle.refusal.specs.declared.Refusal.TheVariants.{LengthMismatch};
ghost use Rattle.lent.specs.Tests.{where_any};

use refusal::Refusal;

// The refusal of a length.
pub fn mismatch(needed: usize, given: usize) -> Result<(), Refusal>
    ensures { result ≡ Err (LengthMismatch needed given) }
{
    Err(Refusal::LengthMismatch { needed, given })
}

// The places that a table needs for so many jumps, operators or words: none where there is none.
pub fn where_any(count: usize, places: usize) -> usize
    ensures { result ≡ where_any count places }
{
    if count == 0 {
        return 0;
    }
    places
}
