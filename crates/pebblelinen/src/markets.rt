// SPDX-FileCopyrightText: 2026 The PPVM Authors
// SPDX-License-Identifier: Apache-2.0

// The generator of a lent model over a lent basis as Matrix Market, and a length of text that is enough for it.
ghost use Rattle.std.specs.Prelude.{◌≡◌};
ghost use Rattle.generator.specs.Lent.{work_of};
ghost use Rattle.generator_export.specs.Exports.{export_generator};
ghost use Rattle.pebblelinen.specs.Markets.{written_of, LeavesMarket, market_text};

use crate::generators::MAX_ENTRIES;
use lent::sizes::smaller;
use model::stored::Model;
use refusal::{ACCEPTED, Refusal, Status};

// The bytes of a text that was written; 0 where the status is a refusal.
#[repr(C)]
#[derive(Drop)]
pub struct WrittenText {
    pub status: Status,
    pub bytes: usize,
}

impl From<Result<usize, Refusal>> for WrittenText {
    ghost from_gives = { λ answer made. made ≡ written_of answer };

    fn from(answer: Result<usize, Refusal>) -> WrittenText {
        match answer {
            Ok(bytes) => WrittenText {
                status: ACCEPTED,
                bytes,
            },
            Err(refusal) => WrittenText {
                status: Status::from(refusal),
                bytes: 0,
            },
        }
    }
}

pub fn pebblelinen_matrix_market(
    model: Model,
    h_words: &[u64],
    h_coeffs: &[f64],
    jumps: &[u64],
    rates: &[f64],
    t_words: &[u64],
    t_numbers: &[f64],
    words: &[u64],
    len: usize,
    h_index: &mut [u64],
    j_index: &mut [u64],
    mask: &mut [u64],
    heads: &mut [u64],
    nexts: &mut [u64],
    work_words: &mut [u64],
    work_sums: &mut [f64],
    stage_rows: &mut [u32],
    stage_columns: &mut [u32],
    stage_values: &mut [f64],
    text: &mut [u8],
) -> WrittenText
    ensures { LeavesMarket (export_generator text.old (work_of h_index.old j_index.old mask.old heads.old nexts.old work_words.old work_sums.old stage_rows.old stage_columns.old stage_values.old) model (record { h_words = h_words.now; h_coeffs = h_coeffs.now; jumps = jumps.now; rates = rates.now; t_words = t_words.now; t_numbers = t_numbers.now }) words.now len) result text.new (work_of h_index.new j_index.new mask.new heads.new nexts.new work_words.new work_sums.new stage_rows.new stage_columns.new stage_values.new) }
{
    WrittenText::from(generator_export::market::matrix_market(
        model,
        h_words,
        h_coeffs,
        jumps,
        rates,
        t_words,
        t_numbers,
        words,
        len,
        h_index,
        j_index,
        mask,
        heads,
        nexts,
        work_words,
        work_sums,
        stage_rows,
        stage_columns,
        stage_values,
        text,
    ))
}

pub fn pebblelinen_matrix_market_text(entries: usize) -> usize
    ensures { result ≡ market_text entries }
{
    72 + 33 * smaller(entries, MAX_ENTRIES)
}
