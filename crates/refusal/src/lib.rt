// SPDX-FileCopyrightText: 2026 The PPVM Authors
// SPDX-License-Identifier: Apache-2.0

// Why a call is not accepted: one enum for the causes of the whole product, each with the values
// that it returns, and the status by which a caller in another language learns of it. A call whose result,
// if any, stands in what it was lent answers Result<(), Refusal>.
#![tactic(auto)]

ghost use Rattle.std.specs.Prelude.{◌≡◌};
ghost use Rattle.refusal.specs.Cause.{status_of, answer_status};

#[derive(Clone, Copy)]
pub enum Refusal {
    TooManyQubits { got: usize, max: usize },
    WrongLength { expected: usize, got: usize },
    InvalidPauliByte { byte: u8, place: usize },
    InvalidPauliCode { code: u8 },
    NegativeRate { index: usize },
    EmptyLincomb { index: usize },
    NumberOutOfRange { index: usize },
    CountAboveLimit { count: usize },
    LengthMismatch { needed: usize, given: usize },
    KMatrixNotHermitian { n: usize, m: usize },
    WordOutsideRegister { position: usize },
    RepeatedBasisWord { position: usize },
    TableFull { table: usize, places: usize },
    SumNotFinite { position: usize },
    WrittenCountTooLarge { entry: usize },
    TooManyProducts { m: usize, s: usize },
}

// An answer as numbers: `refusal` is 0 where the call was accepted, and else the number of the
// cause, with its values, and 0 for a value that the cause does not have.
#[repr(C)]
#[derive(Clone, Copy)]
pub struct Status {
    pub refusal: u64,
    pub first: u64,
    pub second: u64,
}

// The status of a call that was accepted.
pub const ACCEPTED: Status = Status {
    refusal: 0,
    first: 0,
    second: 0,
};

impl From<Refusal> for Status {
    ghost from_gives = { λ r s. s ≡ status_of r };

    fn from(r: Refusal) -> Status {
        match r {
            Refusal::TooManyQubits { got, max } => Status {
                refusal: 1,
                first: got as u64,
                second: max as u64,
            },
            Refusal::WrongLength { expected, got } => Status {
                refusal: 2,
                first: expected as u64,
                second: got as u64,
            },
            Refusal::InvalidPauliByte { byte, place } => Status {
                refusal: 3,
                first: byte as u64,
                second: place as u64,
            },
            Refusal::InvalidPauliCode { code } => Status {
                refusal: 4,
                first: code as u64,
                second: 0,
            },
            Refusal::NegativeRate { index } => Status {
                refusal: 5,
                first: index as u64,
                second: 0,
            },
            Refusal::EmptyLincomb { index } => Status {
                refusal: 6,
                first: index as u64,
                second: 0,
            },
            Refusal::NumberOutOfRange { index } => Status {
                refusal: 7,
                first: index as u64,
                second: 0,
            },
            Refusal::CountAboveLimit { count } => Status {
                refusal: 8,
                first: count as u64,
                second: 0,
            },
            Refusal::LengthMismatch { needed, given } => Status {
                refusal: 9,
                first: needed as u64,
                second: given as u64,
            },
            Refusal::KMatrixNotHermitian { n, m } => Status {
                refusal: 10,
                first: n as u64,
                second: m as u64,
            },
            Refusal::WordOutsideRegister { position } => Status {
                refusal: 11,
                first: position as u64,
                second: 0,
            },
            Refusal::RepeatedBasisWord { position } => Status {
                refusal: 12,
                first: position as u64,
                second: 0,
            },
            Refusal::TableFull { table, places } => Status {
                refusal: 13,
                first: table as u64,
                second: places as u64,
            },
            Refusal::SumNotFinite { position } => Status {
                refusal: 14,
                first: position as u64,
                second: 0,
            },
            Refusal::WrittenCountTooLarge { entry } => Status {
                refusal: 15,
                first: entry as u64,
                second: 0,
            },
            Refusal::TooManyProducts { m, s } => Status {
                refusal: 16,
                first: m as u64,
                second: s as u64,
            },
        }
    }
}

impl From<Result<(), Refusal>> for Status {
    ghost from_gives = { λ a s. s ≡ answer_status a };

    fn from(a: Result<(), Refusal>) -> Status {
        match a {
            Ok(()) => ACCEPTED,
            Err(r) => Status::from(r),
        }
    }
}
