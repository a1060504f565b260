// How the calls answer, and what a job may ask for. A call answers Ok, with what it hands out if that is a number, or the refusal (the scope
// paper, 'Who causes which refusal');
// specs/Answers.antt gives the paper's number of each refusal and what each answer says, and every promise goes through that definition.
#![tactic(auto)]

ghost use Rattle.std.specs.Prelude.{◌≡◌};
ghost use Rattle.definitions.specs.Answers.{number_of};
ghost use Rattle.definitions.specs.declared.NotInverted.{NotInverted};

use std::error::Error;
use std::fmt;

// The place of the first row whose c must have an inverse: first_c of specs/Family.antt.
pub const FIRST_C: usize = 1;

// Why a call refuses, in the order of the paper's numbers, 1 to 20.
// An error enum: twenty kinds without values.
#[derive(Clone, Copy, Debug, PartialEq, Eq)]
pub enum Refusal {
    TextTooLong,
    Malformed,
    ModulusOutOfRange,
    ListsDiffer,
    TooManyRows,
    CurveLength,
    OutputLength,
    WorkLength,
    EntryNotBelow,
    NoInverseA,
    NoInverseC,
    CurveEntryNotBelow,
    NoInverse,
    RecordWrong,
    NoRows,
    NoSuchRow,
    ZeroA,
    ZeroC,
    ModuliShareFactor,
    RemaindersDiffer,
}

impl From<Refusal> for u32 {
    ghost from_gives = { λ refusal number. number ≡ number_of refusal };

    fn from(refusal: Refusal) -> u32 {
        match refusal {
            Refusal::TextTooLong => 1,
            Refusal::Malformed => 2,
            Refusal::ModulusOutOfRange => 3,
            Refusal::ListsDiffer => 4,
            Refusal::TooManyRows => 5,
            Refusal::CurveLength => 6,
            Refusal::OutputLength => 7,
            Refusal::WorkLength => 8,
            Refusal::EntryNotBelow => 9,
            Refusal::NoInverseA => 10,
            Refusal::NoInverseC => 11,
            Refusal::CurveEntryNotBelow => 12,
            Refusal::NoInverse => 13,
            Refusal::RecordWrong => 14,
            Refusal::NoRows => 15,
            Refusal::NoSuchRow => 16,
            Refusal::ZeroA => 17,
            Refusal::ZeroC => 18,
            Refusal::ModuliShareFactor => 19,
            Refusal::RemaindersDiffer => 20,
        }
    }
}

impl fmt::Display for Refusal {
    fn fmt<W: fmt::Write>(&self, f: &mut fmt::Formatter<W>) -> fmt::Result {
        write!(f, "refused {}", u32::from(*self))
    }
}

impl Error for Refusal {}

// Why Inverse hands out no inverse: a refusal before it is looked for, or that there is none (13), with the greatest common factor of the
// number and the modulus. The factor of a number with an inverse is 1.
// Both cases are errors, so neither has the place of Ok. Refused holds the refusal itself and no number of it.
#[derive(Clone, Copy, Debug, PartialEq, Eq)]
pub enum NotInverted {
    Refused(Refusal),
    Shares { factor: u32 },
}

impl From<Refusal> for NotInverted {
    ghost from_gives = { λ refusal reason. reason ≡ NotInverted.Refused refusal };

    fn from(refusal: Refusal) -> NotInverted {
        NotInverted::Refused(refusal)
    }
}

// The operations of a job.
// Five kinds without values.
#[derive(Clone, Copy, Debug, PartialEq, Eq)]
pub enum Operation {
    Expand,
    Adjoint,
    Decompose,
    Moments,
    Norms,
}
