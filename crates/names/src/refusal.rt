// Why a call is refused, as a caller meets it: a row of the table.
ghost use Rattle.std.specs.Prelude.{◌≡◌};
ghost use Rattle.names.specs.Answers.{number_of, answer_number};

use std::error::Error;
use std::fmt;

#[derive(Clone, Copy, Debug, PartialEq, Eq)]
pub enum Refusal {
    Axes,
    Grid,
    Lengths,
    TooMany,
    Points,
    Materials,
    Lighting,
    Ray,
    Progress,
    Allowance,
    Position,
    File,
    Contents,
    LongFile,
    Tree,
    League,
    Lamps,
}

// A row's number in the table.
impl From<Refusal> for u32 {
    ghost from_gives = { λ r n. n ≡ number_of r };

    fn from(refusal: Refusal) -> u32 {
        match refusal {
            Refusal::Axes => 1,
            Refusal::Grid => 2,
            Refusal::Lengths => 3,
            Refusal::TooMany => 4,
            Refusal::Points => 5,
            Refusal::Materials => 6,
            Refusal::Lighting => 7,
            Refusal::Ray => 8,
            Refusal::Progress => 9,
            Refusal::Allowance => 10,
            Refusal::Position => 11,
            Refusal::File => 12,
            Refusal::Contents => 13,
            Refusal::LongFile => 14,
            Refusal::Tree => 16,
            Refusal::League => 18,
            Refusal::Lamps => 19,
        }
    }
}

impl fmt::Display for Refusal {
    fn fmt<W: fmt::Write>(&self, f: &mut fmt::Formatter<W>) -> fmt::Result {
        write!(f, "refused {}", u32::from(*self))
    }
}

impl Error for Refusal {}

// The answer as a number, as C is told it: 0, or the refusal's.
pub fn told(answer: Result<(), Refusal>) -> u32
    ensures { result ≡ answer_number answer }
{
    match answer {
        Ok(()) => 0,
        Err(refusal) => u32::from(refusal),
    }
}
