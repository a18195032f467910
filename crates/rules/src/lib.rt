// What a reader believes of the rules, in specs/: configurations, moves, the largest correct set, rounds, kept bytes and other bridges, over
// two tables in hand, a bound and a rule. specs/Tools/ computes the same and need not be believed. proofs/ has what follows.
// This crate has the types that the definitions and the code share.
#![tactic(auto)]

ghost use Rattle.std.specs.Prelude.{◌≡◌, eqb};
ghost use Rattle.rules.specs.Numbers.{IsRule, reason_number};

use format::{Fault, Refusal, Table};

// "A rule number chooses: 0 registered (the old tests), 1 flow-through" (request a).
#[derive(Clone, Copy, Debug, PartialEq, Eq)]
pub enum Rule {
    Registered,
    FlowThrough,
}

// Any other number is refused.
impl TryFrom<u64> for Rule {
    type Error = Refusal;

    ghost try_from_gives = { IsRule };

    fn try_from(number: u64) -> Result<Self, Refusal> {
        match number {
            0 => Ok(Rule::Registered),
            1 => Ok(Rule::FlowThrough),
            _ => Err(Refusal::from(Fault::UnknownRule)),
        }
    }
}

// Why a move is not allowed, or that it is: request b.
#[derive(Clone, Copy, Debug, PartialEq, Eq)]
pub enum Reason {
    Allowed,
    NotKept,
    NoWriterRow,
    NoReaderRow,
    Overflows,
    Underflows,
    LandsOutside,
}

impl Reason {
    pub fn number(self) -> u8
        ensures { result ≡ reason_number self }
    {
        match self {
            Reason::Allowed => 0,
            Reason::NotKept => 1,
            Reason::NoWriterRow => 2,
            Reason::NoReaderRow => 3,
            Reason::Overflows => 4,
            Reason::Underflows => 5,
            Reason::LandsOutside => 6,
        }
    }

    pub fn is_allowed(self) -> bool
        ensures { result ≡ eqb (reason_number self) 0 }
    {
        matches!(self, Reason::Allowed)
    }
}

// Two tables in hand, the bound B of the buffer between them, and the rule of its tests.
#[derive(Clone, Copy)]
pub struct Pair {
    pub writer: Table,
    pub reader: Table,
    pub bound: u64,
    pub rule: Rule,
}

// A configuration: the writer's state, the reader's state, the level.
#[derive(Clone, Copy, Debug, PartialEq, Eq)]
pub struct Conf {
    pub writer: u8,
    pub reader: u8,
    pub level: u8,
}

// A configuration as a caller names it: numbers of any size.
#[derive(Clone, Copy, Debug, PartialEq, Eq)]
pub struct At {
    pub writer: u64,
    pub reader: u64,
    pub level: u64,
}
