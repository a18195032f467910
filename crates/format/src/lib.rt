// What a reader believes of the byte format, in specs/: a table in bytes and in hand, refusals 1 to 8, what reading gives.
// proofs/ has what follows from it. This crate has the types that the definitions and the code share.
#![tactic(auto)]

ghost use Rattle.std.specs.Prelude.{◌≡◌, Some};
ghost use Rattle.format.specs.Verdicts.{side_number, fault_number, refusal, unsided, named_side};

// One of two cases: no third can be passed.
#[derive(Clone, Copy, Debug, PartialEq, Eq)]
pub enum Side {
    Writer,
    Reader,
}

impl Side {
    // Its role byte too.
    pub fn number(self) -> u8
        ensures { result ≡ side_number self }
    {
        match self {
            Side::Writer => 1,
            Side::Reader => 2,
        }
    }
}

#[derive(Clone, Copy, Debug, PartialEq, Eq)]
pub struct Row {
    pub state: u8,
    pub drive: u8,
    pub answer: u8,
    pub item: u8,
    pub next: u8,
}

// A table in hand: `count` rows are used, the others are zero. Document 01 names this form, a struct with an array of row structs.
#[derive(Clone, Copy)]
pub struct Table {
    pub version: u8,
    pub role: u8,
    pub states: u8,
    pub start: u8,
    pub finish: u8,
    pub letters: u8,
    pub count: u8,
    pub rows: [Row; 64],
}

// What is wrong: the lines of document 01's table of refusals, 1 to 16, of request a, 17, and of request c, 18 to 20.
#[derive(Clone, Copy, Debug, PartialEq, Eq)]
pub enum Fault {
    Short,
    UnknownVersion,
    UntrueLength,
    WrongRole,
    OutOfRange,
    NoSuchEnd,
    BadField,
    NotRising,
    BoundTooLarge,
    NoRoom,
    StartDropped,
    KeptByte,
    NoConfiguration,
    NoLetter,
    NotAllowed,
    NoRow,
    UnknownRule,
    UntrueList,
    BadMovePermitted,
    NoWayToFinish,
}

impl Fault {
    pub fn number(self) -> u8
        ensures { result ≡ fault_number self }
    {
        match self {
            Fault::Short => 1,
            Fault::UnknownVersion => 2,
            Fault::UntrueLength => 3,
            Fault::WrongRole => 4,
            Fault::OutOfRange => 5,
            Fault::NoSuchEnd => 6,
            Fault::BadField => 7,
            Fault::NotRising => 8,
            Fault::BoundTooLarge => 9,
            Fault::NoRoom => 10,
            Fault::StartDropped => 11,
            Fault::KeptByte => 12,
            Fault::NoConfiguration => 13,
            Fault::NoLetter => 14,
            Fault::NotAllowed => 15,
            Fault::NoRow => 16,
            Fault::UnknownRule => 17,
            Fault::UntrueList => 18,
            Fault::BadMovePermitted => 19,
            Fault::NoWayToFinish => 20,
        }
    }
}

// Number, side and row: no side is side 0. S is what names a side: a `Side` in every call, and in the tests of rows whatever their caller has.
#[derive(Clone, Copy, Debug, PartialEq, Eq)]
pub struct RefusalOf<S> {
    pub fault: Fault,
    pub side: Option<S>,
    pub row: u16,
}

pub type Refusal = RefusalOf<Side>;

impl RefusalOf<Side> {
    // Of a side, and no row.
    pub fn of(fault: Fault, side: Side) -> Refusal
        ensures { result ≡ refusal fault (Some side) 0 }
    {
        Refusal {
            fault,
            side: Some(side),
            row: 0,
        }
    }

    // 0 where no side is named.
    pub fn side_number(self) -> u8
        ensures { result ≡ named_side self.side }
    {
        match self.side {
            Some(side) => side.number(),
            None => 0,
        }
    }
}

// Of no side and no row.
impl From<Fault> for RefusalOf<Side> {
    ghost from_gives = { λ fault refusal. refusal ≡ unsided fault };

    fn from(fault: Fault) -> Refusal {
        Refusal {
            fault,
            side: None,
            row: 0,
        }
    }
}

pub type Verdict = Result<(), Refusal>;

// The table stands beside the verdict and not in it; a refused reading's table is zero in every field. Document 01 names this form.
#[derive(Clone, Copy)]
pub struct Reading {
    pub table: Table,
    pub verdict: Verdict,
}
