// Refusals: document 01's numbers by their names, and the place that some of them carry.
#![tactic(auto)]

ghost use Rattle.std.specs.Prelude.{◌≡◌};
ghost use Rattle.refusal.specs.Refusal.{number_of, place_of, beside, placed};

use std::fmt;

// Why a call did nothing. `Sections`, `SystemTable`, `UserTable` and `Sheet` carry the position of the first fault in the lent bytes, `Conflict` the
// change's number, from 0; the others of document 01's carry no place. `Other` is what no call of the library makes and each takes and hands on: another
// number, or one of those without a place beside a place.
#[derive(Clone, Copy, Debug, PartialEq, Eq)]
pub enum Refusal {
    NotFstf,
    Revision,
    Sections(usize),
    SystemTable(usize),
    NotClosed,
    Index,
    UserTable(usize),
    NoSuchItem,
    NoRoom,
    Sheet(usize),
    Conflict(usize),
    Stage,
    Clock,
    FrameShape,
    Full,
    Whole,
    TableFull,
    Other(u8, usize),
}

impl Refusal {
    // Document 01's number.
    pub fn number(self) -> u8
        ensures { result ≡ number_of self }
    {
        match self {
            Refusal::NotFstf => 1,
            Refusal::Revision => 2,
            Refusal::Sections(_) => 3,
            Refusal::SystemTable(_) => 4,
            Refusal::NotClosed => 5,
            Refusal::Index => 6,
            Refusal::UserTable(_) => 7,
            Refusal::NoSuchItem => 8,
            Refusal::NoRoom => 9,
            Refusal::Sheet(_) => 10,
            Refusal::Conflict(_) => 11,
            Refusal::Stage => 12,
            Refusal::Clock => 13,
            Refusal::FrameShape => 14,
            Refusal::Full => 15,
            Refusal::Whole => 16,
            Refusal::TableFull => 17,
            Refusal::Other(number, _) => number,
        }
    }

    // The place that it carries; 0 where it carries none.
    pub fn place(self) -> usize
        ensures { result ≡ place_of self }
    {
        match self {
            Refusal::Sections(place)
            | Refusal::SystemTable(place)
            | Refusal::UserTable(place)
            | Refusal::Sheet(place)
            | Refusal::Conflict(place)
            | Refusal::Other(_, place) => place,
            _ => 0,
        }
    }

    // One that carries no place, beside a place.
    fn beside(self, place: usize) -> Refusal
        ensures { result ≡ beside self (number_of self) place }
    {
        if place == 0 {
            return self;
        }
        Refusal::Other(self.number(), place)
    }

    // The refusal of a number and a place.
    pub fn of(number: u8, place: usize) -> Refusal
        ensures { result ≡ placed number place }
    {
        match number {
            1 => Refusal::NotFstf.beside(place),
            2 => Refusal::Revision.beside(place),
            3 => Refusal::Sections(place),
            4 => Refusal::SystemTable(place),
            5 => Refusal::NotClosed.beside(place),
            6 => Refusal::Index.beside(place),
            7 => Refusal::UserTable(place),
            8 => Refusal::NoSuchItem.beside(place),
            9 => Refusal::NoRoom.beside(place),
            10 => Refusal::Sheet(place),
            11 => Refusal::Conflict(place),
            12 => Refusal::Stage.beside(place),
            13 => Refusal::Clock.beside(place),
            14 => Refusal::FrameShape.beside(place),
            15 => Refusal::Full.beside(place),
            16 => Refusal::Whole.beside(place),
            17 => Refusal::TableFull.beside(place),
            _ => Refusal::Other(number, place),
        }
    }

    // The same number with a place.
    pub fn at(self, place: usize) -> Refusal
        ensures { result ≡ placed (number_of self) place }
    {
        Refusal::of(self.number(), place)
    }
}

// What a program prints: the number, and the place where one is carried.
impl fmt::Display for Refusal {
    fn fmt<W: fmt::Write>(&self, f: &mut fmt::Formatter<W>) -> fmt::Result {
        let number = self.number();
        match *self {
            Refusal::Sections(place)
            | Refusal::SystemTable(place)
            | Refusal::UserTable(place)
            | Refusal::Sheet(place)
            | Refusal::Conflict(place) => write!(f, "refused {number} place {place}"),
            _ => write!(f, "refused {number}"),
        }
    }
}
