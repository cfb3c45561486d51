// Why a call refuses. Contracts cite specs/Refusals for the number and the place of each case.
ghost use Rattle.std.specs.Prelude.{◌≡◌};
ghost use Rattle.table.specs.Refusals.{number_of, place_of};

use super::check::Check;

// A case for each thing that can be wrong, with its place where it has one. A breach, 16, is told by crate verdict.
#[derive(Clone, Copy, Debug, PartialEq, Eq)]
pub enum Refusal {
    // A check of the table fails, at the lowest place.
    Table(Check, usize),
    // The same of a second, new table.
    NewTable(Check, usize),
    // There are not as many marks, or bytes of a map, as there should be.
    MarksLength,
    // There is no such privilege.
    NoPrivilege,
    // The mark of this privilege is above 2.
    Mark(usize),
    // The result is too short.
    ResultLength,
    ProposedLength,
    ProposedMark(usize),
    // In a proposed pair of maps a spare bit is set.
    ProposedSpareBit,
    // This privilege went from one mark to another in a way that no mend does.
    Change(usize),
    NumbersLength,
    // The new number of this old type cannot stand.
    NewNumber(usize),
    // From this byte on the text is none of the grammar.
    NoText(usize),
    // At this byte the text passes a limit.
    TooLarge(usize),
    // The name at this byte is declared before, or never.
    Misnamed(usize),
    // This privilege is set in both maps.
    BothSet(usize),
    SpareBit,
    // At this byte begins what is no line of a listing.
    NoLine(usize),
    // At this byte begins a line whose privilege is not above that of the line before.
    NotAbove(usize),
    // Sheet 0 or 1 of two was refused itself.
    RefusedSheet(usize),
    // 32 bits do not hold a sum: of this privilege, or, at V, of the figures.
    SumTooLarge(usize),
}

impl Refusal {
    pub fn number(self) -> u8
        ensures { result ≡ number_of self }
    {
        match self {
            Refusal::Table(check, _) => check.number(),
            Refusal::NewTable(check, _) => 100 + check.number(),
            Refusal::MarksLength | Refusal::NoPrivilege => 10,
            Refusal::Mark(_) => 11,
            Refusal::ResultLength => 12,
            Refusal::ProposedLength => 13,
            Refusal::ProposedMark(_) | Refusal::ProposedSpareBit => 14,
            Refusal::Change(_) => 15,
            Refusal::NumbersLength => 17,
            Refusal::NewNumber(_) => 18,
            Refusal::NoText(_) => 20,
            Refusal::TooLarge(_) => 21,
            Refusal::Misnamed(_) => 22,
            Refusal::BothSet(_) => 23,
            Refusal::SpareBit => 24,
            Refusal::NoLine(_) => 25,
            Refusal::NotAbove(_) => 26,
            Refusal::RefusedSheet(_) => 29,
            Refusal::SumTooLarge(_) => 30,
        }
    }

    // Its place, 0 where it has none.
    pub fn place(self) -> usize
        ensures { result ≡ place_of self }
    {
        match self {
            Refusal::Table(_, place)
            | Refusal::NewTable(_, place)
            | Refusal::Mark(place)
            | Refusal::ProposedMark(place)
            | Refusal::Change(place)
            | Refusal::NewNumber(place)
            | Refusal::NoText(place)
            | Refusal::TooLarge(place)
            | Refusal::Misnamed(place)
            | Refusal::BothSet(place)
            | Refusal::NoLine(place)
            | Refusal::NotAbove(place)
            | Refusal::RefusedSheet(place)
            | Refusal::SumTooLarge(place) => place,
            Refusal::MarksLength
            | Refusal::NoPrivilege
            | Refusal::ResultLength
            | Refusal::ProposedLength
            | Refusal::ProposedSpareBit
            | Refusal::NumbersLength
            | Refusal::SpareBit => 0,
        }
    }
}
