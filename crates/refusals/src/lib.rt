// The refusals of every call as one type, with their numbers, places and fields.
#![tactic(auto)]

ghost use Rattle.std.specs.Prelude.{◌≡◌};
ghost use Rattle.refusals.specs.Refusals.{figures_at, figures};

use value::Slot;

// Why a call turns its input away.
#[derive(Clone, Copy, PartialEq, Eq)]
pub enum Refusal {
    ShortWork,
    PartialRecord,
    TooManyRecords,
    UnknownKind(Slot),
    ReservedField(Slot),
    BitOutOfSequence(Slot),
    // The record, and which of its fields fails, by its number: a `Field` would be a narrower parameter of all that takes a refusal.
    UndrivenOperand(Slot, u32),
    Loop(Slot),
    SlotsExhausted,
    LevelCount,
    // The index of the level byte.
    LevelValue(u32),
    ShortReply,
}

// A refusal's number and place in the paper's table, and the field that fails of refusal 7, 0 for all other refusals: three numbers, as the
// answer words for C have them.
#[derive(Clone, Copy, Debug, PartialEq, Eq)]
pub struct Figures {
    pub number: u32,
    pub place: u32,
    pub field: u32,
}

fn numbered(number: u32, place: u32, field: u32) -> Figures
    ensures { result ≡ figures_at number place field }
{
    Figures {
        number,
        place,
        field,
    }
}

impl From<Refusal> for Figures {
    ghost from_gives = { λ r f. f ≡ figures r };

    fn from(r: Refusal) -> Figures {
        match r {
            Refusal::ShortWork => numbered(1, 0, 0),
            Refusal::PartialRecord => numbered(2, 0, 0),
            Refusal::TooManyRecords => numbered(3, 0, 0),
            Refusal::UnknownKind(s) => numbered(4, s.0, 0),
            Refusal::ReservedField(s) => numbered(5, s.0, 0),
            Refusal::BitOutOfSequence(s) => numbered(6, s.0, 0),
            Refusal::UndrivenOperand(s, f) => numbered(7, s.0, f),
            Refusal::Loop(s) => numbered(8, s.0, 0),
            Refusal::SlotsExhausted => numbered(9, 0, 0),
            Refusal::LevelCount => numbered(10, 0, 0),
            Refusal::LevelValue(i) => numbered(11, i, 0),
            Refusal::ShortReply => numbered(12, 0, 0),
        }
    }
}
