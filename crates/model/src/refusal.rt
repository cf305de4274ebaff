// Why a call is refused (docs/SPECIFICATION.md §11.1).
ghost use Rattle.std.specs.Prelude.{◌≡◌, ◌≤◌};
ghost use Rattle.model.specs.Refusals.{number_of};

// In the order of their numbers. The one for a row that is too short says how many answers there are (§11.5).
#[derive(Clone, Copy, Debug, PartialEq, Eq)]
pub enum Refusal {
    BadLengths,
    BadSettings,
    NoTree,
    BadRectangle,
    OutsideRoot,
    NoFreePlace,
    NoFreeGroups,
    ShortRow(u32),
    UnknownKind,
    BadInk,
    BadGrid,
    FarCorner,
    BadPatch,
    PatchTooLarge,
    StaleTicket,
    TooManyChanges,
}

impl Refusal {
    // The number by which hosts and tickets know it.
    pub fn number(self) -> u32
        ensures number { result ≡ number_of self }
        ensures few { result ≤ 16 }
    {
        match self {
            Refusal::BadLengths => 1,
            Refusal::BadSettings => 2,
            Refusal::NoTree => 3,
            Refusal::BadRectangle => 4,
            Refusal::OutsideRoot => 5,
            Refusal::NoFreePlace => 6,
            Refusal::NoFreeGroups => 7,
            Refusal::ShortRow(_) => 8,
            Refusal::UnknownKind => 9,
            Refusal::BadInk => 10,
            Refusal::BadGrid => 11,
            Refusal::FarCorner => 12,
            Refusal::BadPatch => 13,
            Refusal::PatchTooLarge => 14,
            Refusal::StaleTicket => 15,
            Refusal::TooManyChanges => 16,
        }
    }
}
