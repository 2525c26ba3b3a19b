// Why a call refuses: document 01's table, whose numbers its answers carry.
ghost use Rattle.std.specs.Prelude.{◌≡◌};
ghost use Rattle.numbers.specs.Refusals.{number_of, told, asked};

// In the order of the numbers, 1 to 8, 10 to 15, 17 and 18.
#[derive(Clone, Copy, Debug, PartialEq, Eq)]
pub enum Refusal {
    NotAList,
    NoTarget,
    TooMany,
    OutOfRange,
    NoLayer,
    NoPlace,
    NoRoom,
    TapeFault,
    OutOfOrder,
    Unwritable,
    OutputShort,
    NoChunk,
    EventBroken,
    NoEnd,
    TwoChannels,
    BeforeStart,
}

impl Refusal {
    // The number that an answer carries.
    pub fn number(self) -> u32
        ensures { result ≡ number_of self }
    {
        match self {
            Refusal::NotAList => 1,
            Refusal::NoTarget => 2,
            Refusal::TooMany => 3,
            Refusal::OutOfRange => 4,
            Refusal::NoLayer => 5,
            Refusal::NoPlace => 6,
            Refusal::NoRoom => 7,
            Refusal::TapeFault => 8,
            Refusal::OutOfOrder => 10,
            Refusal::Unwritable => 11,
            Refusal::OutputShort => 12,
            Refusal::NoChunk => 13,
            Refusal::EventBroken => 14,
            Refusal::NoEnd => 15,
            Refusal::TwoChannels => 17,
            Refusal::BeforeStart => 18,
        }
    }
}

// What a call answers that was asked so: 0, or why it refuses.
pub fn code_of(asked: Result<(), Refusal>) -> u32
    ensures { result ≡ told asked }
{
    match asked {
        Ok(()) => 0,
        Err(refusal) => refusal.number(),
    }
}

// Refuses where what was asked does not hold.
pub fn ask(holds: bool, refusal: Refusal) -> Result<(), Refusal>
    ensures { result ≡ asked holds refusal }
{
    if holds { Ok(()) } else { Err(refusal) }
}
