// The marks of a tape: which there are, and what stands behind each.
ghost use Rattle.std.specs.Prelude.{◌≡◌, ◌≤◌, ◌<◌};
ghost use Rattle.reel.specs.Marks.{mark_of, width_of, has_list, order_of, is_due};

// In the order of the letters below; `Turn` makes the cycles' writes.
#[derive(Clone, Copy)]
pub enum Mark {
    Track,
    Budget,
    Time,
    Freqs,
    Curve,
    Cycle,
    Turn,
    Cut,
}

// Two letters, the first the low byte.
const TK: u32 = 19284;

const MX: u32 = 22605;

const TP: u32 = 20564;

const FQ: u32 = 20806;

const OT: u32 = 21583;

const CY: u32 = 22851;

const RC: u32 = 17234;

const PF: u32 = 18000;

// The mark of two letters, if they are one's.
pub fn mark_of(letters: u32) -> Option<Mark>
    ensures { result ≡ mark_of letters }
{
    match letters {
        TK => Some(Mark::Track),
        MX => Some(Mark::Budget),
        TP => Some(Mark::Time),
        FQ => Some(Mark::Freqs),
        OT => Some(Mark::Curve),
        CY => Some(Mark::Cycle),
        RC => Some(Mark::Turn),
        PF => Some(Mark::Cut),
        _ => None,
    }
}

impl Mark {
    // How many numbers stand behind the mark, before a list.
    pub fn width(self) -> usize
        ensures value { result ≡ width_of self }
        ensures lower_bound { 0 < result }
        ensures upper_bound { result ≤ 3 }
    {
        match self {
            Mark::Cycle => 3,
            Mark::Track | Mark::Budget | Mark::Freqs | Mark::Curve => 2,
            Mark::Time | Mark::Turn | Mark::Cut => 1,
        }
    }

    // Whether a list follows, counted by the last of those numbers.
    pub fn has_list(self) -> bool
        ensures { result ≡ has_list self }
    {
        matches!(self, Mark::Curve | Mark::Cycle)
    }

    // How many of TK and MX stand before the mark.
    fn order(self) -> u32
        ensures { result ≡ order_of self }
    {
        match self {
            Mark::Track => 0,
            Mark::Budget => 1,
            _ => 2,
        }
    }

    // Whether the mark's turn has come, `due` of TK and MX being read.
    pub fn is_due(self, due: u32) -> bool
        ensures { result ≡ is_due due self }
    {
        self.order() == due
    }
}
