// Why an entry refuses: each cause with the number that stands for it, in C and in the text of an answer. A number is
// written here once, and specs/Numbers.antt has the same for the contracts.
#![tactic(auto)]

ghost use Rattle.std.specs.Prelude.{◌≡◌};
ghost use Rattle.refusal.specs.Numbers as S;

#[derive(Clone, Copy, PartialEq, Eq)]
pub enum Cause {
    // A name is empty.
    NameEmpty = 1,
    // A name has more than 256 bytes.
    NameTooLong = 2,
    // There are not 1 or 2 rotaries.
    RotaryCount = 3,
    // A rotary's letter is not A, B or C.
    RotaryLetter = 4,
    // Two rotaries have one letter.
    LetterTwice = 5,
    // A component of the chain is not finite.
    ChainNotFinite = 6,
    // A rotary's axis is zero.
    RotaryAxisZero = 7,
    // A rotary's limits are refused.
    LimitsRefused = 8,
    // The spindle's axis is zero.
    SpindleZero = 9,
    // A model has more than 64 links.
    TooManyLinks = 10,
    // Two links have one name.
    LinkNameTwice = 11,
    // A link's carrier is unknown.
    CarrierUnknown = 12,
    // A link's solid is bad.
    SolidBad = 13,
    // The tool length is refused.
    ToolLength = 14,
    // The tool axis is zero, not on a path.
    ToolAxisZero = 15,
    // A joint, a hint or a tip is not finite.
    NotFinite = 16,
    // A size is above its limit.
    TooLarge = 17,
    // The cone is refused.
    Cone = 18,
    // A tolerance is refused.
    Tolerance = 19,
    // Lengths differ, or a buffer has no whole records.
    LengthsDiffer = 20,
    // The axis is not reachable.
    NotReachable = 21,
    // The axis is reached outside the rotary limits alone.
    OutsideLimits = 22,
    // A pose flips the rotary branch.
    BranchFlips = 23,
    // A pose leaves the limits of an axis: `letter` names it.
    LeavesAxis = 24,
    // A pose is unreachable.
    PoseUnreachable = 25,
    // A pose's angle is past 36,000.
    AngleTooLarge = 26,
    // An insertion would be the 10,001st.
    TooManyInsertions = 27,
    // There is no space for the next pose.
    NoSpace = 28,
    // The bytes of a job or a model are malformed.
    Malformed = 29,
    // Two rotaries are parallel, on a path.
    ParallelRotaries = 30,
    // The nearest tooth breaks the tolerance or leaves a rotary's limits.
    ToothMisses = 31,
    // Sixteen paths are admitted already.
    QueueFull = 32,
    // No admitted path has the number.
    NotAdmitted = 33,
    // The shop is unknown.
    UnknownShop = 34,
    // The shop's balance is below the count.
    BalanceShort = 35,
}

impl Cause {
    // The number that stands for it.
    pub fn number(self) -> u32
        ensures { result ≡ S.number_of self }
    {
        self as u32
    }
}

// What a refusal hands back: its cause; where, as the rotary, the link, the pose or the offset that goes with the
// cause, 0 where there is none; and for LeavesAxis the rotary's letter, else 0. No Options: the definitions (`refusal`,
// `place_in` of crate maztubel) have numbers with 0 for none, and so has C, to which both are handed as they stand.
#[derive(Clone, Copy)]
pub struct Refusal {
    pub cause: Cause,
    pub at: u64,
    pub letter: u8,
}

impl Refusal {
    // Of a cause that names no letter.
    pub fn new(cause: Cause, at: u64) -> Refusal
        ensures { result ≡ S.refusal cause at }
    {
        Refusal {
            cause,
            at,
            letter: 0,
        }
    }
}
