// The refusals of document 01, by their numbers.
ghost use Rattle.std.specs.Prelude.{◌≡◌};
ghost use Rattle.image.specs.RefusalNumber.{refusal_number, OfNumber};

#[derive(Clone, Copy, Debug, PartialEq, Eq)]
pub enum Refusal {
    // the image is under 24 bytes
    TooShort = 1,
    // a count is over its limit
    OverLimit = 2,
    // a position or the total length is not as the layout says
    Misplaced = 3,
    // a node's kind, bits, fields, text or span is not allowed
    BadNode = 4,
    // a rule has an empty or outside name, or its root is no node
    BadRule = 5,
    // two rules share a name
    SharedName = 6,
    // a part is not below its node, or a node is not exactly once a part or a root
    PartRule = 7,
    // an outcome place is needed and none is free
    OutcomesFull = 8,
    // a walked place is needed and none is free
    WalkedFull = 9,
    // a report is due and no place is free
    ReportsFull = 10,
    // a run has a 65th distinct start
    ManyStarts = 11,
    // a 257th node would be open
    TooDeep = 12,
    // a search for left recursion would enter a 65,537th node
    LongSearch = 13,
}

impl Refusal {
    // The number of document 01's table.
    pub fn number(self) -> u8
        ensures { result ≡ refusal_number self }
    {
        self as u8
    }

    // The refusal that has a number in document 01's table, or none.
    pub fn of_number(n: u64) -> Option<Refusal>
        ensures { OfNumber n result }
    {
        match n {
            1 => Some(Refusal::TooShort),
            2 => Some(Refusal::OverLimit),
            3 => Some(Refusal::Misplaced),
            4 => Some(Refusal::BadNode),
            5 => Some(Refusal::BadRule),
            6 => Some(Refusal::SharedName),
            7 => Some(Refusal::PartRule),
            8 => Some(Refusal::OutcomesFull),
            9 => Some(Refusal::WalkedFull),
            10 => Some(Refusal::ReportsFull),
            11 => Some(Refusal::ManyStarts),
            12 => Some(Refusal::TooDeep),
            13 => Some(Refusal::LongSearch),
            _ => None,
        }
    }
}
