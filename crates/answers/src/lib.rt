// The answers of document 01, each with its number there. What each of them says stands in specs/Number.antt.
#![tactic(auto)]

#[derive(Clone, Copy, Debug, PartialEq, Eq)]
pub enum Answer {
    Done = 0,
    TextTooLong = 1,
    NotInForm = 2,
    OutOfRange = 3,
    NotThere = 4,
    NotLower = 5,
    Doubled = 6,
    ExitLeaves = 7,
    TooHigh = 8,
    NoState = 9,
    AssertionFalse = 10,
    SendToUndefined = 11,
    SendToNotLive = 12,
    StackEmpty = 13,
    NotABool = 14,
    WrongType = 15,
    QueueFull = 16,
    StackFull = 17,
    NoRoom = 18,
    UnableToStep = 19,
    NotAccepted = 20,
    BufferTooShort = 21,
    TookNoStep = 22,
}

// A text that is refused: its answer, and the faulty line, 0 at the answers that have none (1 and 9).
#[derive(Clone, Copy)]
pub struct Refusal {
    pub answer: Answer,
    pub line: usize,
}
