// The kinds of calls and of answers, and the classes of runs, each with its code in a frame.

ghost use Rattle.std.specs.Prelude.{◌≡◌, ◌==◌};
ghost use Rattle.std.specs.List.{find};
ghost use Rattle.frames.specs.Kinds.{call_code, CodeRead};

// A call's kind: the first byte of its frame.
#[derive(Clone, Copy)]
pub(crate) enum CallKind {
    Open = 1,
    Raise = 2,
    Strike = 3,
    Feeder = 4,
    Link = 5,
    Place = 6,
    Why = 7,
    Dearest = 8,
    Nearest = 9,
}

impl CallKind {
    const ALL: [CallKind; 9] = [
        CallKind::Open,
        CallKind::Raise,
        CallKind::Strike,
        CallKind::Feeder,
        CallKind::Link,
        CallKind::Place,
        CallKind::Why,
        CallKind::Dearest,
        CallKind::Nearest,
    ];

    fn code(self) -> u8
        ensures { result ≡ call_code self }
    {
        self as u8
    }

    // The kind with this code, if there is one.
    fn with_code(code: u8) -> Option<CallKind>
        ensures { result ≡ find (λ k. call_code k == code) CallKind.ALL }
    {
        CallKind::ALL
            .iter()
            .copied()
            .find(|kind| kind.code() == code)
    }
}

// A code that no kind of call has.
#[derive(Clone, Copy)]
pub(crate) struct UnknownKind;

impl TryFrom<u8> for CallKind {
    type Error = UnknownKind;

    ghost try_from_gives = { CodeRead };

    fn try_from(code: u8) -> Result<CallKind, UnknownKind> {
        CallKind::with_code(code).ok_or(UnknownKind)
    }
}

// An answer's kind: the first byte of its frame.
#[derive(Clone, Copy)]
pub(crate) enum AnswerKind {
    Taken = 0x81,
    Refused = 0x82,
    Level = 0x83,
    Site = 0x84,
    Floor = 0x85,
    Fixed = 0x86,
    Chain = 0x87,
    Clash = 0x88,
    RunPriced = 0x89,
    MastSeen = 0x8A,
}

// The class of a run in an answer.
#[derive(Clone, Copy)]
pub(crate) enum RunClass {
    Feeder = 0,
    Link = 1,
}
