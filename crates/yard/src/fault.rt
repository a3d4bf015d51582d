// Refusals: what a caller is told, and the rules that calls are held to.

ghost use Rattle.std.specs.Prelude.{◌≡◌};
ghost use Rattle.yard.specs.Rows.{rule_number, rule_layer, refusal_of, entry_refusal};

// The layers that refuse, from the outermost rule to the innermost.
#[derive(Clone, Copy, PartialEq, Eq, Debug)]
pub enum Layer {
    Memory,
    Line,
    Frame,
    Entry,
    Placing,
}

// What can be wrong with a field of an edit.
#[derive(Clone, Copy, PartialEq, Eq, Debug)]
pub enum EntryRow {
    // the pillar count is not 1 to 12
    PillarCount,
    // the mast's number is over 39
    MastNumber,
    // the mast does not stand
    NotStanding,
    // a coordinate is beyond 50,000 on either side
    OffGrid,
    // the plan has no such pillar
    NoPillar,
    // a link from a pillar to itself
    SelfLink,
    // a rate, a fixed price or a limit is too large
    TermRange,
}

// The rules by which a call is refused, with the rows of entries among them.
#[derive(Clone, Copy, PartialEq, Eq, Debug)]
pub enum Rule {
    // a line has no character, an odd number of them, or over 64
    LineLength,
    // a character is no digit
    NoDigit,
    // the bytes do not add to 0 modulo 256
    CheckSum,
    // no call has this kind and this length
    Kind,
    // a field of an edit is wrong
    Entry(EntryRow),
    // no mast stands
    NoMast,
    // a pillar is loose
    Loose,
    // no placing keeps all limits
    Unkept,
    // a buffer or a list is too short, or an input too long
    Room,
}

// A refusal: the rule, by whose number and layer it is told, and where in the call it lies.
#[derive(Clone, Copy, PartialEq, Eq, Debug)]
pub struct Refusal {
    pub rule: Rule,
    pub place: u8,
}

// An entry that is refused: what is wrong, and the offset of the field in the call's frame.
#[derive(Clone, Copy, PartialEq, Eq, Debug)]
pub struct EntryFault {
    pub row: EntryRow,
    pub place: u8,
}

impl Rule {
    // The number by which the rule is told. (By a match: an enum of which a case holds a row has no codes of its own.)
    pub fn number(self) -> u8
        ensures { result ≡ rule_number self }
    {
        match self {
            Rule::LineLength => 1,
            Rule::NoDigit => 2,
            Rule::CheckSum => 3,
            Rule::Kind => 4,
            Rule::Entry(EntryRow::PillarCount) => 5,
            Rule::Entry(EntryRow::MastNumber) => 6,
            Rule::Entry(EntryRow::NotStanding) => 7,
            Rule::Entry(EntryRow::OffGrid) => 8,
            Rule::Entry(EntryRow::NoPillar) => 9,
            Rule::Entry(EntryRow::SelfLink) => 10,
            Rule::Entry(EntryRow::TermRange) => 11,
            Rule::NoMast => 13,
            Rule::Loose => 14,
            Rule::Unkept => 15,
            Rule::Room => 16,
        }
    }

    // The layer of the rule.
    pub fn layer(self) -> Layer
        ensures { result ≡ rule_layer self }
    {
        match self {
            Rule::Room => Layer::Memory,
            Rule::LineLength | Rule::NoDigit => Layer::Line,
            Rule::CheckSum | Rule::Kind => Layer::Frame,
            Rule::Entry(_) => Layer::Entry,
            Rule::NoMast | Rule::Loose | Rule::Unkept => Layer::Placing,
        }
    }

    // The refusal by this rule at a place of the call.
    pub fn at(self, place: u8) -> Refusal
        ensures { result ≡ refusal_of self place }
    {
        Refusal { rule: self, place }
    }
}

impl EntryRow {
    // The fault of breaking this row at a field.
    pub fn at(self, place: u8) -> EntryFault
        ensures row { result.row ≡ self }
        ensures place { result.place ≡ place }
    {
        EntryFault { row: self, place }
    }
}

impl From<EntryFault> for Refusal {
    ghost from_gives = { λ f r. r ≡ entry_refusal f };

    fn from(fault: EntryFault) -> Refusal {
        Rule::Entry(fault.row).at(fault.place)
    }
}
