// The answers that a line can be given.

use yard::force::Run;

// A chain as it is told: its two masts, the length between them, what its runs add to, and its pillars.
#[derive(Clone, Copy, PartialEq, Eq, Debug)]
pub struct Told<'a> {
    pub from: u8,
    pub to: u8,
    pub gap: u32,
    pub total: u32,
    pub pillars: &'a [u8],
}

#[derive(Clone, Copy, PartialEq, Eq, Debug)]
pub enum Answer<'a> {
    Taken,
    // any number, and not a rule: a narrower type would ask more of who writes an answer
    Refused { number: u8, place: u8 },
    Level { cents: u32 },
    Site { pillar: u8, hx: i32, hy: i32 },
    Floor,
    Fixed { run: Run },
    Chain(Told<'a>),
    Clash(Told<'a>),
    RunPriced { run: Run, length: u32, cents: u32 },
    MastSeen { mast: u8, length: u32 },
}
