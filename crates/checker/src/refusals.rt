// Why a call is turned down, each reason by its name, and what each is told as.
ghost use Rattle.std.specs.Prelude.{◌≡◌};
ghost use Rattle.checker.specs.Refusals.{refusal_number, refusal_place};
ghost use Rattle.checker.specs.declared.refusals.Refusal.TheVariants as refusals;

use log_lines::BadLine;

// A refusal of opening, feeding, pulling, viewing or charging.
#[derive(Clone, Copy, PartialEq, Eq, Debug)]
pub enum Refusal {
    // 7 to 10, by the check of frames; 1 to 6 and 18 too where a program reads its rule from text, as crate bench does.
    Rule(rule::Refusal),
    // 11: W is outside 1 to 256, or the window isn't 32 × W words at opening.
    Opening,
    // 12: a state that no checker hands on.
    State,
    // 13: the window isn't 32 × W words.
    Window,
    // 14: the report buffer is under 166 bytes.
    Report,
    // 15, with the place.
    Line(BadLine),
    // 16: the event has 1,000,000 lines already.
    Lines,
    // 17, 'window full'.
    Full,
    // 26: above the board's limits.
    Board,
    // 27: the state's sum is not the window's.
    Sum,
    // 28: a tariff's bands.
    Bands,
    // 29: a tariff's prices, or its surcharge.
    Prices,
}

impl Refusal {
    // The number that the documents give it.
    pub fn number(self) -> u8
        ensures { result ≡ refusal_number self }
    {
        match self {
            Refusal::Rule(why) => why.number(),
            Refusal::Opening => 11,
            Refusal::State => 12,
            Refusal::Window => 13,
            Refusal::Report => 14,
            Refusal::Line(line) => line.number(),
            Refusal::Lines => 16,
            Refusal::Full => 17,
            Refusal::Board => 26,
            Refusal::Sum => 27,
            Refusal::Bands => 28,
            Refusal::Prices => 29,
        }
    }

    // Its place, 0 if none is named, as `rule::Refusal` has it.
    pub fn place(self) -> u32
        ensures { result ≡ refusal_place self }
    {
        match self {
            Refusal::Rule(why) => why.place(),
            Refusal::Line(line) => line.place,
            _ => 0,
        }
    }
}

impl From<rule::Refusal> for Refusal {
    ghost from_gives = { λ why refusal. refusal ≡ refusals.Rule why };

    fn from(refused: rule::Refusal) -> Refusal {
        Refusal::Rule(refused)
    }
}

impl From<BadLine> for Refusal {
    ghost from_gives = { λ why refusal. refusal ≡ refusals.Line why };

    fn from(why: BadLine) -> Refusal {
        Refusal::Line(why)
    }
}
