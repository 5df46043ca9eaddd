// The base of each event and the first instance, in one pass over the frames. Base is the document's term.
ghost use Rattle.std.specs.Prelude.{◌≡◌, ◌<◌, ◌≤◌, None, Some, length, unsigned_abs};
ghost use Rattle.rule.specs.Limits.{event_limit, factor_limit, offset_limit};
ghost use Rattle.verdict.specs.Found.{instance_limit, occurrence, meant_by};
ghost use Rattle.checker.specs.Base.{or_zero, first_for};
ghost use Rattle.checker.specs.BasePass.{lowest, bases_with, bases_of, first_by, first_with, Startable, Passable};
ghost use Rattle.checker.specs.BaseLow.{no_base};

use crate::limits;
use rule::{FRAME_BYTES, Frame, kinds};
use std::marker::Model;
use verdict::Instance;

// What stands for no base; no base is as large.
const NO_BASE: u32 = 4294967295;

// The base of an event, if it is referenced: one number, and not an Option<u32>, since eight of those by value are taken apart byte
// by byte. With them `state_passes` took 567 instructions a call, and with these it takes 268.
#[derive(Clone, Copy)]
pub struct Base {
    low: u32,
}

// Clauses see an Option.
impl Model for Base {
    ghost use Rattle.std.specs.Prelude.{ℕ, Option};
    ghost use Rattle.checker.specs.BaseLow.{base_by, low_of, low_back};

    ghost Value = { Option ℕ };

    ghost view = { λ b. base_by b.low };

    ghost inverse = { λ o. record { low = low_of o } };

    ghost inverse_ok = { λ b h i. record { low = low_back b.low i } };
}

impl Base {
    // That of an unreferenced event.
    fn none() -> Base
        ensures { result ≡ None }
    {
        Base { low: NO_BASE }
    }

    // That of a referenced one.
    fn of(low: u32) -> Base
        requires { low < no_base }
        ensures { result ≡ Some low }
    {
        Base { low }
    }

    // The base, if there is one.
    pub fn known(self) -> Option<u32>
        ensures { result ≡ self }
    {
        (self.low != NO_BASE).then_some(self.low)
    }
}

// The lower of a base so far, if there is one, and the occurrence that a reference means, void as 0.
fn lower(low: Base, p: Instance, factor: u8, offset: i32) -> Base
    requires { (p.0 ≤ instance_limit) × ((factor ≤ factor_limit) × (unsigned_abs offset ≤ offset_limit)) }
    ensures { result ≡ Some (lowest low (or_zero (meant_by (occurrence factor offset p.0)))) }
{
    let start = verdict::occurrence_of(p, factor, offset).map_or(0, |k| k.0);
    Base::of(low.known().map_or(start, |low| low.min(start)))
}

// The first instance at which factor × i + offset is not below 0.
fn first_by(factor: u8, offset: i32) -> Instance
    requires { (1 ≤ factor) × (unsigned_abs offset ≤ offset_limit) }
    ensures { result.0 ≡ first_by factor offset }
{
    if offset < 0 {
        Instance(offset.unsigned_abs().div_ceil(u32::from(factor)))
    } else {
        Instance(0)
    }
}

// The base of each event at an instance, if it is referenced, and the first instance.
#[derive(Clone, Copy)]
pub struct Starts {
    pub bases: [Base; 8],
    pub first: Instance,
}

impl Starts {
    // One frame more: the bases at instance p, and the first instance.
    fn take(&mut self, x: Frame, p: Instance)
        requires { Startable p.0 x × (length self.old.bases ≡ event_limit) }
        ensures kept { length self.new.bases ≡ event_limit }
        ensures bases_after { (self.new.bases ≡ bases_with p.0 x self.old.bases)
            × (self.new.first.0 ≡ first_with x self.old.first.0) }
    {
        if x.kind == kinds::REFERENCE_BYTE {
            let e = x.event as usize;
            self.bases[e] = lower(self.bases[e], p, x.factor, x.value);
            let own = first_by(x.factor, x.value);
            // By the numbers: an order of `Instance` for this one place would be no plainer.
            self.first = Instance(self.first.0.min(own.0));
        }
    }
}

// Both, by the references of accepted frames, with the bases at instance p.
pub fn starts_at(frames: &[u8], p: Instance) -> Starts
    requires { Passable frames.now p.0 }
    ensures { (result.bases ≡ bases_of frames.now p.0)
        × (result.first.0 ≡ first_for frames.now) }
{
    let mut starts = Starts {
        bases: [Base::none(); 8],
        first: Instance(limits::FIRST_LIMIT),
    };
    for k in 0..frames.len() / FRAME_BYTES {
        starts.take(rule::frame_at(frames, k), p);
    }
    starts
}
