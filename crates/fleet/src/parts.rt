// What stations come to one after the other: totals, silent days, and the one with the smallest served part so far.
ghost use Rattle.std.specs.Prelude.{◌≡◌, ◌≤◌, ◌*◌, ltb};
ghost use Rattle.fleet.specs.Fleet.{most_month};
ghost use Rattle.fleet.specs.Answers.{AddAsked, added, no_fleet, part_next};

// The number that stands for no station.
// Kept (design pass 1, what may not change): `no_part`, `joined` and `sums_cells` have 64 for none, and so have the cells that C lends.
pub const NONE: u64 = crate::STATIONS as u64;

// The station with the smallest served part so far, and its two numbers: NONE, 0 and 0 while none owes anything.
#[derive(Clone, Copy, Debug, PartialEq, Eq)]
pub struct Part {
    pub station: u64,
    pub served: u64,
    pub owed: u64,
}

// What the stations so far come to.
#[derive(Clone, Copy, Debug, PartialEq, Eq)]
pub struct Fleet {
    pub served: u64,
    pub owed: u64,
    pub silent: u64,
    pub part: Part,
}

// Whether one part is smaller than another, as fractions of whole numbers: by cross products, which 64 bits hold.
fn is_smaller(served: u64, owed: u64, other_served: u64, other_owed: u64) -> bool
    requires { ((served ≤ most_month) × (owed ≤ most_month)) × ((other_served ≤ most_month) × (other_owed ≤ most_month)) }
    ensures { result ≡ ltb (served * other_owed) (other_served * owed) }
{
    served * other_owed < other_served * owed
}

// The smallest part with one station more, whose number is higher than those before: it has to be smaller to be named. One that owes
// nothing is left out.
pub fn next_part(part: Part, number: u64, served: u64, owed: u64) -> Part
    requires { ((served ≤ most_month) × (owed ≤ most_month)) × ((part.served ≤ most_month) × (part.owed ≤ most_month)) }
    ensures { result ≡ part_next part number served owed }
{
    if owed == 0 {
        return part;
    }
    if part.owed == 0 || is_smaller(served, owed, part.served, part.owed) {
        return Part {
            station: number,
            served,
            owed,
        };
    }
    part
}

// No station yet.
pub fn none() -> Fleet
    ensures { result ≡ no_fleet }
{
    Fleet {
        served: 0,
        owed: 0,
        silent: 0,
        part: Part {
            station: NONE,
            served: 0,
            owed: 0,
        },
    }
}

// The stations so far and one more.
pub fn add(fleet: Fleet, number: u64, served: u64, owed: u64, silent: u64) -> Fleet
    requires { AddAsked fleet served owed silent }
    ensures { result ≡ added fleet number served owed silent }
{
    Fleet {
        served: fleet.served + served,
        owed: fleet.owed + owed,
        silent: fleet.silent + silent,
        part: next_part(fleet.part, number, served, owed),
    }
}
