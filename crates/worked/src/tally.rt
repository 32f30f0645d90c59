// What a group of checks comes to.
ghost use Rattle.std.specs.Prelude.{◌≡◌};
ghost use Rattle.worked.specs.Counts.{unchecked, counted, together};

use std::io;

#[derive(Drop)]
pub struct Tally {
    pub agreed: u64,
    pub differed: u64,
}

impl Tally {
    // No check yet.
    pub fn new() -> Self
        ensures { result ≡ unchecked }
    {
        Tally {
            agreed: 0,
            differed: 0,
        }
    }

    // One check more.
    pub fn with(self, ok: bool) -> Self
        ensures { result ≡ counted self ok }
    {
        if ok {
            Tally {
                agreed: std::num::wrapping_add_u64(self.agreed, 1),
                differed: self.differed,
            }
        } else {
            Tally {
                agreed: self.agreed,
                differed: std::num::wrapping_add_u64(self.differed, 1),
            }
        }
    }

    // Two groups together.
    pub fn and(self, other: Tally) -> Self
        ensures { result ≡ together self other }
    {
        Tally {
            agreed: std::num::wrapping_add_u64(self.agreed, other.agreed),
            differed: std::num::wrapping_add_u64(self.differed, other.differed),
        }
    }

    // A line of the report. It fails where the writing does, and what is written no contract can say: the programs' stdout files do.
    pub fn print(self, rt: &impl Print, name: &str) -> io::Result<()> {
        println!(rt;
            "{name}: {} agreed, {} differed",
            self.agreed, self.differed
        )
    }
}
