// The lease line: the number of its first day, its days, and the elements owed on each of them.
ghost use Rattle.std.specs.Prelude.{◌≡◌};
ghost use Rattle.score.specs.Lease.{lease_of, lease_told, told_judged};

use refusal::Refusal;

// The most days of a lease line: the rooms of a month have as many places.
const MOST_DAYS: u32 = crate::DAYS as u32;

// The most elements that a day owes.
const MOST_OWED: u32 = 100000000;

// The greatest number of a day.
const LAST_DAY: u64 = 4294967295;

// A lease line as it is given.
#[derive(Clone, Copy, Debug, PartialEq, Eq)]
pub struct LeaseLine {
    pub first_day: u32,
    pub days: u32,
    pub owed: u32,
}

impl LeaseLine {
    // Takes 1 to 31 days, at most 100,000,000 elements owed a day, and a last day below 2^32; else 21.
    pub fn judge(self) -> Result<(), Refusal>
        ensures { told_judged result ≡ lease_told (lease_of self) }
    {
        if self.days < 1 || MOST_DAYS < self.days || MOST_OWED < self.owed {
            return Err(Refusal::LeaseLine);
        }
        // In 64 bits, so that the sum can't wrap.
        if LAST_DAY < u64::from(self.first_day) + u64::from(self.days) - 1 {
            return Err(Refusal::LeaseLine);
        }
        Ok(())
    }
}
