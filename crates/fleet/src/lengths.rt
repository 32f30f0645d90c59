// Whether the stations' logs are the slice: their lengths add up to its own.
ghost use Rattle.std.specs.Prelude.{◌≡◌};
ghost use Rattle.fleet.specs.Fleet.{add_up};

// Whether the lengths of the logs, each the first of a station's four numbers, add up to the slice's. Each is compared with what is
// left, so that no sum can wrap.
pub fn add_up(numbers: &[u64], slice: u64) -> bool
    ensures { result ≡ add_up numbers.now slice }
{
    let mut left = slice;
    for k in 0..numbers.len() / crate::NUMBERS {
        let log = numbers[crate::NUMBERS * k];
        if left < log {
            return false;
        }
        left = left - log;
    }
    left == 0
}
