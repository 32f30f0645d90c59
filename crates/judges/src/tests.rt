// Tests that the judges are made of.
ghost use Rattle.std.specs.Prelude.{◌≡◌};
ghost use Rattle.laws.specs.Choice.{◌and◌};
ghost use Rattle.state.specs.Lawful.{lawful};

// Two tests, by a call: a chain of them is one equation.
pub fn both(a: bool, b: bool) -> bool
    ensures { result ≡ (a and b) }
{
    a & b
}

// A flag and what it tells of: 0 and all of it is 0, or 1 and it passed its rules.
pub fn is_lawful(flag: u32, zeros: bool, passed: bool) -> bool
    ensures { result ≡ lawful flag zeros passed }
{
    if flag == 0 {
        zeros
    } else {
        (flag == 1) & passed
    }
}
