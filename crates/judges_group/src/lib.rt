// Whether 20 cells that were kept elsewhere are those of a group: yes just where a step, a run, a kill and the loops told may have them.
#![tactic(auto)]

ghost use Rattle.std.specs.Prelude.{◌≡◌, not, eqb};
ghost use Rattle.laws.specs.Choice.{◌and◌, pick};
ghost use Rattle.laws.specs.Below.{some};
ghost use Rattle.laws.specs.Masks.{◌or◌, on, pack};
ghost use Rattle.group.specs.Proc.{most_processors};
ghost use Rattle.judges_group.specs.Judged.{strays, in_aRow, too_high, counters_fit, stack_of, loop_fits, returns_fit, loops_fit, Words, JudgesGroup};

// The lowest of bits 31:24, which are 1 in a LOOP's cell and 0 in a REP's.
const LOOP_MARK: u32 = 0x1000000;

// The values of the byte that has a loop's count, and the highest of them.
const COUNTS: u32 = 256;

const HIGHEST: u32 = 255;

// The last two cells, which a group doesn't use.
const SPARE_0: usize = 18;

const SPARE_1: usize = 19;

// The highest position, and the highest return.
const LAST_SLOT: u32 = 512;

// Whether the masks go together: who is active is in the group, nobody of the killed is, and who has a bit of a counter is idle.
fn masks_fit(
    live: u32,
    active: u32,
    p0: u32,
    p1: u32,
    p2: u32,
    p3: u32,
    p4: u32,
    killed: u32,
) -> bool
    ensures equal { result ≡ not (some most_processors (strays live active p0 p1 p2 p3 p4 killed)) }
    ensures words { Words live active p0 p1 p2 p3 p4 killed }
{
    let idle = live & !active;
    active & !live | killed & live | (p0 | p1 | p2 | p3 | p4) & !idle == 0
}

// The starting group: those in the group and the killed.
fn starting(live: u32, killed: u32) -> u32
    ensures { result ≡ pack most_processors (λ i. on i live or on i killed) }
{
    live | killed
}

// Whether a starting group has processor 0, and with each processor the one before it: no group starts with nobody.
fn in_a_row(all: u32) -> bool
    ensures { result ≡ in_aRow all }
{
    (all % 2 == 1) & (all / 2 & !all == 0)
}

// Whether no counter is above partial mode's limit of 5: above it are those with bit 3 or 4, or with bits 1 and 2.
fn low_counters(p1: u32, p2: u32, p3: u32, p4: u32) -> bool
    ensures { result ≡ not (some most_processors (too_high p1 p2 p3 p4)) }
{
    p3 | p4 | p1 & p2 == 0
}

// Whether the number is a mode's and no counter is above the mode's limit: five planes hold none above full mode's.
fn counters_fit(mode: u32, p1: u32, p2: u32, p3: u32, p4: u32) -> bool
    ensures { result ≡ counters_fit mode p1 p2 p3 p4 }
{
    if mode == group::PARTIAL {
        return low_counters(p1, p2, p3, p4);
    }
    mode == group::FULL
}

// A stack from one of its cells on: a 0 ends it, and then there may be no more; another is to be good, and the rest too.
fn stacked(cell: u32, good: bool, none: bool, rest: bool) -> bool
    ensures { result ≡ pick (eqb cell 0) none (good and rest) }
{
    if cell == 0 {
        return none;
    }
    good & rest
}

// Four cells of a stack, and for each whether it is good where it isn't 0.
fn stack(c0: u32, c1: u32, c2: u32, c3: u32, g0: bool, g1: bool, g2: bool, g3: bool) -> bool
    ensures { result ≡ stack_of c0 c1 c2 c3 g0 g1 g2 g3 }
{
    let no_third = c3 == 0;
    let no_second = (c2 == 0) & no_third;
    let no_first = (c1 == 0) & no_second;
    let third = stacked(c3, g3, true, true);
    let second = stacked(c2, g2, no_third, third);
    let first = stacked(c1, g1, no_second, second);
    stacked(c0, g0, no_first, first)
}

fn returns_fit(r0: u32, r1: u32, r2: u32, r3: u32) -> bool
    ensures { result ≡ returns_fit r0 r1 r2 r3 }
{
    stack(
        r0,
        r1,
        r2,
        r3,
        r0 <= LAST_SLOT,
        r1 <= LAST_SLOT,
        r2 <= LAST_SLOT,
        r3 <= LAST_SLOT,
    )
}

// Whether a cell that isn't 0 is an open loop's: a LOOP with a turn left, or a REP, whose cell is the turns left alone.
fn loop_fits(cell: u32) -> bool
    ensures { result ≡ loop_fits cell }
{
    if cell / LOOP_MARK == 1 {
        return cell % COUNTS != 0;
    }
    cell <= HIGHEST
}

fn loops_fit(l0: u32, l1: u32, l2: u32, l3: u32) -> bool
    ensures { result ≡ loops_fit l0 l1 l2 l3 }
{
    let f0 = loop_fits(l0);
    let f1 = loop_fits(l1);
    let f2 = loop_fits(l2);
    let f3 = loop_fits(l3);
    stack(l0, l1, l2, l3, f0, f1, f2, f3)
}

// Whether the cells are a group's. Nothing is written.
pub fn is_group(cells: &[u32; group::CELLS]) -> bool
    ensures { JudgesGroup cells.now result }
{
    let masks = masks_fit(
        cells[group::LIVE],
        cells[group::ACTIVE],
        cells[group::PLANE_0],
        cells[group::PLANE_1],
        cells[group::PLANE_2],
        cells[group::PLANE_3],
        cells[group::PLANE_4],
        cells[group::KILLED],
    );
    let all = starting(cells[group::LIVE], cells[group::KILLED]);
    let row = in_a_row(all);
    let counters = counters_fit(
        cells[group::MODE],
        cells[group::PLANE_1],
        cells[group::PLANE_2],
        cells[group::PLANE_3],
        cells[group::PLANE_4],
    );
    let returns = returns_fit(
        cells[group::RETURN_0],
        cells[group::RETURN_1],
        cells[group::RETURN_2],
        cells[group::RETURN_3],
    );
    let loops = loops_fit(
        cells[group::LOOP_0],
        cells[group::LOOP_1],
        cells[group::LOOP_2],
        cells[group::LOOP_3],
    );
    let spare = (cells[SPARE_0] == 0) & (cells[SPARE_1] == 0);
    let place = (cells[group::POSITION] <= LAST_SLOT) & spare;
    masks & (row & (counters & (returns & (loops & place))))
}
