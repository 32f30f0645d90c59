// What a step does to the processors' masks: bit i of every word is processor i, and the branch counters lie in five planes,
// bit i of plane k being bit k of processor i's counter. No loop: each operation works on all processors at once.
ghost use Rattle.std.specs.Prelude.{◌≡◌, ◌<◌, eqb};
ghost use Rattle.laws.specs.Choice.{◌and◌};
ghost use Rattle.laws.specs.Below.{some};
ghost use Rattle.laws.specs.Masks.{differ, on, pack};
ghost use Rattle.group.specs.Proc.{turned, lowered, raised, decided, increment, most_processors};
ghost use Rattle.group.specs.Group.{turned_if, wish_of};
ghost use Rattle.group.specs.Cells.{mode_in, proc_at, with_active, active_mask};
ghost use Rattle.group.specs.Masks.{OwnMasks, OwnMasksIn, shown_as, some_at_limit, some_at_limit_in, some_at_partial, some_at_partial_in, some_at_own_limit};

// The active processors and the five planes that a branch operation leaves.
#[derive(Drop)]
pub struct Branched {
    pub active: u32,
    pub p0: u32,
    pub p1: u32,
    pub p2: u32,
    pub p3: u32,
    pub p4: u32,
}

// The active processors once B_ELSE has done its work: those that were idle with counter 0. The planes stay as they are,
// since an active processor's counter is 0 already.
pub fn turn(live: u32, active: u32, p0: u32, p1: u32, p2: u32, p3: u32, p4: u32) -> u32
    requires { OwnMasks live active p0 p1 p2 p3 p4 }
    ensures { result ≡ active_mask (λ i. turned (proc_at live active p0 p1 p2 p3 p4 i)) }
{
    live & !active & !(p0 | p1 | p2 | p3 | p4)
}

// A word with a bit for each processor that a group may have.
pub const EVERYBODY: u32 = 0xFFFFFFFF;

// One bit at all 32 places.
pub fn spread(bit: u32) -> u32
    requires { bit < 2 }
    ensures { result ≡ pack most_processors (λ i. eqb bit 1) }
{
    bit * EVERYBODY
}

// The processors that want to jump. The boolean is one bit for all of them, so it picks four of JUMP_FUNC's eight bits.
pub fn wishes(func: u32, boolean: u32, alu: u32, predicate: u32) -> u32
    requires { boolean < 2 }
    ensures { result ≡ pack most_processors (wish_of func (eqb boolean 1) alu predicate) }
{
    let rule = func >> boolean;
    let neither = spread(rule % 2);
    let second = spread(rule / 4 % 2);
    let first = spread(rule / 16 % 2);
    let both = spread(rule / 64 % 2);
    let without = neither ^ (neither ^ second) & predicate;
    let with = first ^ (first ^ both) & predicate;
    without ^ (without ^ with) & alu
}

// Whether the group jumps: with JUMP_ANY if some active processor wants to, without it if every active one does.
pub fn decides(any: bool, active: u32, wish: u32) -> bool
    ensures { result ≡ decided any (λ i. on i active) (λ i. on i wish) }
{
    if any {
        active & wish != 0
    } else {
        active & !wish == 0
    }
}

// Whether some processor's counter is at its limit of 31, so that none can be added.
pub fn at_limit(p0: u32, p1: u32, p2: u32, p3: u32, p4: u32) -> bool
    ensures { result ≡ some_at_limit p0 p1 p2 p3 p4 }
{
    p0 & p1 & p2 & p3 & p4 != 0
}

// Whether some counter has both upper bits, as 31 has.
pub fn upper_bits(p3: u32, p4: u32) -> bool
    ensures { result ≡ some most_processors (λ i. on i p3 and on i p4) }
{
    p3 & p4 != 0
}

// Whether the operation is an increment that a counter at its limit forbids. Few groups have a counter with both upper bits, so that
// test is first: the processor can predict it, which it often can't the operation.
pub fn over_limit(op: u32, cells: &[u32; crate::CELLS]) -> bool
    ensures { result ≡ (eqb op increment and some_at_limit_in cells.now) }
{
    upper_bits(cells[crate::PLANE_3], cells[crate::PLANE_4])
        && (op == crate::INCREMENT
            && at_limit(
                cells[crate::PLANE_0],
                cells[crate::PLANE_1],
                cells[crate::PLANE_2],
                cells[crate::PLANE_3],
                cells[crate::PLANE_4],
            ))
}

// Whether some processor's counter is at the limit of partial mode, 5 or above.
// Kept (design pass 2, no plainer): this and the next are other tests of bits, in another order, than of full mode's limit, not another constant.
pub fn at_partial(p0: u32, p1: u32, p2: u32, p3: u32, p4: u32) -> bool
    ensures { result ≡ some_at_partial p0 p1 p2 p3 p4 }
{
    p3 | p4 | p2 & (p0 | p1) != 0
}

// The same as `over_limit` by the limit of partial mode. The operation is asked first here: so a step that isn't an increment reads no plane,
// and takes no longer than in full mode.
pub fn over_partial(op: u32, cells: &[u32; crate::CELLS]) -> bool
    ensures { result ≡ (eqb op increment and some_at_partial_in cells.now) }
{
    op == crate::INCREMENT
        && at_partial(
            cells[crate::PLANE_0],
            cells[crate::PLANE_1],
            cells[crate::PLANE_2],
            cells[crate::PLANE_3],
            cells[crate::PLANE_4],
        )
}

// The same by the limit of the mode that the cells have. A group's mode never changes, so the processor predicts this test.
pub fn over_own_limit(op: u32, cells: &[u32; crate::CELLS]) -> bool
    ensures { result ≡ (eqb op increment and some_at_own_limit (mode_in cells.now) cells.now) }
{
    if cells[crate::MODE] == crate::PARTIAL {
        return over_partial(op, cells);
    }
    over_limit(op, cells)
}

// The active processors as the wishes see them: turned by B_ELSE where the slot has it. The planes are read for that alone.
pub fn turn_if(otherwise: bool, active: u32, cells: &[u32; crate::CELLS]) -> u32
    requires { OwnMasksIn cells.now active }
    ensures { result ≡ active_mask (turned_if otherwise (with_active cells.now active)) }
{
    if otherwise {
        return turn(
            cells[crate::LIVE],
            active,
            cells[crate::PLANE_0],
            cells[crate::PLANE_1],
            cells[crate::PLANE_2],
            cells[crate::PLANE_3],
            cells[crate::PLANE_4],
        );
    }
    active
}

// Decrement: idle counters lose `count`, plane by plane with a borrow; where a borrow is left over, the counter would go
// below zero and the processor wakes with counter 0. A borrow goes on as it is where a plane's bit equals the count's; where
// they differ it is the count's.
pub fn lower(
    count: u32,
    live: u32,
    active: u32,
    p0: u32,
    p1: u32,
    p2: u32,
    p3: u32,
    p4: u32,
) -> Branched
    requires { (count < 32) × OwnMasks live active p0 p1 p2 p3 p4 }
    ensures { result ≡ shown_as (λ i. lowered count (proc_at live active p0 p1 p2 p3 p4 i)) }
{
    let c0 = spread(count % 2);
    let c1 = spread(count / 2 % 2);
    let c2 = spread(count / 4 % 2);
    let c3 = spread(count / 8 % 2);
    let c4 = spread(count / 16 % 2);
    let b0 = !p0 & c0;
    let b1 = b0 ^ (p1 ^ c1) & (b0 ^ c1);
    let b2 = b1 ^ (p2 ^ c2) & (b1 ^ c2);
    let b3 = b2 ^ (p3 ^ c3) & (b2 ^ c3);
    let b4 = b3 ^ (p4 ^ c4) & (b3 ^ c4);
    let idle = live & !active;
    let kept = idle & !b4;
    Branched {
        active: active | idle & b4,
        p0: (p0 ^ c0) & kept,
        p1: (p1 ^ c1 ^ b0) & kept,
        p2: (p2 ^ c2 ^ b1) & kept,
        p3: (p3 ^ c3 ^ b2) & kept,
        p4: (p4 ^ c4 ^ b3) & kept,
    }
}

// The active processors whose wish differs from the decision.
pub fn leaving(jump: bool, active: u32, wish: u32) -> u32
    ensures { result ≡ pack most_processors (λ i. on i active and differ (on i wish) jump) }
{
    if jump { active & !wish } else { active & wish }
}

// Increment: idle counters gain 1, plane by plane with a carry; those who leave become idle with counter 0.
pub fn raise(
    jump: bool,
    live: u32,
    active: u32,
    wish: u32,
    p0: u32,
    p1: u32,
    p2: u32,
    p3: u32,
    p4: u32,
) -> Branched
    requires { OwnMasks live active p0 p1 p2 p3 p4 }
    ensures { result ≡ shown_as (λ i. raised jump (on i wish) (proc_at live active p0 p1 p2 p3 p4 i)) }
{
    let leave = leaving(jump, active, wish);
    let idle = live & !active;
    let c0 = p0 & idle;
    let c1 = p1 & c0;
    let c2 = p2 & c1;
    let c3 = p3 & c2;
    Branched {
        active: active & !leave,
        p0: p0 ^ idle,
        p1: p1 ^ c0,
        p2: p2 ^ c1,
        p3: p3 ^ c2,
        p4: p4 ^ c3,
    }
}
