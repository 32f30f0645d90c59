// A replay's own ten numbers, and what a byte does to them.
ghost use Rattle.replay.specs.State.{no_record};
ghost use Rattle.replay.specs.Step.{of_kind, opening, stopped, with_byte};
ghost use Rattle.replay.specs.Own.{AddAsked, Changed, day_begun, noting};

// Places of the numbers: the number that stopped the replay; the first refused word's number and the midnights before it; the
// midnights so far and the day of the last; how many bytes of the open record stand, its kind, and its number's first bytes.
pub const STOPPED_BY: usize = 0;

pub const REFUSED: usize = 1;

pub const REFUSED_AFTER: usize = 2;

pub const MIDNIGHTS: usize = 3;

pub const LAST_DAY: usize = 4;

pub const COUNT: usize = 5;

pub const KIND: usize = 6;

pub const LOW: usize = 7;

pub const SECOND: usize = 8;

pub const THIRD: usize = 9;

// The numbers that stop a replay, as its first number keeps them: the numbers of the kind's and of the day's refusal.
// Kept (design pass 1, C interface): the cells that C lends keep the stop and a record's kind as numbers; so does all of `own`.
pub const BY_KIND: u32 = 18;

pub const BY_DAY: u32 = 19;

// Stores the open record: how many bytes stand, its kind and its number's first bytes, 0 for those that haven't come.
fn put_record(log: &mut [u32; crate::LOG_CELLS], count: u32, kind: u32)
    ensures { Changed (opening (record { count = count; kind = kind; low = 0; second = 0; third = 0 })) log.old log.new }
{
    log[COUNT] = count;
    log[KIND] = kind;
    log[LOW] = 0;
    log[SECOND] = 0;
    log[THIRD] = 0;
}

// No record is open.
pub fn close(log: &mut [u32; crate::LOG_CELLS])
    ensures { Changed (opening no_record) log.old log.new }
{
    put_record(log, 0, 0)
}

// A record is open, of which the kind byte stands.
pub fn open(log: &mut [u32; crate::LOG_CELLS], kind: u32)
    ensures { Changed (opening (of_kind kind)) log.old log.new }
{
    put_record(log, 1, kind)
}

// One more byte of the open record's number stands.
pub fn add(log: &mut [u32; crate::LOG_CELLS], count: u32, byte: u32)
    requires { AddAsked log.old count }
    ensures { Changed (λ r. opening (with_byte r.opened byte) r) log.old log.new }
{
    log[KIND + count as usize] = byte;
    log[COUNT] = count + 1;
}

// The replay is stopped by 18 or 19, and the open record dropped.
pub fn stop(log: &mut [u32; crate::LOG_CELLS], number: u32)
    ensures { Changed (stopped number) log.old log.new }
{
    log[STOPPED_BY] = number;
    close(log)
}

// A refused word's number is kept, with the midnights before it, unless one was kept before.
pub fn note(log: &mut [u32; crate::LOG_CELLS], number: u32)
    ensures { Changed (noting number) log.old log.new }
{
    if log[REFUSED] == 0 {
        log[REFUSED] = number;
        log[REFUSED_AFTER] = log[MIDNIGHTS];
    }
}

// One more midnight, at which a day begins.
pub fn begin_day(log: &mut [u32; crate::LOG_CELLS], midnights: u32, day: u32)
    ensures { Changed (day_begun midnights day) log.old log.new }
{
    log[MIDNIGHTS] = midnights;
    log[LAST_DAY] = day;
    close(log)
}
