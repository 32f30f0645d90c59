// A group of up to 32 processors: what document 01 says of a step and a run (specs/), how a group lies in lent cells, and
// what a step does to its masks.
//
// The state of a group is 20 cells: 0 the processors in the group and 1 the active ones, bit i for processor i; 2 to 6 the
// branch counters, bit i of cell 2 + k being bit k of processor i's counter; 7 the position; 8 to 11 the stored returns, the
// last one first, 0 for none; 12 the mode; 13 the killed processors, who are no longer in cells 0 and 1 (request 11, crates/kill); 14 to 17
// the open loops, the innermost first, 0 for none (crates/loops). 18 and 19 are 0.
#![tactic(auto)]

pub mod planes;

// How many numbers a group lies in, and how many slots a program store has.
pub const CELLS: usize = 20;

pub const SLOTS: usize = 512;

// The most processors that a group has: the bits of a word.
pub const PROCESSORS: u32 = 32;

// Places of the cells.
pub const LIVE: usize = 0;

pub const ACTIVE: usize = 1;

pub const PLANE_0: usize = 2;

pub const PLANE_1: usize = 3;

pub const PLANE_2: usize = 4;

pub const PLANE_3: usize = 5;

pub const PLANE_4: usize = 6;

pub const POSITION: usize = 7;

pub const RETURN_0: usize = 8;

pub const RETURN_1: usize = 9;

pub const RETURN_2: usize = 10;

pub const RETURN_3: usize = 11;

pub const MODE: usize = 12;

pub const KILLED: usize = 13;

pub const LOOP_0: usize = 14;

pub const LOOP_1: usize = 15;

pub const LOOP_2: usize = 16;

pub const LOOP_3: usize = 17;

// The modes of request 7.
// Kept (design pass 1, C interface): a mode is the number that begin takes and that a group's cells keep; the operations below are codes of a slot's word.
pub const FULL: u32 = 0;

pub const PARTIAL: u32 = 1;

// The branch operations; 0 is none.
pub const DECREMENT: u32 = 1;

pub const INCREMENT: u32 = 2;
