// Readings made of bytes, and the copying of bytes.
ghost use Rattle.std.specs.Prelude.{◌≡◌, ◌≤◌, length, replicate};
ghost use Rattle.refusal.specs.Number.{number_of};
ghost use Rattle.refusal.specs.Told.{gives, refuses};
ghost use Rattle.memory.specs.Answers.{Answered, PutAsked};
ghost use Rattle.memory.specs.Elements.{overwritten};

use crate::{Answer, Reading};
use refusal::Refusal;

// The given bytes, which are `n`, into a part of memory that is as long. Where `n` is a constant, no loop is left.
pub fn store_all(part: &mut [u8], given: &[u8], n: usize)
    requires { (length part.old ≡ length given.now) × (n ≡ length given.now) }
    ensures { part.new ≡ given.now }
{
    let mut i = 0;
    while i < n {
        part[i] = given[i];
        i += 1;
    }
}

// Given bytes into a part of memory that is as long.
pub fn store(part: &mut [u8], given: &[u8])
    requires { length part.old ≡ length given.now }
    ensures { part.new ≡ given.now }
{
    let n = given.len();
    match n {
        1 => store_all(part, given, 1),
        2 => store_all(part, given, 2),
        4 => store_all(part, given, 4),
        8 => store_all(part, given, 8),
        16 => store_all(part, given, 16),
        _ => store_all(part, given, n),
    }
}

pub fn refused(why: Refusal) -> Reading
    ensures { Answered (refuses (number_of why)) result }
{
    Reading {
        answer: Answer::Refused(why),
        bytes: [0; 16],
    }
}

// Bytes of a reading with a part of memory, of `n` bytes, put in place `at`.
pub fn put(bytes: [u8; 16], at: usize, part: &[u8], n: usize) -> [u8; 16]
    requires { PutAsked bytes at part.now × (n ≡ length part.now) }
    ensures { result ≡ overwritten at part.now bytes }
{
    let mut room = bytes;
    store_all(&mut room[at..at + n], part, n);
    room
}

// The bytes of a reading of one element: each size is a constant in its arm.
fn first(element: &[u8]) -> [u8; 16]
    requires { length element.now ≤ 16 }
    ensures { result ≡ overwritten 0 element.now (replicate 16 0) }
{
    let n = element.len();
    match n {
        1 => put([0; 16], 0, element, 1),
        2 => put([0; 16], 0, element, 2),
        4 => put([0; 16], 0, element, 4),
        8 => put([0; 16], 0, element, 8),
        16 => put([0; 16], 0, element, 16),
        _ => put([0; 16], 0, element, n),
    }
}

// A reading of one element.
pub fn one(element: &[u8]) -> Reading
    requires { length element.now ≤ 16 }
    ensures { Answered (gives element.now) result }
{
    let bytes = first(element);
    Reading {
        answer: Answer::Bytes(element.len()),
        bytes,
    }
}
