// The report over all stations: 3 for the edition, 11 for the lengths, 22 for too many logs, then the refusal of the first station that
// has one. A refusal touches no room.
ghost use Rattle.std.specs.Prelude.{◌≡◌, true, length};
ghost use Rattle.refusal.specs.Crossing.{Crosses};
ghost use Rattle.state.specs.Start.{is_edition};
ghost use Rattle.fleet.specs.Fleet.{counted_told, judged_told, lease_at, report_told, fleet_in, station_at};
ghost use Rattle.fleet.specs.Answers.{CountedAsked, FleetAsked, MonthAsked, fleet_numbers, month_from, told_reported};

use crate::parts::Fleet;
use crate::station::Month;
use crate::{lengths, parts, station};
use refusal::Refusal;
use state::edition;

// Kept (design pass 5, C interface): C lends the logs and the stations' numbers as two arrays, here and in each function below.
// The month of a station, whose log begins at `start`.
fn month_at(
    edition: u32,
    logs: &[u8],
    numbers: &[u64],
    start: usize,
    k: usize,
) -> Result<Month, u32>
    requires { MonthAsked edition logs.now numbers.now start k }
    ensures { result ≡ month_from (lease_at numbers.now k) (station_at edition logs.now numbers.now k).score }
{
    let at = crate::NUMBERS * k;
    let first_day = numbers[at + 1];
    let days = numbers[at + 2];
    let owed = numbers[at + 3];
    let end = start + numbers[at] as usize;
    station::month_of(edition, &logs[start..end], first_day, days, owed)
}

// What the stations come to one after the other, or the number of the first refusal. `start` is where the next log begins.
fn stations(edition: u32, logs: &[u8], numbers: &[u64]) -> Result<Fleet, u32>
    requires { FleetAsked edition logs.now numbers.now }
    ensures { told_reported result ≡ fleet_in edition logs.now numbers.now }
{
    let mut fleet = parts::none();
    let mut start: usize = 0;
    for k in 0..numbers.len() / crate::NUMBERS {
        let month = month_at(edition, logs, numbers, start, k)?;
        fleet = parts::add(fleet, k as u64, month.served, month.owed, month.silent);
        start += numbers[crate::NUMBERS * k] as usize;
    }
    Ok(fleet)
}

// Writes the four numbers of a report.
fn write(room: &mut [u64], fleet: Fleet)
    requires { length room.old ≡ 4 }
    ensures { room.new ≡ fleet_numbers fleet }
{
    room[0] = fleet.served;
    room[1] = fleet.owed;
    room[2] = fleet.silent;
    room[3] = fleet.part.station;
}

// The report where all lengths are right: 22, then what the stations come to.
fn counted(edition: u32, logs: &[u8], numbers: &[u64]) -> Result<Fleet, u32>
    requires { CountedAsked edition logs.now numbers.now }
    ensures { told_reported result ≡ counted_told edition logs.now numbers.now }
{
    if crate::STATIONS < numbers.len() / crate::NUMBERS {
        return Err(u32::from(Refusal::TooManyLogs));
    }
    stations(edition, logs, numbers)
}

// The report by the length of the room: 3 for the edition, then 11 for the lengths.
fn judged(edition: u32, logs: &[u8], numbers: &[u64], room: usize) -> Result<Fleet, u32>
    ensures { told_reported result ≡ report_told edition logs.now numbers.now room }
{
    if !edition::is_known(edition) {
        return Err(u32::from(Refusal::Malformed));
    }
    if numbers.len() % crate::NUMBERS != 0 || room != crate::ROOM {
        return Err(u32::from(Refusal::WrongLength));
    }
    if !lengths::add_up(numbers, logs.len() as u64) {
        return Err(u32::from(Refusal::WrongLength));
    }
    counted(edition, logs, numbers)
}

// The report of a fleet: the logs as one slice, four numbers a station, and a room of four: what was served and owed in all, the silent
// days, and the station with the smallest served part.
pub fn report(edition: u32, logs: &[u8], numbers: &[u64], room: &mut [u64]) -> u32
    ensures { Crosses (report_told edition logs.now numbers.now (length room.old)) result room.old room.new }
{
    match judged(edition, logs, numbers, room.len()) {
        Ok(fleet) => {
            write(room, fleet);
            0
        }
        Err(number) => number,
    }
}
