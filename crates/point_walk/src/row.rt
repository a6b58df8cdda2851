ghost use Rattle.std.specs.Prelude.{ℕ, ◌≡◌, ◌+◌, ◌<◌, ◌≤◌, Some, slice_get, take, length, if◌then◌else◌, true};
ghost use Rattle.std.specs.List.{Contains};
ghost use Rattle.flow_graph.specs.Paths.{IsClosedCode, IsSmall};
ghost use Rattle.liveness.specs.Lives.{IsLiveOf};
ghost use Rattle.liveness.specs.Sets.{IsSetOf, members};
ghost use Rattle.liveness.specs.Surviving.{Crosses};
ghost use Rattle.point_walk.specs.Walks.{falls_in, IsWritePlace, IsPlaceFor, place_at, place_or_zero, nothing, put, entries, Follows, AreGiven};
ghost use Rattle.point_walk.specs.Tables.{IsTable, IsTaken, ArePlacesOf};
ghost use Rattle.point_walk.specs.Keeping.{AreAmong, AreSeats, HasWishes, IsAlone};
ghost use Rattle.point_walk.specs.Settling.{AreKept, HadPlaces};

use crate::giving::{least_free, place_set};
use crate::keeping::{clear, stands};
use crate::seats::{Seats, places_within};
use crate::stage::{fill, grant_below, grant_free};
use liveness::{Live, register_set, survivors, take_least};
use micro_isa::{Line, MOST_FILE, MOST_REGISTERS, VReg, successors, writes};
use plan::Place;

/// How many entries a row has, where its write goes, and whether each register of it stood: it had its
/// place after the row before.
#[derive(Clone, Copy)]
pub struct Step {
    pub count: usize,
    pub write: Option<u8>,
    pub stood: bool,
}

/// The row of instruction `i`, at which the registers of `cross` cross, given the wishes from the row
/// before and who has them; leaves those for the next. Its entries are written to the beginning of
/// `line`.
pub fn next_row(
    code: &[Line],
    live: &Live,
    i: usize,
    cross: u128,
    p: u32,
    table: &mut [Option<u8>],
    seats: &mut Seats,
    line: &mut [Place; MOST_REGISTERS],
) -> Step
    requires closed { IsClosedCode code.now }
    requires live { IsLiveOf code.now live.now }
    requires here { i < length code.now }
    requires crossing { IsSetOf (Crosses code.now i) cross }
    requires wishes { IsTable table.old }
    requires seats { AreSeats table.old seats.old }
    requires apart { HasWishes code.now p i table.old }
    ensures within { result.count ≤ MOST_REGISTERS }
    ensures wishes { IsTable table.new }
    ensures seats { AreSeats table.new seats.new }
    ensures apart { HasWishes code.now p (i + 1) table.new }
    ensures follows { Follows code.now p i table.old (record { places = take result.count line.new; write = result.write }) table.new }
    ensures stood { result.stood ≡ true → HadPlaces table.old (take result.count line.new) }
{
    let before = live.live_in(i as u32);
    let stay = survivors(code, live, i);
    let settled = settle(before, cross, p, *seats, table);
    let kept = Seats {
        held: before,
        own: stay,
        taken: places_within(before, settled.places, stay, table),
    };
    let written = writes(&code[i].instr);
    let write = write_place(written, kept, table);
    let count = write_entries(before, table, line);
    *seats = leave(table, kept, falls(code, i), written, write);
    Step {
        count,
        write,
        stood: settled.stood,
    }
}

/// The set of a row's places, and whether its registers stood.
#[derive(Clone, Copy)]
struct Settled {
    places: u128,
    stood: bool,
}

/// Makes the table of the wishes this row's, and gives the set of its places: where each register
/// can keep its place, only those of the others are taken out.
fn settle(before: u128, cross: u128, p: u32, seats: Seats, table: &mut [Option<u8>]) -> Settled
    requires wishes { IsTable table.old }
    requires seats { AreSeats table.old seats }
    requires crossing { (k : ℕ) → Contains (members 128 cross) k → Contains (members 128 before) k }
    ensures given { AreGiven p table.old (members 128 before) (members 128 cross) table.new }
    ensures table { IsTable table.new }
    ensures among { AreAmong table.new (members 128 before) }
    ensures places { ArePlacesOf (members 128 before) table.new result.places }
    ensures stood { result.stood ≡ true → AreKept table.old table.new (members 128 before) }
{
    if stands(before, cross, p, seats.own, table) {
        let places = places_within(seats.own, seats.taken, before, table);
        clear(seats.held & !before, table);
        Settled {
            places,
            stood: true,
        }
    } else {
        Settled {
            places: give_anew(before, cross, p, table),
            stood: false,
        }
    }
}

/// Gives all places of this row anew, by the wishes in the table, and gives the set of them.
fn give_anew(before: u128, cross: u128, p: u32, table: &mut [Option<u8>]) -> u128
    requires wishes { IsTable table.old }
    requires crossing { (k : ℕ) → Contains (members 128 cross) k → Contains (members 128 before) k }
    ensures given { AreGiven p table.old (members 128 before) (members 128 cross) table.new }
    ensures table { IsTable table.new }
    ensures among { AreAmong table.new (members 128 before) }
    ensures places { ArePlacesOf (members 128 before) table.new result }
{
    let mut places: [Option<u8>; MOST_REGISTERS] = [None; MOST_REGISTERS];
    let taken = give_places(before, cross, table, p, &mut places);
    table.copy_from_slice(&places);
    taken
}

/// Gives places to the registers that are live in, and gives the set of them: by their wishes, as
/// far as those are private where they must be and free, and else the least free ones.
fn give_places(
    before: u128,
    cross: u128,
    wishes: &[Option<u8>],
    p: u32,
    places: &mut [Option<u8>],
) -> u128
    requires wishes { IsTable wishes.now }
    requires none { places.old ≡ nothing }
    ensures given { AreGiven p wishes.now (members 128 before) (members 128 cross) places.new }
    ensures taken { IsTaken places.new result }
{
    let mut taken = 0;
    grant_below(cross, wishes, p, places, &mut taken);
    fill(cross, places, &mut taken);
    grant_free(before, wishes, places, &mut taken);
    fill(before, places, &mut taken);
    taken
}

/// The place of the write: the written register's own, if it has one in this row, else the least
/// that no survivor has.
fn write_place(written: Option<VReg>, stay: Seats, places: &[Option<u8>]) -> Option<u8>
    requires small { IsSmall written }
    requires table { IsTable places.now }
    requires taken { ArePlacesOf (members 128 stay.own) places.now stay.taken }
    ensures place { IsWritePlace (members 128 stay.own) places.now written result }
    ensures low { (x : ℕ) → result ≡ Some x → x < MOST_FILE }
{
    match written {
        Some(register) => Some(place_for(register, stay, places)),
        None => None,
    }
}

fn place_for(register: VReg, stay: Seats, places: &[Option<u8>]) -> u8
    requires small { register.0 < MOST_REGISTERS }
    requires table { IsTable places.now }
    requires taken { ArePlacesOf (members 128 stay.own) places.now stay.taken }
    ensures place { IsPlaceFor (members 128 stay.own) places.now (place_at places.now register.0) (Some result) }
    ensures low { result < MOST_FILE }
{
    match places[register.0 as usize] {
        Some(place) => place,
        None => least_free(stay.taken),
    }
}

/// Writes the entries of the row, the registers of the set with their places, to the beginning of
/// `line`, and gives how many there are. A push for each to a list takes longer.
fn write_entries(
    registers: u128,
    places: &[Option<u8>],
    line: &mut [Place; MOST_REGISTERS],
) -> usize
    requires table { IsTable places.now }
    ensures entries { take result line.new ≡ entries places.now (members 128 registers) }
    ensures within { result ≤ MOST_REGISTERS }
{
    let mut rest = registers;
    let mut count = 0;
    'registers: while let Some(register) = take_least(&mut rest) {
        let place = place_of(places[register.0 as usize]);
        line[count] = Place { register, place };
        count += 1;
    }
    count
}

fn place_of(place: Option<u8>) -> u8
    ensures { result ≡ place_or_zero place }
{
    match place {
        Some(place) => place,
        None => 0,
    }
}

/// Whether instruction `i` falls through to the next.
fn falls(code: &[Line], i: usize) -> bool
    requires closed { IsClosedCode code.now }
    requires here { i < length code.now }
    ensures { result ≡ falls_in i (slice_get code.now i) }
{
    successors(&code[i].instr, i as u32).fall.is_some()
}

/// Whether the instruction before `i` falls through to it.
pub fn falls_to(code: &[Line], i: usize) -> bool
    requires closed { IsClosedCode code.now }
    requires here { i < length code.now }
    ensures { (j : ℕ) → j + 1 ≡ i → result ≡ falls_in j (slice_get code.now j) }
{
    0 < i && falls(code, i - 1)
}

/// The wishes for the next row, and who has them: the places after this row, if it falls through,
/// and else none. The survivors and the written register have places of their own.
fn leave(
    table: &mut [Option<u8>],
    stay: Seats,
    falls: bool,
    written: Option<VReg>,
    write: Option<u8>,
) -> Seats
    requires table { IsTable table.old }
    requires seats { AreSeats table.old stay }
    requires small { IsSmall written }
    requires place { IsWritePlace (members 128 stay.own) table.old written write }
    requires low { (x : ℕ) → write ≡ Some x → x < MOST_FILE }
    requires alone { IsAlone table.old (members 128 stay.own) written }
    ensures left { table.new ≡ (if falls then put written write table.old else nothing) }
    ensures seats { AreSeats table.new result }
{
    if falls {
        put_write(table, written, write);
        let alone = register_set(written);
        Seats {
            held: stay.held | alone,
            own: stay.own | alone,
            taken: stay.taken | place_set(write),
        }
    } else {
        clear(stay.held, table);
        Seats {
            held: 0,
            own: 0,
            taken: 0,
        }
    }
}

fn put_write(table: &mut [Option<u8>], written: Option<VReg>, write: Option<u8>)
    requires table { IsTable table.old }
    requires small { IsSmall written }
    ensures { table.new ≡ put written write table.old }
{
    if let Some(register) = written {
        table[register.0 as usize] = write;
    }
}
