ghost use Rattle.std.specs.Prelude.{◌≡◌, ◌<◌, ◌≤◌, nat_le, if◌then◌else◌, Some, None, length};
ghost use Rattle.std.specs.List.{All, find};
ghost use Rattle.flow_graph.specs.Paths.{IsClosedCode};
ghost use Rattle.liveness.specs.Lives.{IsLiveOf};
ghost use Rattle.plan.specs.Faults.{IsListing, IsPlacingChecked, IsOutChecked, IsWriteOut, IsWrittenPlace, IsPairChecked, IsOverwriteChecked, IsExposedChecked};
ghost use Rattle.plan.specs.Finding.{is_beyond, is_at, pair_or, lesser_place, Rises};

use crate::fault::PlanFault;
use crate::row::Place;
use liveness::{Live, crossing, has, survivors};
use micro_isa::{Line, MOST_FILE, VReg, writes};

/// Places of the file, by their numbers.
const PLACES: usize = MOST_FILE as usize;

/// Whether the places of the row of instruction `i` are in range, apart and private as they must be;
/// else what is wrong first.
#[tactic(auto, using(crate::proofs::Places::placing_is))]
pub fn check_placing(
    code: &[Line],
    live: &Live,
    i: usize,
    places: &[Place],
    write: Option<u8>,
    p: u32,
    r: u32,
) -> Result<(), PlanFault>
    requires closed { IsClosedCode code.now }
    requires live { IsLiveOf code.now live.now }
    requires here { i < length code.now }
    requires few { r ≤ MOST_FILE }
    requires listing { IsListing code.now i places.now write }
    ensures { IsPlacingChecked code.now p r i places.now write result }
{
    let at = i as u32;
    if let Some(out) = first_out(code, live, i, places, write, r) {
        return Err(PlanFault::Range {
            at,
            register: out.register,
            place: out.place,
        });
    }
    if let Some((first, second)) = first_pair(places) {
        return Err(PlanFault::Twice {
            at,
            first: first.register,
            second: second.register,
            place: first.place,
        });
    }
    if let Some((first, second)) = first_overwritten(code, live, i, places, write) {
        return Err(PlanFault::Twice {
            at,
            first: first.register,
            second,
            place: first.place,
        });
    }
    if let Some(exposed) = first_exposed(code, live, i, places, write, p) {
        return Err(PlanFault::Crossing {
            at,
            register: exposed.register,
            place: exposed.place,
        });
    }
    Ok(())
}

/// The least register with a place that is not below `r`, and that place.
fn first_out(
    code: &[Line],
    live: &Live,
    i: usize,
    places: &[Place],
    write: Option<u8>,
    r: u32,
) -> Option<Place>
    requires closed { IsClosedCode code.now }
    requires live { IsLiveOf code.now live.now }
    requires here { i < length code.now }
    requires listing { IsListing code.now i places.now write }
    ensures { IsOutChecked code.now r i places.now write result }
{
    let listed = first_beyond(places, live.live_in(i as u32), r);
    let written = write_beyond(code, i, write, r);
    lesser(listed, written)
}

/// The first entry whose register is of the set and whose place is not below the bound.
fn first_beyond(places: &[Place], set: u128, bound: u32) -> Option<Place>
    requires { All (λ q. q.register.0 < 128) places.now }
    ensures { result ≡ find (is_beyond set bound) places.now }
{
    'entries: for entry in places {
        if has(set, entry.register) && bound <= u32::from(entry.place) {
            return Some(*entry);
        }
    }
    None
}

/// The written register of instruction `i` with its place, if that is not below `r`.
fn write_beyond(code: &[Line], i: usize, write: Option<u8>, r: u32) -> Option<Place>
    requires here { i < length code.now }
    ensures { IsWriteOut code.now r i write result }
{
    match written_place(code, i, write) {
        Some(written) => not_below(written, r),
        None => None,
    }
}

fn not_below(entry: Place, bound: u32) -> Option<Place>
    ensures { result ≡ (if nat_le bound entry.place then Some entry else None) }
{
    if bound <= u32::from(entry.place) {
        Some(entry)
    } else {
        None
    }
}

/// The written register of instruction `i` with its place, if there are both.
fn written_place(code: &[Line], i: usize, write: Option<u8>) -> Option<Place>
    requires here { i < length code.now }
    ensures { IsWrittenPlace code.now i write result }
{
    match (writes(&code[i].instr), write) {
        (Some(register), Some(place)) => Some(Place { register, place }),
        _ => None,
    }
}

fn lesser(listed: Option<Place>, written: Option<Place>) -> Option<Place>
    ensures { result ≡ lesser_place listed written }
{
    let Some(first) = listed else {
        return written;
    };
    match written {
        Some(second) if second.register.0 < first.register.0 => Some(second),
        _ => Some(first),
    }
}

/// The first entry that has a later one at its place, and the first of these. One pass from the end:
/// the later ones stand by their places.
fn first_pair(places: &[Place]) -> Option<(Place, Place)>
    requires low { All (λ q. q.place < MOST_FILE) places.now }
    requires rises { Rises places.now }
    ensures { IsPairChecked places.now result }
{
    let mut holders: [Option<Place>; PLACES] = [None; PLACES];
    let mut pair = None;
    let mut at = places.len();
    'entries: while at > 0 {
        at -= 1;
        let entry = places[at];
        let place = entry.place as usize;
        pair = paired(entry, holders[place], pair);
        holders[place] = Some(entry);
    }
    pair
}

fn paired(
    entry: Place,
    other: Option<Place>,
    later: Option<(Place, Place)>,
) -> Option<(Place, Place)>
    ensures { result ≡ pair_or entry other later }
{
    match other {
        Some(other) => Some((entry, other)),
        None => later,
    }
}

/// The least survivor of instruction `i` that has the place of its write, and the written register.
fn first_overwritten(
    code: &[Line],
    live: &Live,
    i: usize,
    places: &[Place],
    write: Option<u8>,
) -> Option<(Place, VReg)>
    requires closed { IsClosedCode code.now }
    requires live { IsLiveOf code.now live.now }
    requires here { i < length code.now }
    requires listing { IsListing code.now i places.now write }
    ensures { IsOverwriteChecked code.now i places.now write result }
{
    let Some(written) = written_place(code, i, write) else {
        return None;
    };
    match first_at(places, survivors(code, live, i), written.place) {
        Some(first) => Some((first, written.register)),
        None => None,
    }
}

/// The first entry whose register is of the set and that has the place.
fn first_at(places: &[Place], set: u128, place: u8) -> Option<Place>
    requires { All (λ q. q.register.0 < 128) places.now }
    ensures { result ≡ find (is_at set place) places.now }
{
    'entries: for entry in places {
        if has(set, entry.register) && entry.place == place {
            return Some(*entry);
        }
    }
    None
}

/// The least register that crosses at instruction `i` and has no private place.
fn first_exposed(
    code: &[Line],
    live: &Live,
    i: usize,
    places: &[Place],
    write: Option<u8>,
    p: u32,
) -> Option<Place>
    requires closed { IsClosedCode code.now }
    requires live { IsLiveOf code.now live.now }
    requires here { i < length code.now }
    requires listing { IsListing code.now i places.now write }
    ensures { IsExposedChecked code.now p i places.now result }
{
    first_beyond(places, crossing(code, live, i), p)
}
