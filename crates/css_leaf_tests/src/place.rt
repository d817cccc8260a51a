ghost use Rattle.std.specs.Prelude.{◌≡◌, ◌≤◌, ◌%◌};

use crate::checks::{check, check_row};
use css_place::{Place, Placer};
use std::alloc::{AllocError, Global};
use std::marker::Model;
use std::process::Abort;

/// A placer, and the places that are out of it in the order in which they came.
#[derive(Drop)]
struct Holder {
    placer: Placer,
    places: Vec<Place>,
}

impl Model for Holder {
    ghost use Rattle.std.specs.Prelude.{All, AllPairs, Contains, ◌≢◌};
    ghost use Rattle.css_place.specs.Places.{Store};

    ghost Value = { Store };

    ghost view = { λ holder. holder.placer };

    ghost invariant = { λ holder. All (Contains holder.placer.out) holder.places.items
        × AllPairs (λ s t. s ≢ t) holder.places.items };
}

impl Holder {
    fn new(alloc: Global, size: u32) -> Holder
        requires { size % 128 ≡ 0 }
    {
        Holder {
            placer: Placer::new(size),
            places: Vec::new(alloc),
        }
    }

    // Places so many bytes; gives start and length, or none where the placer is full.
    fn place(&mut self, length: u32) -> Result<Option<(u32, u32)>, AllocError>
        requires { 1 ≤ length }
    {
        self.places.reserve(1)?;
        let Ok(place) = self.placer.place(length) else {
            return Ok(None);
        };
        let at = (place.start(), place.length());
        self.placer.placed();
        self.places.push_reserved(place);
        Ok(Some(at))
    }

    // How many places are out.
    fn count(&self) -> usize {
        self.places.len()
    }

    // Releases the place with that number; gives its start and length, if there is one.
    fn release(&mut self, number: usize) -> Option<(u32, u32)> {
        if number >= self.places.len() {
            return None;
        }
        let place = self.places.remove(number);
        let at = (place.start(), place.length());
        self.placer.release(place);
        Some(at)
    }
}

// The worked row of a store of 1,024 bytes.
#[test]
fn first_fit(rt: HostRuntime) -> Result<(), AllocError> {
    let mut holder = Holder::new(rt.alloc(), 1024);
    check(&rt, "100", holder.place(100)? == Some((0, 128)));
    check(&rt, "200", holder.place(200)? == Some((128, 256)));
    check(&rt, "back", holder.release(0) == Some((0, 128)));
    check(&rt, "129", holder.place(129)? == Some((384, 256)));
    check(&rt, "1", holder.place(1)? == Some((0, 128)));
    check(&rt, "400", holder.place(400)?.is_none());
    Ok(())
}

// Of 96 places none is free, whatever room is left; one that was released is placed again.
#[test]
fn ninety_six_places(rt: HostRuntime) -> Result<(), AllocError> {
    let mut holder = Holder::new(rt.alloc(), 1_032_192);
    for number in 0..96u32 {
        let place = holder.place(128)?;
        check_row(&rt, number as usize, place == Some((128 * number, 128)));
    }
    check(&rt, "97th", holder.place(1)?.is_none());
    check(&rt, "back", holder.release(5) == Some((640, 128)));
    check(&rt, "129", holder.place(129)? == Some((12_288, 256)));
    check(&rt, "97th again", holder.place(1)?.is_none());
    Ok(())
}

/// A size, a length, and the place that it gets.
type Row = (u32, u32, Option<(u32, u32)>);

static ALONE: [Row; 8] = [
    (1024, 1024, Some((0, 1024))),
    (1024, 897, Some((0, 1024))),
    (1024, 1025, None),
    (0, 1, None),
    (128, 128, Some((0, 128))),
    (4_294_967_168, 4_294_967_168, Some((0, 4_294_967_168))),
    (4_294_967_168, 4_294_967_169, None),
    (4_294_967_168, 4_294_967_295, None),
];

// Holes that are just large enough, and lengths that no store holds.
#[test]
fn lengths(rt: HostRuntime) -> Result<(), AllocError> {
    for (row, (size, length, want)) in ALONE.iter().enumerate() {
        check_row(&rt, row, placed_alone(rt.alloc(), *size, *length)? == *want);
    }
    Ok(())
}

// The place of a length in a store with no other.
fn placed_alone(alloc: Global, size: u32, length: u32) -> Result<Option<(u32, u32)>, AllocError> {
    if size % 128 != 0 || length == 0 {
        return Ok(None);
    }
    Holder::new(alloc, size).place(length)
}

/// The size of the store of the random calls.
const SIZE: u32 = 16_384;

// The next of some pseudo-random numbers, whose high bits are the better ones.
fn next(number: u32) -> u32 {
    number.wrapping_mul(1_664_525).wrapping_add(1_013_904_223)
}

// Where the first so many free addresses in a row begin.
fn first_free(free: &[bool], bytes: u32) -> Option<u32> {
    let mut end = 0u32;
    let mut run = 0u32;
    for is_free in free {
        end = end.wrapping_add(1);
        run = if *is_free { run.wrapping_add(1) } else { 0 };
        if run == bytes {
            return Some(end.wrapping_sub(run));
        }
    }
    None
}

// Makes the addresses of a place free, or takes them.
fn set_free(free: &mut [bool], place: (u32, u32), value: bool) {
    for address in place.0..place.0.saturating_add(place.1) {
        if (address as usize) < free.len() {
            free[address as usize] = value;
        }
    }
}

// Places a length, and compares with the list of free addresses. Gives whether it was placed.
fn place_and_compare(
    rt: &impl Abort,
    holder: &mut Holder,
    free: &mut [bool],
    length: u32,
) -> Result<bool, AllocError>
    requires { 1 ≤ length }
{
    let bytes = length.div_ceil(128).saturating_mul(128);
    let start = if holder.count() == 96 {
        None
    } else {
        first_free(free, bytes)
    };
    let Some((at, long)) = holder.place(length)? else {
        check_row(rt, length as usize, start.is_none());
        return Ok(false);
    };
    check_row(rt, length as usize, start == Some(at) && long == bytes);
    set_free(free, (at, long), false);
    Ok(true)
}

// Random calls do what a list of free addresses says. Stages in which places are mostly made and mostly released take
// turns, with long places and with short ones.
#[test]
fn random_calls(rt: HostRuntime) -> Result<(), AllocError> {
    let mut holder = Holder::new(rt.alloc(), SIZE);
    let mut free = vec![in rt.alloc(); true; SIZE as usize]?;
    let (mut number, mut placed, mut full, mut most) = (1, 0u32, 0u32, 0);
    for step in 0..4000u32 {
        let stage = step / 250 % 4;
        let choice = next(number);
        number = next(choice);
        let longest = if stage < 2 { 2048 } else { 128 };
        if (choice >> 30 == 0) == (stage % 2 == 0) {
            let which = (number >> 8) as usize % holder.count().max(1);
            if let Some(place) = holder.release(which) {
                set_free(free.as_mut_slice(), place, true);
            }
        } else if place_and_compare(
            &rt,
            &mut holder,
            free.as_mut_slice(),
            1 + (number >> 16) % longest,
        )? {
            placed = placed.saturating_add(1);
        } else {
            full = full.saturating_add(1);
        }
        most = most.max(holder.count());
    }
    check(&rt, "placed", placed > 1000);
    check(&rt, "full", full > 300);
    check(&rt, "most", most == 96);
    Ok(())
}
