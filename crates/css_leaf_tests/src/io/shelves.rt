//! Tests of the shelves.

use crate::checks::{check, check_row};
use css_io::{FileShelf, MemShelf, Shelf, ShelfFault, SureShelf};
use std::alloc::{AllocError, Global};
use std::fs;
use std::test::Fail;

/// A name, a limit, and the bytes that come for them, or none where the shelf fails.
type Row = (&'static str, usize, Option<&'static [u8]>);

static IN_MEMORY: [Row; 7] = [
    ("one", 9, Some(b"first")),
    ("one", 5, Some(b"first")),
    ("one", 4, Some(b"firs")),
    ("one", 0, Some(b"")),
    ("two", 9, Some(b"second")),
    ("three", 9, None),
    ("", 9, None),
];

#[test]
fn a_shelf_in_memory_gives_the_first_file_of_a_name(rt: HostRuntime) -> Result<(), AllocError> {
    let alloc = rt.alloc();
    let mut shelf = MemShelf::new(files(alloc)?, Vec::new(alloc));
    for (row, (name, limit, want)) in IN_MEMORY.iter().enumerate() {
        let is_right = is_file(&mut shelf, alloc, name, *limit, *want);
        check_row(&rt, row, is_right);
    }
    Ok(())
}

/// Whether a shelf that fails at one of four calls does so, and gives its file at the others.
fn fails_at(alloc: Global, failing: u64) -> Result<bool, AllocError> {
    let mut shelf = MemShelf::new(files(alloc)?, vec![in alloc; failing]?);
    let mut right = true;
    for call in 0..4 {
        let want = if call == failing {
            None
        } else {
            Some(b"second".as_slice())
        };
        right = is_file(&mut shelf, alloc, "two", 6, want) && right;
    }
    Ok(right)
}

#[test]
fn a_shelf_in_memory_fails_at_the_calls_it_is_told(rt: HostRuntime) -> Result<(), AllocError> {
    for failing in 0..4 {
        check_row(&rt, failing, fails_at(rt.alloc(), failing as u64)?);
    }
    Ok(())
}

#[test]
fn a_sure_shelf_gives_its_file_for_every_name(rt: HostRuntime) -> Result<(), AllocError> {
    let alloc = rt.alloc();
    let mut shelf = SureShelf::new(b"first".to_vec(alloc)?);
    let is_one = is_file(&mut shelf, alloc, "one", 9, Some(b"first".as_slice()));
    check(&rt, "one", is_one);
    let is_two = is_file(&mut shelf, alloc, "two", 3, Some(b"fir".as_slice()));
    check(&rt, "two", is_two);
    Ok(())
}

static OF_THE_SYSTEM: [Row; 6] = [
    ("css_io_shelf_test", 9, Some(b"first")),
    ("css_io_shelf_test", 5, Some(b"first")),
    ("css_io_shelf_test", 4, Some(b"firs")),
    ("css_io_shelf_test", 0, Some(b"")),
    ("css_io_no_such_file", 9, None),
    (".", 9, None),
];

#[test]
fn the_files_of_the_system_are_read(rt: HostRuntime) -> Result<(), Fail> {
    fs::write(&rt, "css_io_shelf_test", b"first".as_slice())?;
    let mut shelf = FileShelf::new(rt.clone()?);
    for (row, (name, limit, want)) in OF_THE_SYSTEM.iter().enumerate() {
        let is_right = is_file(&mut shelf, rt.alloc(), name, *limit, *want);
        check_row(&rt, row, is_right);
    }
    fs::remove_file(&rt, "css_io_shelf_test")?;
    Ok(())
}

/// 200,000 bytes, which don't repeat at a power of two.
fn long_bytes(alloc: Global) -> Result<Vec<u8>, AllocError> {
    let mut bytes = Vec::new(alloc);
    for at in 0..200_000u32 {
        bytes.push((at % 251) as u8)?;
    }
    Ok(bytes)
}

#[test]
fn a_long_file_of_the_system_is_read_in_order(rt: HostRuntime) -> Result<(), Fail> {
    let name = "css_io_long_shelf_test";
    let mut bytes = long_bytes(rt.alloc())?;
    fs::write(&rt, name, bytes.as_slice())?;
    let mut shelf = FileShelf::new(rt.clone()?);
    let is_whole = is_file(&mut shelf, rt.alloc(), name, 1_000_000, Some(&bytes));
    check(&rt, "whole", is_whole);
    bytes.truncate(100_000);
    let is_half = is_file(&mut shelf, rt.alloc(), name, 100_000, Some(&bytes));
    check(&rt, "half", is_half);
    fs::remove_file(&rt, name)?;
    Ok(())
}

/// Whether a shelf gives these bytes for a name, or fails where there are none.
fn is_file<S: Shelf>(
    shelf: &mut S,
    alloc: Global,
    name: &str,
    limit: usize,
    want: Option<&[u8]>,
) -> bool {
    match (shelf.read_file(alloc, name, limit), want) {
        (Ok(bytes), Some(want)) => bytes.as_slice() == want,
        (Err(fault), None) => fault == ShelfFault::Failed,
        _ => false,
    }
}

/// Three files, two of one name.
fn files(alloc: Global) -> Result<Vec<(String, Vec<u8>)>, AllocError> {
    let mut files = Vec::new(alloc);
    for (name, bytes) in [
        ("one", b"first".as_slice()),
        ("two", b"second".as_slice()),
        ("one", b"third".as_slice()),
    ] {
        files.push((String::from_str(alloc, name)?, bytes.to_vec(alloc)?))?;
    }
    Ok(files)
}
