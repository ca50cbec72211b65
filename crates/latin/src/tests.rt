use crate::{Found, Latin};
use cells::{CellSet, Refusal, all_below, difference, with};
use finder::{Finder, Pins, admits_only};
use std::test::Fail;

/// A search with a used pad, and the strip that it left.
fn search(size: usize, grid: &[u8], clues: CellSet) -> Result<(Found, [u8; 64]), Refusal> {
    let puzzle = Latin::new(size, grid)?;
    let mut strip = [9; 64];
    let mut pad = [7; 64];
    let found = puzzle.find(clues, &mut strip, &mut pad);
    Ok((found, strip))
}

/// The number by which a puzzle is refused.
fn refusal(size: usize, grid: &[u8]) -> Option<u8> {
    Latin::new(size, grid).err().map(|refusal| refusal.number())
}

#[test]
fn one_cell_has_no_rival(rt: HostRuntime) -> Result<(), Fail> {
    let (found, strip) = search(1, &[1], 0)?;
    assert_eq!(rt; found, Found::NoRival);
    assert_eq!(rt; strip[0], 9);
    Ok(())
}

#[test]
fn size_two_has_one_rival(rt: HostRuntime) -> Result<(), Fail> {
    let given = [1, 2, 2, 1];
    let (found, strip) = search(2, &given, 0)?;
    assert_eq!(rt; found, Found::Rival);
    assert!(rt; strip[0..5] == [2, 1, 1, 2, 9]);
    assert_eq!(rt; difference(&given, &strip[0..4]), 15);
    Ok(())
}

#[test]
fn two_clues_of_size_three(rt: HostRuntime) -> Result<(), Fail> {
    let given = [1, 2, 3, 2, 3, 1, 3, 1, 2];
    let (found, _) = search(3, &given, with(with(0, 2), 3))?;
    assert_eq!(rt; found, Found::NoRival);
    let (found, strip) = search(3, &given, with(with(0, 1), 3))?;
    assert_eq!(rt; found, Found::Rival);
    assert!(rt; strip[0..9] == [3, 2, 1, 2, 1, 3, 1, 3, 2]);
    Ok(())
}

#[test]
fn pins_over_pins(rt: HostRuntime) -> Result<(), Fail> {
    let given = [1, 2, 3, 2, 3, 1, 3, 1, 2];
    let rival = [3, 2, 1, 2, 1, 3, 1, 3, 2];
    let mut pinned = Pins::new(Pins::new(Latin::new(3, &given)?, with(0, 2)), with(0, 3));
    assert!(rt; admits_only(&mut pinned, 0) && pinned.judge(&given) && !pinned.judge(&rival));
    let mut pinned = Pins::new(Pins::new(Latin::new(3, &given)?, with(0, 1)), with(0, 9));
    assert!(rt; !admits_only(&mut pinned, with(0, 3)) && pinned.judge(&rival));
    let mut strip = [9; 64];
    assert_eq!(rt;
        pinned.merged().find(with(0, 3), &mut strip, &mut [7; 64]),
        Found::Rival
    );
    assert!(rt; &strip[0..9] == rival.as_slice());
    Ok(())
}

#[test]
fn size_six_without_clues(rt: HostRuntime) -> Result<(), Fail> {
    let given = [
        6, 5, 4, 3, 2, 1, 5, 6, 3, 4, 1, 2, 4, 3, 2, 1, 6, 5, 3, 4, 1, 2, 5, 6, 2, 1, 6, 5, 4, 3,
        1, 2, 5, 6, 3, 4,
    ];
    let puzzle = Latin::new(6, &given)?;
    let (found, strip) = search(6, &given, 0)?;
    assert_eq!(rt; found, Found::Rival);
    assert!(rt; puzzle.judge(&strip[0..36]) && !puzzle.judge(&strip[0..35]));
    let (found, _) = search(6, &given, all_below(36))?;
    assert_eq!(rt; found, Found::NoRival);
    Ok(())
}

#[test]
fn each_refusal(rt: HostRuntime) {
    assert_eq!(rt; refusal(0, &[]), Some(12));
    assert_eq!(rt; refusal(7, &[1]), Some(12));
    assert_eq!(rt; refusal(2, &[1, 2, 2]), Some(11));
    assert_eq!(rt; refusal(2, &[1, 2, 1, 2]), Some(15));
    assert_eq!(rt; refusal(2, &[1, 2, 2, 3]), Some(15));
}
