ghost use Rattle.std.specs.Prelude.{◌≡◌, not, [], ◌∷◌, if◌then◌else◌, Some, None};
ghost use Rattle.cells.specs.Sets.{has};
ghost use Rattle.finder.specs.InTurn.{in_turn, in_turn_lawful};

use crate::{Finder, Found, Pins, admits_only, can_spare};
use cells::CellSet;

/// A grid of one cell, whose value is 0; 1 and 2 are the rivals. It remembers which it named, to name the other next.
#[derive(Drop)]
struct InTurn {
    second: bool,
}

impl Finder for InTurn {
    ghost meaning = { λ _. in_turn };

    ghost asked = { λ f clues answer after.
        (answer ≡ (if has clues 0 then None else Some ((if f.second then 2 else 1) ∷ []))) × (after.second ≡ (if has clues 0 then f.second else not f.second)) };

    ghost lawful = { λ _. in_turn_lawful };

    fn count(&self) -> usize {
        1
    }

    fn value(&self, _cell: usize) -> u8 {
        0
    }

    fn judge(&self, grid: &[u8]) -> bool {
        grid.len() == 1 && grid[0] < 3
    }

    fn find(&mut self, clues: CellSet, strip: &mut [u8; 64], _pad: &mut [u8; 64]) -> Found {
        if cells::has(clues, 0) {
            return Found::NoRival;
        }
        let value = if self.second { 2 } else { 1 };
        self.second = !self.second;
        cells::put_in_strip(&[value], strip);
        Found::Rival
    }
}

/// The value that the finder names in its first cell, or 9 where it names none.
fn named<F: Finder>(finder: &mut F, clues: CellSet) -> u8 {
    let mut strip = [9; 64];
    let _ = finder.find(clues, &mut strip, &mut [7; 64]);
    strip[0]
}

#[test]
fn remembers(rt: HostRuntime) {
    let mut finder = InTurn { second: false };
    assert_eq!(rt; named(&mut finder, 0), 1);
    assert_eq!(rt; named(&mut finder, 0), 2);
    assert_eq!(rt; named(&mut finder, 1), 9);
    assert_eq!(rt; named(&mut finder, 2), 1);
    assert!(rt; !admits_only(&mut finder, 0) && admits_only(&mut finder, 1));
    assert!(rt; can_spare(&mut finder, 3, 1) && !can_spare(&mut finder, 3, 0));
    assert!(rt; !can_spare(&mut finder, 3, 2));
    assert_eq!(rt; named(&mut finder, 0), 2);
}

#[test]
fn pins_over_a_memory(rt: HostRuntime) {
    let mut finder = Pins::new(Pins::new(InTurn { second: false }, 2), 4);
    assert_eq!(rt; named(&mut finder, 0), 1);
    assert_eq!(rt; named(&mut finder, 0), 2);
    let mut finder = Pins::new(finder.merged(), 1);
    assert_eq!(rt; named(&mut finder, 0), 9);
    assert!(rt; finder.judge(&[0]) && !finder.judge(&[1]));
}
