//! Pins: clues that every reader gets unpaid, as a layer over any finder.
ghost use Rattle.std.specs.Prelude.{◌≡◌};
ghost use Rattle.cells.specs.Sets.{union};
ghost use Rattle.finder.specs.Meaning.{cell_count};
ghost use Rattle.finder.specs.Finding.{named, Answers, strip_after};
ghost use Rattle.finder.specs.Pinning.{pinned, pins_of};
ghost use Rattle.finder.specs.Lawful.{pinned_lawful};

use crate::finder::Finder;
use crate::found::Found;
use crate::questions::agrees;
use cells::CellSet;

/// A finder under pins: of the solutions below, those that agree with the given grid on the pinned cells.
#[derive(Drop)]
pub struct Pins<F> {
    below: F,
    pins: CellSet,
}

/// One layer with the pins of two, which leaves the same solutions.
fn one_layer<F: Finder>(below: F, outer: CellSet, inner: CellSet) -> Pins<F>
    ensures below { result.below ≡ below }
    ensures pins { result.pins ≡ union outer inner }
    ensures means { pinned result.pins (F.meaning result.below) ≡ pinned outer (pinned inner (F.meaning below)) }
{
    let pins = cells::union(outer, inner);
    Pins { below, pins }
}

impl<F: Finder> Pins<F> {
    /// The finder under the pins. A pin that is no cell of the grid is no pin.
    #[tactic(auto, using(crate::proofs::PinLaws::pinned_cut))]
    pub fn new(below: F, pins: CellSet) -> Pins<F>
        ensures below { result.below ≡ below }
        ensures pins { result.pins ≡ pins_of pins (F.meaning below) }
        ensures means { pinned result.pins (F.meaning result.below) ≡ pinned pins (F.meaning below) }
    {
        let pins = cells::intersection(pins, cells::all_below(below.count()));
        Pins { below, pins }
    }
}

impl<F: Finder> Pins<Pins<F>> {
    /// Two layers as one with the pins of both, which means the same.
    pub fn merged(self) -> Pins<F>
        ensures below { result.below ≡ self.below.below }
        ensures pins { result.pins ≡ union self.pins self.below.pins }
        ensures means { pinned result.pins (F.meaning result.below) ≡ pinned self.pins (pinned self.below.pins (F.meaning self.below.below)) }
    {
        let Pins { below: layer, pins } = self;
        let Pins { below, pins: inner } = layer;
        one_layer(below, pins, inner)
    }
}

impl<F: Finder> Finder for Pins<F> {
    ghost meaning = { λ p. pinned p.pins (F.meaning p.below) };

    ghost asked = { λ p clues answer q. F.asked p.below (union clues p.pins) answer q.below × (q.pins ≡ p.pins) };

    ghost lawful = { λ f. pinned_lawful (F.meaning f.below) f.pins (F.lawful f.below) };

    fn count(&self) -> usize {
        self.below.count()
    }

    fn value(&self, cell: usize) -> u8 {
        self.below.value(cell)
    }

    fn judge(&self, grid: &[u8]) -> bool {
        self.below.judge(grid) && agrees(&self.below, self.pins, grid)
    }

    /// Asks the finder below for a rival that agrees on the clues and on the pins.
    #[tactic(auto, using(crate::proofs::PinLaws::answers_pinned))]
    fn find(&mut self, clues: CellSet, strip: &mut [u8; 64], pad: &mut [u8; 64]) -> Found {
        self.below.find(cells::union(clues, self.pins), strip, pad)
    }
}
