ghost use Rattle.cells.specs.Laws.{SameCells, SubsetNumber, OneMore, AgreeUnlessMet};

/// Laws of all sets of cells and all grids, for whoever reasons about them; it computes nothing.
pub fn cell_laws()
    ensures same { SameCells }
    ensures subset { SubsetNumber }
    ensures counted { OneMore }
    ensures unmet { AgreeUnlessMet }
{}
