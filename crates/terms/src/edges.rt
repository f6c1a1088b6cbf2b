// The page's conditions at their edges. Nothing runs: as a promise it is asked for by every check.
ghost use Rattle.terms.specs.BandRows.{BandRows};

// R-7's.
pub fn levels_are_read()
    ensures { BandRows }
{}
