//! Laws of expressions, each the contract of a function that does nothing.
ghost use Rattle.bm_expr.specs.Fits.{FitsMore, TruthFitsMore};
ghost use Rattle.bm_expr.specs.Whole.{ValueIsLowest, SettledIsWhole, TruthIsWhole};

/// Where the operands within a number are settled, its value is the lowest 128 bits of that over whole numbers.
pub fn value_is_lowest()
    ensures { ValueIsLowest }
{}

/// Where the number is settled too, its value is that over whole numbers.
pub fn settled_is_whole()
    ensures { SettledIsWhole }
{}

/// Where the operands within a truth value are settled, it holds as it does over whole numbers.
pub fn truth_is_whole()
    ensures { TruthIsWhole }
{}

/// A number that fits a program fits each one with more.
pub fn fits_more()
    ensures { FitsMore }
{}

/// A truth value that fits a program fits each one with more.
pub fn truth_fits_more()
    ensures { TruthFitsMore }
{}
