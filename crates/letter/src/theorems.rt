// The theorems about letters, each on the contract of a function, so that the check fails without its proof.
ghost use Rattle.letter.specs.Theorems.{LettersRight, NeverNothing, ValuesMultiply, OrderFree, PointsApart, Worked};

// After any deeds the letter that a desk keeps is its list's.
pub fn letters_are_right()
    ensures { LettersRight }
{}

// Values are never 0, multiply, and do not depend on the order of the numbers.
pub fn values_tell()
    ensures nonzero { NeverNothing }
    ensures products { ValuesMultiply }
    ensures order { OrderFree }
{}

// The points lie apart from each other and from every number that may come.
pub fn points_lie_apart()
    ensures { PointsApart }
{}

// Some values, worked out.
pub fn values_worked_out()
    ensures { Worked }
{}
