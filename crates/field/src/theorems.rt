// The theorems that crates above import, each on the contract of a function, so that the check fails without its proof.
ghost use Rattle.field.specs.Theorems.{Fermat, UndoInverse, Euclid, RootBound, MonicAgreement, ZeroAtMembers, Pigeonhole};

// Products modulo a prime can be undone.
pub fn products_can_be_undone()
    ensures euclid { Euclid }
    ensures fermat { Fermat }
    ensures undoing { UndoInverse }
{}

// A polynomial is known from its values at as many points as it has coefficients.
pub fn polynomials_are_known_by_values()
    ensures roots { RootBound }
    ensures monic { MonicAgreement }
    ensures members { ZeroAtMembers }
{}

// More numbers than holes: two share one.
pub fn two_share_a_hole()
    ensures { Pigeonhole }
{}
