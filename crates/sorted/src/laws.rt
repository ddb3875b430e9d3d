// The laws of lists by rising number. A call of one of these functions does nothing, and hands its caller the law.
ghost use Rattle.sorted.specs.Theorems.{DifferencesDo, Laws, SameMembers, Triangle};

// What differs, taken out and put in, makes one list of the other.
pub fn differences_do()
    ensures { DifferencesDo }
{}

// From one list to another it is no further than by way of a third.
pub fn triangle()
    ensures { Triangle }
{}

// Two rising lists with the same members are equal.
pub fn same_members()
    ensures { SameMembers }
{}

// Members, order and size after an insertion, a removal, a difference and a union, and how far lists are apart.
pub fn all()
    ensures { Laws }
{}
