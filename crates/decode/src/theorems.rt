// Readings worked out, as theorems about the definitions that the reader's contract uses.
ghost use Rattle.decode.specs.Worked.{Readings};

pub fn readings_worked_out()
    ensures { Readings }
{}
