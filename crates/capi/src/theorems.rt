// The theorem about answers, on the contract of a function, so that the check fails without its proof.
ghost use Rattle.capi.specs.Answers.{CodesDiffer};

// Different answers have different numbers.
pub fn answers_differ()
    ensures { CodesDiffer }
{}
