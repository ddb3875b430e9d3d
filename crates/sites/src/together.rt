// Two desks: a letter of the one is read at the other, which brings its list over.
ghost use Rattle.std.specs.Prelude.{◌≡◌};
ghost use Rattle.explain.specs.Promise.{BroughtTogetherParity};
ghost use Rattle.letter.specs.Desks.{desk_of, desk_size, UpToDate};
ghost use Rattle.sites.specs.Together.{TogetherSays, Truly};

use decode::{Difference, difference_beside};
use field::tally::Tally;
use letter::desks::Desk;
use letter::refusals::Refusal;
use std::alloc::Global;

// Makes a letter of m values at the desk there, reads it at the desk here with the allowance d, and brings the list here over:
// by the numbers that went from the list here and those that came, or not at all where more than d differ.
pub fn bring_together<const P: u64>(
    here: &mut Desk<P>,
    there: &Desk<P>,
    m: u64,
    d: u64,
    heap: Global,
) -> Result<Option<Difference>, Refusal>
    ensures says { TogetherSays P m d (desk_of there.now).list (desk_size there.now) (desk_of here.old) (desk_size here.old) (desk_of here.new) result }
    ensures truly { Truly P m d (desk_of there.now).list (desk_size there.now) (desk_of here.old) (desk_size here.old) (desk_of here.new) result }
    ensures size { desk_size here.new ≡ desk_size here.old }
    ensures right { UpToDate P (desk_size here.new) (desk_of here.new) }
    ensures promise { BroughtTogetherParity }
{
    let letter = there.letter(m)?;
    let Some(difference) = difference_beside(here, letter, d)? else {
        return Ok(None);
    };
    let mut tally = Tally::new();
    here.exchange(difference.gone(), difference.come(), &mut tally, heap)?;
    Ok(Some(difference))
}
