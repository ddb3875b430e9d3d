// One site asks another one.
ghost use Rattle.std.specs.Prelude.{◌≡◌};
ghost use Rattle.sites.specs.Asking.{AskSays, AskTruly};
ghost use Rattle.sites.specs.Network.{Right, lists_of};

use crate::ladder::{Reading, Way};
use crate::network::Sites;
use letter::refusals::Refusal;
use std::alloc::Global;

impl<const P: u64> Sites<P> {
    // Site i asks site j for letters until one can be read, and takes the list of site j for its own or puts both together.
    // None is told where more differ than the longest letter can tell.
    pub fn ask(
        &mut self,
        i: u64,
        j: u64,
        way: Way,
        heap: Global,
    ) -> Result<Option<Reading>, Refusal>
        ensures says { AskSays P i j way (lists_of self.old) (lists_of self.new) result }
        ensures truly { AskTruly P i j way (lists_of self.old) (lists_of self.new) result }
        ensures right { Right self.new }
    {
        let here = self.site(i)?;
        let there = self.site(j)?;
        if i == j {
            return Err(Refusal::Site(j));
        }
        let Some(reading) = here.climb(there) else {
            return Ok(None);
        };
        self.sites[i as usize].take_up(reading.difference, way, heap)?;
        Ok(Some(reading))
    }
}
