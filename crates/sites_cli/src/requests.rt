// One request, and the line that answers it.
ghost use Rattle.std.specs.Prelude.{◌≡◌, [], IfOk, string_bytes};
ghost use Rattle.letter.specs.Desks.{deed_of};
ghost use Rattle.sites_cli.specs.Told.{Answered, AskTold, LetterTold, ListTold, OpenTold, PassTold, answer_text, deed_text, lists_in, way_of};

use field::modulus::{PRIME, prime_65537};
use field::tally::Tally;
use letter::desks::Deed;
use letter::refusals::Refusal;
use lines::{asked_line, list_line, opened_line, refusal_line, sent_line};
use script::{Request, Way as Said};
use sites::ladder::{Reading, Way};
use sites::network::Sites;
use std::alloc::{AllocError, Global};

// The sites that a script speaks of, none before they are opened, and the memory for them and for the lines.
#[derive(Drop)]
pub(crate) struct Console {
    heap: Global,
    sites: Option<Sites<PRIME>>,
}

// The line of a deed: done, or why not.
fn deed_line(heap: Global, done: Result<(), Refusal>) -> Result<String, AllocError>
    ensures { IfOk result (λ s. string_bytes s ≡ deed_text done) }
{
    match done {
        Ok(()) => String::from_str(heap, "done"),
        Err(refusal) => refusal_line(heap, refusal),
    }
}

// The line of what came of asking.
fn answer_line(heap: Global, answer: Result<Option<Reading>, Refusal>) -> Result<String, AllocError>
    ensures { IfOk result (λ s. string_bytes s ≡ answer_text answer) }
{
    match answer {
        Ok(Some(reading)) => {
            let gone = reading.difference.gone();
            let come = reading.difference.come();
            asked_line(heap, gone, come, reading.values, reading.sent)
        }
        Ok(None) => String::from_str(heap, "ask the valley"),
        Err(refusal) => refusal_line(heap, refusal),
    }
}

// Kept: a `From` between the two crates' enums could stand in neither crate unless the one stood on the other.
fn way_of(way: Said) -> Way
    ensures { result ≡ way_of way }
{
    match way {
        Said::Take => Way::Take,
        Said::Join => Way::Join,
    }
}

impl Console {
    // No sites are opened yet.
    pub(crate) fn new(heap: Global) -> Console
        ensures { lists_in result.sites ≡ [] }
    {
        Console { heap, sites: None }
    }

    // Opens n sites, in place of those that there were.
    fn open(&mut self, n: u64) -> Result<String, AllocError>
        ensures { IfOk result (λ s. OpenTold n (lists_in self.old.sites) (lists_in self.new.sites) (string_bytes s)) }
    {
        match Sites::open(prime_65537(), n, self.heap) {
            Ok(opened) => {
                self.sites = Some(opened);
                opened_line(self.heap, n)
            }
            Err(refusal) => refusal_line(self.heap, refusal),
        }
    }

    // A deed is done at site i: its number comes, or goes.
    fn does(&mut self, i: u64, deed: Deed) -> Result<String, AllocError>
        ensures { IfOk result (λ s. PassTold i (deed_of deed) (lists_in self.old.sites) (lists_in self.new.sites) (string_bytes s)) }
    {
        let Some(sites) = &mut self.sites else {
            return deed_line(self.heap, Err(Refusal::Site(i)));
        };
        let mut tally = Tally::new();
        let done = sites.does(i, deed, &mut tally);
        deed_line(self.heap, done)
    }

    // Site i asks site j.
    fn ask(&mut self, i: u64, j: u64, way: Way) -> Result<String, AllocError>
        ensures { IfOk result (λ s. AskTold i j way (lists_in self.old.sites) (lists_in self.new.sites) (string_bytes s)) }
    {
        let Some(sites) = &mut self.sites else {
            return answer_line(self.heap, Err(Refusal::Site(i)));
        };
        let answer = sites.ask(i, j, way, self.heap);
        answer_line(self.heap, answer)
    }

    // The list of site i.
    // Kept: the shape of `letter` too; with the call and its line as closures the two would be no shorter.
    fn list(&self, i: u64) -> Result<String, AllocError>
        ensures { IfOk result (λ s. ListTold i (lists_in self.now.sites) (string_bytes s)) }
    {
        let Some(sites) = &self.sites else {
            return refusal_line(self.heap, Refusal::Site(i));
        };
        match sites.list(i) {
            Ok(numbers) => list_line(self.heap, numbers),
            Err(refusal) => refusal_line(self.heap, refusal),
        }
    }

    // The letter of site i with m values.
    fn letter(&self, i: u64, m: u64) -> Result<String, AllocError>
        ensures { IfOk result (λ s. LetterTold i m (lists_in self.now.sites) (string_bytes s)) }
    {
        let Some(sites) = &self.sites else {
            return refusal_line(self.heap, Refusal::Site(i));
        };
        match sites.letter(i, m) {
            Ok(letter) => sent_line(self.heap, letter),
            Err(refusal) => refusal_line(self.heap, refusal),
        }
    }

    // Does what is asked, and gives the line that answers it.
    pub(crate) fn answer(&mut self, request: Request) -> Result<String, AllocError>
        ensures { IfOk result (λ s. Answered request (lists_in self.old.sites) (lists_in self.new.sites) (string_bytes s)) }
    {
        match request {
            Request::Open(n) => self.open(n),
            Request::Comes(i, n) => self.does(i, Deed::Comes(n)),
            Request::Goes(i, n) => self.does(i, Deed::Goes(n)),
            Request::Ask(i, j, way) => self.ask(i, j, way_of(way)),
            Request::List(i) => self.list(i),
            Request::Letter(i, m) => self.letter(i, m),
        }
    }
}
