// Requests to sites, one to a line of text.
#![tactic(auto)]

ghost use Rattle.std.specs.Prelude.{◌≡◌, ℕ, List, [], ◌∷◌, decimal, MatchOption, ◌≢◌};
ghost use Rattle.script.specs.Arguments.{FitBoth, FitTwo, pair, pair_and_way, single};
ghost use Rattle.script.specs.Reads.{Any, Fits, Reads};
ghost use Rattle.script.specs.Requests.{InRange, Understood, way_word, words_of};
ghost use Rattle.script.specs.Words.{words};

use numbers::number;
use words::split_word;

mod numbers;
mod words;

// What a site that asks does with the list that it learns of.
#[derive(Clone, Copy, PartialEq, Eq, Debug)]
pub enum Way {
    // It takes that list for its own.
    Take,
    // It puts both lists together.
    Join,
}

#[derive(Clone, Copy, PartialEq, Eq, Debug)]
pub enum Request {
    // Open so many sites.
    Open(u64),
    // At a site a number comes.
    Comes(u64, u64),
    // At a site a number goes.
    Goes(u64, u64),
    // A site asks another.
    Ask(u64, u64, Way),
    // Print the list of a site.
    List(u64),
    // Print the letter of a site, with so many values.
    Letter(u64, u64),
}

fn way_of(word: &[u8]) -> Option<Way>
    ensures { Reads Any way_word word.now result }
{
    match word {
        b"take" => Some(Way::Take),
        b"join" => Some(Way::Join),
        _ => None,
    }
}

// The word that is all of a text.
fn one_word(text: &[u8]) -> Option<&[u8]>
    ensures { MatchOption result ((w : List ℕ) → words text.now ≢ w ∷ []) (λ w. words text.now ≡ w.now ∷ []) }
{
    let (word, rest) = split_word(text)?;
    split_word(rest).is_none().then_some(word)
}

// The number that is the first word of a text, and what is left after it.
fn split_number(text: &[u8]) -> Option<(u64, &[u8])>
    ensures { MatchOption result ((n : ℕ) (ws : List (List ℕ)) → Fits n → words text.now ≢ decimal n ∷ ws) (λ p. Fits p.0 × (words text.now ≡ decimal p.0 ∷ words p.1.now)) }
{
    let (word, rest) = split_word(text)?;
    Some((number(word)?, rest))
}

// The number that is all of a text.
// Kept: beside `one_word`, since the number is read before what follows it is looked for: a word that is none ends it.
fn one_number(text: &[u8]) -> Option<u64>
    ensures { Reads Fits single (words text.now) result }
{
    let (n, rest) = split_number(text)?;
    split_word(rest).is_none().then_some(n)
}

// The two numbers that are all of a text.
fn two_numbers(text: &[u8]) -> Option<(u64, u64)>
    ensures { Reads FitBoth pair (words text.now) result }
{
    let (first, rest) = split_number(text)?;
    let second = one_number(rest)?;
    Some((first, second))
}

// The two numbers and the way that are all of a text.
fn two_numbers_way(text: &[u8]) -> Option<(u64, u64, Way)>
    ensures { Reads FitTwo pair_and_way (words text.now) result }
{
    let (first, rest) = split_number(text)?;
    let (second, rest) = split_number(rest)?;
    let way = way_of(one_word(rest)?)?;
    Some((first, second, way))
}

// The request that a word and the text after it say.
fn request_of(verb: &[u8], text: &[u8]) -> Option<Request>
    ensures { Reads InRange words_of (verb.now ∷ words text.now) result }
{
    match verb {
        b"open" => one_number(text).map(Request::Open),
        b"comes" => two_numbers(text).map(|(site, n)| Request::Comes(site, n)),
        b"goes" => two_numbers(text).map(|(site, n)| Request::Goes(site, n)),
        b"ask" => two_numbers_way(text).map(|(site, other, way)| Request::Ask(site, other, way)),
        b"list" => one_number(text).map(Request::List),
        b"letter" => two_numbers(text).map(|(site, values)| Request::Letter(site, values)),
        _ => None,
    }
}

// The request that a line says, if it says one.
pub fn parse(line: &[u8]) -> Option<Request>
    ensures { Understood line.now result }
{
    let (verb, rest) = split_word(line)?;
    request_of(verb, rest)
}
