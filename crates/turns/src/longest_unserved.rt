ghost use Rattle.std.specs.Prelude.{◌≡◌, ◌<◌, length, map};
ghost use Rattle.measures.specs.Limits.{most_labs, greatest_lab_number};
ghost use Rattle.turns.specs.Orders.{from_to};
ghost use Rattle.turns.specs.Turns.{after_served, order};
ghost use Rattle.turns.specs.Places.{own, moved, Within, Apart};

use crate::rule::TurnRule;
use measures::limits::{GREATEST_LAB_NUMBER, MOST_LABS, is_lab_number};
use std::cmp::Ordering;

const LABS: usize = MOST_LABS as usize;

const LAST_PLACE: u8 = GREATEST_LAB_NUMBER as u8;

// The longest unserved comes first: whoever is served goes to the end.
#[derive(Clone, Copy, PartialEq, Eq, Debug)]
pub struct LongestUnservedTurns {
    // the place of each number
    places: [u8; LABS],
    ghost whole: { length places ≡ most_labs },
    ghost within: { Within places },
    ghost apart: { Apart places },
}

impl LongestUnservedTurns {
    ghost use Rattle.turns.specs.LongestUnserved.{longest_unserved, begun, served, with_last};

    #[tactic(auto, using(crate::proofs::LongestUnservedOrder::order_begins))]
    pub fn new() -> LongestUnservedTurns
        ensures value { result ≡ begun }
        ensures order { order longest_unserved result ≡ from_to 0 greatest_lab_number }
    {
        LongestUnservedTurns {
            places: own_places(),
        }
    }

    fn put_last(&mut self, k: u64)
        requires { k < most_labs }
        ensures rule { self.new ≡ served self.old k }
        ensures order { order longest_unserved self.new ≡ with_last k (order longest_unserved self.old) }
    {
        let place = self.places[k as usize];
        move_to_end(&mut self.places, place);
    }
}

// Number n at place n.
fn own_places() -> [u8; LABS]
    ensures value { result ≡ own }
    ensures within { Within result }
    ensures apart { Apart result }
{
    let mut places = [0; LABS];
    for (n, place) in places.iter_mut().enumerate() {
        *place = n as u8;
    }
    places
}

// The number at the vacated place goes to the end, and those behind it move up by one.
fn move_to_end(places: &mut [u8], vacated: u8)
    ensures { places.new ≡ map (moved vacated) places.old }
{
    for place in places.iter_mut() {
        *place = moved(vacated, *place);
    }
}

// Where a place moves to then.
fn moved(vacated: u8, place: u8) -> u8
    ensures { result ≡ moved vacated place }
{
    match place.cmp(&vacated) {
        Ordering::Less => place,
        Ordering::Equal => LAST_PLACE,
        Ordering::Greater => place - 1,
    }
}

impl TurnRule for LongestUnservedTurns {
    ghost use Rattle.turns.specs.LongestUnserved.{longest_unserved, with_last};
    ghost use Rattle.turns.specs.LongestUnservedIsFair.{longest_unserved_fair};

    ghost turns = { longest_unserved };

    ghost fair = { longest_unserved_fair };

    fn ahead(&self, a: u64, b: u64) -> bool {
        is_lab_number(a) && is_lab_number(b) && self.places[a as usize] < self.places[b as usize]
    }

    fn served(&mut self, k: u64)
        ensures rule { self.new ≡ after_served longest_unserved self.old k }
        ensures order { k < most_labs → order longest_unserved self.new ≡ with_last k (order longest_unserved self.old) }
    {
        if is_lab_number(k) {
            self.put_last(k);
        }
    }
}
