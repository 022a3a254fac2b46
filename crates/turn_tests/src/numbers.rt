use std::process::Abort;
use turns::circular::CircularTurns;
use turns::longest_unserved::LongestUnservedTurns;
use turns::rule::TurnRule;

pub const NUMBERS: [u64; 64] = [
    0, 1, 2, 3, 4, 5, 6, 7, 8, 9, 10, 11, 12, 13, 14, 15, 16, 17, 18, 19, 20, 21, 22, 23, 24, 25,
    26, 27, 28, 29, 30, 31, 32, 33, 34, 35, 36, 37, 38, 39, 40, 41, 42, 43, 44, 45, 46, 47, 48, 49,
    50, 51, 52, 53, 54, 55, 56, 57, 58, 59, 60, 61, 62, 63,
];

// Both rules, after these were served one after another.
pub fn after(servings: &[u64]) -> (CircularTurns, LongestUnservedTurns) {
    let mut circular = CircularTurns::new();
    let mut longest = LongestUnservedTurns::new();
    for k in servings {
        circular.served(*k);
        longest.served(*k);
    }
    (circular, longest)
}

// Each number is ahead of those that stand behind it in the order, and of no others.
pub fn check_order(rt: &impl Abort, rule: &impl TurnRule, order: &[u64; 64]) {
    for (i, a) in order.iter().enumerate() {
        for (j, b) in order.iter().enumerate() {
            assert_eq!(rt; rule.ahead(*a, *b), i < j);
        }
    }
}
