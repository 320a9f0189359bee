//! What is drawn, and how often.

use sci_random::{Random, any_kind, any_line, any_operation};
use sci_words::AskKind;
use std::test::*;

/// The first numbers below 100 of the seed 1, worked out by another program.
const FIRST: [u8; 8] = [81, 74, 10, 74, 18, 59, 98, 52];

#[test]
fn a_seed_has_its_numbers(rt: HostRuntime) {
    let mut random = Random::new(1);
    for number in FIRST {
        assert_eq!(rt; random.below(100), number);
    }
}

#[test]
fn shares_come_as_often_as_they_say(rt: HostRuntime) {
    let mut random = Random::new(7);
    let (mut tenths, mut thirds) = (0u32, 0u32);
    for _draw in 0..10_000u32 {
        tenths = tenths.wrapping_add(u32::from(random.in_hundred(10)));
        thirds = thirds.wrapping_add(u32::from(random.once_in(3)));
    }
    assert!(rt; (900..1_100).contains(&tenths));
    assert!(rt; (3_200..3_500).contains(&thirds));
}

#[test]
fn each_line_word_and_kind_is_drawn(rt: HostRuntime) {
    let mut random = Random::new(3);
    let (mut lines, mut words) = ([0u32; 5], [0u32; 8]);
    let mut setbacks = 0u32;
    for _draw in 0..1_000u32 {
        let op = any_operation(&mut random, 4);
        assert_eq!(rt; op.line, 4);
        let line = usize::from(any_line(&mut random, 5)).min(4);
        lines[line] = lines[line].wrapping_add(1);
        let word = usize::from(op.word).min(7);
        words[word] = words[word].wrapping_add(1);
        if any_kind(&mut random) == AskKind::Setback {
            setbacks = setbacks.wrapping_add(1);
        }
    }
    assert!(rt; lines.iter().all(|count| *count > 0));
    assert!(rt; words.iter().all(|count| *count > 0));
    assert!(rt; (80..150).contains(&setbacks));
}
