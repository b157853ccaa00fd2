// Numbers and coins on words that are given.
use std::alloc::{AllocError, Global};
use tda_frac::Frac;
use tda_noise::{Draw, coin, exp_coin, gaussian, laplace, uniform_below};
use tda_words::{ListWords, Words};

const MOST: u128 = 1 << 100;

// The bytes of words, each with the least byte first.
fn bytes_of(alloc: Global, words: &[u32]) -> Result<Vec<u8>, AllocError> {
    let mut bytes = Vec::new(alloc);
    for word in words {
        bytes.extend_from_slice(word.to_le_bytes().as_slice())?;
    }
    Ok(bytes)
}

// Zeros, then so many times the words 0, 0 and 1, and then the last words.
fn laplace_words(alloc: Global, turns: usize, last: &[u32]) -> Result<Vec<u8>, AllocError> {
    let mut bytes = bytes_of(alloc, &[0, 0])?;
    for _ in 0..turns {
        bytes.extend_from_slice(&[0, 0, 0, 0, 0, 0, 0, 0, 1, 0, 0, 0])?;
    }
    for word in last {
        bytes.extend_from_slice(word.to_le_bytes().as_slice())?;
    }
    Ok(bytes)
}

fn list_of(bytes: &[u8]) -> Option<ListWords<'_>> {
    if bytes.len() % 4 != 0 || bytes.len() > 1 << 28 {
        return None;
    }
    Some(ListWords::new(bytes))
}

// What is answered, and then how many words are left and were taken.
fn uniform_on(bytes: &[u8], n: u128) -> Option<(Option<u128>, u64, u64)> {
    if n < 1 || n > MOST {
        return None;
    }
    let mut words = list_of(bytes)?;
    let number = uniform_below(&mut words, n);
    Some((number, words.left(), words.taken()))
}

fn coin_on(bytes: &[u8], n: u128, d: u128) -> Option<(Option<bool>, u64, u64)> {
    if n > d || d < 1 || d > MOST {
        return None;
    }
    let mut words = list_of(bytes)?;
    let side = coin(&mut words, n, d);
    Some((side, words.left(), words.taken()))
}

fn exp_coin_on(bytes: &[u8], n: u128, d: u128) -> Option<(Option<bool>, u64, u64)> {
    if n > 1 << 120 || d < 1 || d > 1 << 64 {
        return None;
    }
    let mut words = list_of(bytes)?;
    let side = exp_coin(&mut words, n, d);
    Some((side, words.left(), words.taken()))
}

fn laplace_on(bytes: &[u8], s: u64, t: u64) -> Option<(Draw, u64, u64)> {
    if s < 1 || s > 1 << 20 || t < 1 || t > 1 << 20 {
        return None;
    }
    let mut words = list_of(bytes)?;
    let draw = laplace(&mut words, s, t);
    Some((draw, words.left(), words.taken()))
}

fn gaussian_on(bytes: &[u8], num: u64, den: u64) -> Option<(Draw, u64, u64)> {
    let variance = Frac::new(num, den)?;
    if variance.num() < 1 || variance.num() > 1 << 20 || variance.den() > 1 << 24 {
        return None;
    }
    let mut words = list_of(bytes)?;
    let draw = gaussian(&mut words, variance);
    Some((draw, words.left(), words.taken()))
}

#[test]
fn uniform_numbers_and_coins(rt: HostRuntime) -> Result<(), AllocError> {
    let numbers = [
        // 7 and 6 aren't below 6.
        ([7, 6, 5].as_slice(), 6, (Some(5), 0, 3)),
        (&[9], 1, (Some(0), 0, 1)),
        (&[7, 14], 6, (None, 0, 2)),
        // Two words for 33 digits, the first the least significant.
        (&[5, 3, 8], 1 << 33, (Some(4_294_967_301), 1, 2)),
        (&[5], 1 << 33, (None, 0, 1)),
        (&[1, 0, 0, 16, 7], MOST, (Some(1), 1, 4)),
    ];
    for (words, n, want) in numbers {
        let bytes = bytes_of(rt.alloc(), words)?;
        assert_eq!(rt; uniform_on(bytes.as_slice(), n), Some(want), "at {words:?}");
    }

    let coins = [
        ([2, 1].as_slice(), 1, 2, (Some(true), 1, 1)),
        (&[3, 1], 1, 2, (Some(false), 1, 1)),
        (&[3, 3, 2], 2, 3, (Some(false), 0, 3)),
        (&[], 1, 2, (None, 0, 0)),
    ];
    for (words, n, d, want) in coins {
        let bytes = bytes_of(rt.alloc(), words)?;
        assert_eq!(rt; coin_on(bytes.as_slice(), n, d), Some(want), "at {words:?}");
    }
    Ok(())
}

#[test]
fn exponential_coins(rt: HostRuntime) -> Result<(), AllocError> {
    let coins = [
        // The first false toss is the first, the second or the third one.
        ([4, 9].as_slice(), 0, 5, (Some(true), 1, 1)),
        (&[0, 1, 9], 1, 1, (Some(false), 1, 2)),
        (&[0, 0, 1, 9], 1, 1, (Some(true), 1, 3)),
        (&[0, 0], 1, 1, (None, 0, 2)),
        // Two coins of chance 1/e, and one for the rest, which is 0.
        (&[0, 0, 1, 0, 0, 1, 0, 9], 2, 1, (Some(true), 1, 7)),
        (&[0, 0, 1, 0, 1, 9], 2, 1, (Some(false), 1, 5)),
        (&[0, 0, 1, 0, 0, 1], 2, 1, (None, 0, 6)),
        // One coin of chance 1/e, and one of 1/2 for the rest.
        (&[0, 0, 1, 1, 9], 3, 2, (Some(true), 1, 4)),
        (&[0, 1, 9], 1 << 120, 1 << 64, (Some(false), 1, 2)),
        (&[9, 9, 9, 9], 1 << 64, 1 << 64, (None, 0, 4)),
    ];
    for (words, n, d, want) in coins {
        let bytes = bytes_of(rt.alloc(), words)?;
        assert_eq!(rt;
            exp_coin_on(bytes.as_slice(), n, d),
            Some(want),
            "at {words:?}"
        );
    }
    Ok(())
}

#[test]
fn laplace_numbers(rt: HostRuntime) -> Result<(), AllocError> {
    let numbers = [
        (1024, [0, 1, 1].as_slice(), (Draw::Value(1 << 30), 0, 3077)),
        (1025, &[], (Draw::TooLarge(1_074_790_400), 0, 3077)),
        (3, &[0, 1], (Draw::OutOfWords, 0, 13)),
    ];
    for (turns, last, want) in numbers {
        let bytes = laplace_words(rt.alloc(), turns, last)?;
        assert_eq!(rt;
            laplace_on(bytes.as_slice(), 1, 1 << 20),
            Some(want),
            "at {turns}"
        );
    }

    // U is 1 and isn't kept; then U is 0, V is 2, and the number is -floor(4/3).
    let bytes = bytes_of(rt.alloc(), &[1, 0, 1, 0, 0, 0, 0, 1, 0, 0, 1, 0, 1, 0, 7])?;
    assert_eq!(rt;
        laplace_on(bytes.as_slice(), 3, 2),
        Some((Draw::Value(-1), 1, 14))
    );
    Ok(())
}

#[test]
fn gaussian_numbers(rt: HostRuntime) -> Result<(), AllocError> {
    let numbers = [
        ([0, 0, 0, 1, 1, 7].as_slice(), (Draw::Value(0), 0, 6)),
        (&[1, 1, 0, 1, 1, 7], (Draw::Value(1), 0, 6)),
        (&[1, 1, 0, 1, 0, 7], (Draw::Value(-1), 0, 6)),
        // A minus zero begins a new attempt.
        (&[0, 0, 0, 1, 0, 7], (Draw::OutOfWords, 0, 6)),
        // V is 1, and the exponent of the coin that keeps the number is 9/8.
        (
            &[0, 0, 0, 0, 1, 0, 1, 1, 0, 0, 1, 7],
            (Draw::Value(2), 0, 12),
        ),
        (&[1, 1, 0, 1, 1, 7, 5, 6], (Draw::Value(1), 2, 6)),
    ];
    for (words, want) in numbers {
        let bytes = bytes_of(rt.alloc(), words)?;
        assert_eq!(rt;
            gaussian_on(bytes.as_slice(), 1, 1),
            Some(want),
            "at {words:?}"
        );
    }
    Ok(())
}
