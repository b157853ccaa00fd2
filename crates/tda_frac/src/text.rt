// The parts of a fraction's text.
ghost use Rattle.std.specs.Prelude.{◌≡◌, ◌≢◌, ◌<◌, ◌^◌, ◌++◌, ◌∷◌, ℕ, All, IfSome, IfNone, Some};
ghost use Rattle.std.specs.Fmt.{decimal};
ghost use Rattle.tda_frac.specs.Fraction.{slash};

use itoa::Buffer;

// The bytes before the first `/` and those after it. None where there is no `/`.
pub(crate) fn split_at_slash(bytes: &[u8]) -> Option<(&[u8], &[u8])>
    ensures whole { IfSome result (λ p. bytes.now ≡ p.0.now ++ slash ∷ p.1.now) }
    ensures first { IfSome result (λ p. All (λ b. b ≢ slash) p.0.now) }
    ensures none { IfNone result (All (λ b. b ≢ slash) bytes.now) }
{
    for (at, byte) in bytes.iter().enumerate() {
        if *byte == b'/' {
            return Some((&bytes[..at], &bytes[at + 1..]));
        }
    }
    None
}

// The number below 2^64 whose canonical decimal these bytes are: `0`, or a digit 1 to 9 and further
// digits, which is the text that the number is written as. None where there is no such number.
pub(crate) fn read_whole(bytes: &[u8]) -> Option<u64>
    ensures text { IfSome result (λ n. bytes.now ≡ decimal n) }
    ensures found { (n : ℕ) → n < 2 ^ 64 → bytes.now ≡ decimal n → result ≡ Some n }
{
    let text = str::from_utf8(bytes).ok()?;
    let value: u64 = text.parse().ok()?;
    let mut buffer = Buffer::new();
    if buffer.format(value).as_bytes() == bytes {
        Some(value)
    } else {
        None
    }
}
