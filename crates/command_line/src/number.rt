//! Numbers in the words of a command line and in the lines of a script.
ghost use Rattle.std.specs.Prelude.{◌≡◌, ◌≢◌, ◌<◌, ◌^◌, IfNone, IfSome, decimal, ℕ};

use itoa::Buffer;

/// The number that the text writes in decimal digits, without a sign or a leading zero. Any other text, and one of 2^64
/// or more, gives none.
pub fn read_number(text: &str) -> Option<u64>
    ensures some { IfSome result (λ n. (text.now ≡ decimal n) × (n < 2 ^ 64)) }
    ensures none { IfNone result ((n : ℕ) → n < 2 ^ 64 → text.now ≢ decimal n) }
{
    match text.parse::<u64>() {
        Ok(n) => {
            let mut buffer = Buffer::new();
            if buffer.format(n) == text {
                Some(n)
            } else {
                None
            }
        }
        Err(_) => None,
    }
}
