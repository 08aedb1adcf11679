// The frames of texts in the input.
ghost use Rattle.std.specs.Prelude.{◌≡◌, ℕ, ◌+◌, ◌<◌, ◌++◌, length, drop, IfSome};

// The first text of the input, and what follows it. No digit writes the length 0.
pub fn next_text(input: &[u8]) -> Option<(&[u8], &[u8])>
    ensures shorter { IfSome result (λ p. length p.0.now + length p.1.now < length input.now) }
    ensures parts { IfSome result (λ p. (k : ℕ) × (p.0.now ++ p.1.now ≡ drop k input.now)) }
{
    let mut size: usize = 0;
    for (at, byte) in input.iter().enumerate() {
        match *byte {
            b'\n' => return input[at + 1..].split_at_checked(size),
            digit @ b'0'..=b'9' => {
                size = size
                    .checked_mul(10)?
                    .checked_add(usize::from(digit - b'0'))?;
            }
            _ => return None,
        }
    }
    None
}
