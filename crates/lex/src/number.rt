// What a number is worth.
ghost use Rattle.std.specs.Prelude.{◌≡◌, min};
ghost use Rattle.lex.specs.Number.{value, signed};

// The value of the digits, or the largest of 32 bits where it is larger.
fn magnitude(digits: &[u8]) -> u32
    ensures { result ≡ min (value digits.now) 4294967295 }
{
    digits.iter().fold(0u32, |n, b| {
        n.saturating_mul(10)
            .saturating_add(u32::from(b.saturating_sub(b'0')))
    })
}

/// The number that the digits stand for behind its sign, if it has 32 bits.
pub(crate) fn number(minus: bool, digits: &[u8]) -> Option<i32>
    ensures { result ≡ signed minus (value digits.now) }
{
    let value = i64::from(magnitude(digits));
    i32::try_from(if minus { -value } else { value }).ok()
}
