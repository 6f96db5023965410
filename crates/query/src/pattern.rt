// A pattern of 32 bits in hexadecimal.
ghost use Rattle.std.specs.Option.{SomeIff};
ghost use Rattle.query.specs.Pattern.{IsPattern, pattern_of};

// The pattern that a word writes as 0x and hexadecimal digits.
pub fn read_pattern(word: &str) -> Option<u32>
    ensures { SomeIff result (IsPattern word.now) (pattern_of word.now) }
{
    let digits = word.strip_prefix("0x")?;
    // from_str_radix would take one + before the digits
    if digits.starts_with('+') {
        return None;
    }
    u32::from_str_radix(digits, 16).ok()
}
