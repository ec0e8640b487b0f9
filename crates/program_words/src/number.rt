//! A number of a command line.
ghost use Rattle.std.specs.Prelude.{◌≡◌};
ghost use Rattle.program_words.specs.Numbers.{number_of};

/// The number of 1 to 20 decimal digits, if it is below 2^64. One step for each digit.
pub fn read_number(text: &str) -> Option<u64>
    ensures { result ≡ number_of text.now }
{
    if text.len() > 20 || text.starts_with('+') {
        return None;
    }
    text.parse::<u64>().ok()
}
