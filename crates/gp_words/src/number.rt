//! Numbers of the command line.

ghost use Rattle.std.specs.Prelude.{◌≡◌, ◌≤◌, map, Option, IfSome, option_map};
ghost use Rattle.std.specs.Str.{all_ascii_digits};
ghost use Rattle.gp_words.specs.CommandLine as spec;

fn are_digits(bytes: &[u8]) -> bool
    ensures { result ≡ all_ascii_digits bytes.now }
{
    for byte in bytes {
        if !byte.is_ascii_digit() {
            return false;
        }
    }
    true
}

/// The number that decimal digits write, where it is in this range. A sign is no digit.
pub(crate) fn number_between(least: u64, most: u64, word: &str) -> Option<u64>
    ensures number { result ≡ spec.number_between least most word.now }
    ensures range { IfSome result (λ n. (least ≤ n) × (n ≤ most)) }
{
    if word.is_empty() || !are_digits(word.as_bytes()) {
        return None;
    }
    match word.parse::<u64>() {
        Ok(number) => (least <= number && number <= most).then_some(number),
        Err(_) => None,
    }
}

/// The number that is written, or the usual one where none is.
pub(crate) fn value_or(usual: u64, least: u64, most: u64, word: Option<&str>) -> Option<u64>
    requires usual { (least ≤ usual) × (usual ≤ most) }
    ensures value { result ≡ spec.value_or usual least most (option_map (λ w. w.now) word.entry) }
    ensures range { IfSome result (λ n. (least ≤ n) × (n ≤ most)) }
{
    match word {
        None => Some(usual),
        Some(word) => number_between(least, most, word),
    }
}
