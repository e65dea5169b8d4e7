//! Numbers as words write them.
ghost use Rattle.std.specs.Prelude.{◌≡◌, ◌≤◌, IfSome};
ghost use Rattle.wiki_words.specs.Command.{between, number_between};

/// A number that is `least` to `most`.
fn between(least: u64, most: u64, number: u64) -> Option<u64>
    ensures number { result ≡ between least most number }
    ensures range { IfSome result (λ number. (least ≤ number) × (number ≤ most)) }
{
    ((least <= number) & (number <= most)).then_some(number)
}

/// The number that digits write, with a plus before them or none, where it is `least` to `most`.
pub fn number_between(least: u64, most: u64, text: &str) -> Option<u64>
    ensures number { result ≡ number_between least most text.now }
    ensures range { IfSome result (λ number. (least ≤ number) × (number ≤ most)) }
{
    match text.parse::<u64>() {
        Ok(number) => between(least, most, number),
        Err(_) => None,
    }
}
