ghost use Rattle.std.specs.Prelude.{◌≡◌, ◌≤◌};
ghost use Rattle.std.specs.Char.{is_ascii_digit};
ghost use Rattle.std.specs.List.{list_all};
ghost use Rattle.mh_words.specs.Number.{is_written, most_digits, number_of};

fn are_digits(text: &[u8]) -> bool
    ensures { result ≡ list_all is_ascii_digit text.now }
{
    text.iter().all(|byte| byte.is_ascii_digit())
}

// Whether a text writes a number: one or more decimal digits, up to this many, and nothing else.
fn is_written(most: usize, text: &[u8]) -> bool
    ensures { result ≡ is_written most text.now }
{
    !text.is_empty() && text.len() <= most && are_digits(text)
}

/// The number that a text of one or more decimal digits writes, up to this many, which are six at
/// most. It may begin with zeros, but not with a sign.
pub(crate) fn read_number(most: usize, text: &str) -> Option<u32>
    requires { most ≤ most_digits }
    ensures { result ≡ number_of most text.now }
{
    if is_written(most, text.as_bytes()) {
        text.parse::<u32>().ok()
    } else {
        None
    }
}
