ghost use Rattle.std.specs.Prelude.{◌≡◌, map, option_map};
ghost use Rattle.std.specs.List.{list_all};
ghost use Rattle.mh_base.specs.Lines.{is_full};
ghost use Rattle.mh_leaves.specs.Reference.{texts_of};
ghost use Rattle.mh_plan.specs.Plan.{is_digit, is_number, leaf_texts, is_leaf_word, is_call_of, is_call, is_thread};

use mh_leaves::{Reference, read_reference};

fn is_digit(byte: u8) -> bool
    ensures { result ≡ is_digit byte }
{
    b'0' <= byte && byte <= b'9'
}

fn are_digits(bytes: &[u8]) -> bool
    ensures { result ≡ list_all is_digit bytes.now }
{
    bytes.iter().all(|byte| is_digit(*byte))
}

// Whether a token is the number of a site: decimal digits without a leading zero.
fn is_number(token: &[u8]) -> bool
    ensures { result ≡ is_number token.now }
{
    match token {
        [] => false,
        [first, rest @ ..] => are_digits(token) && (rest.is_empty() || *first != b'0'),
    }
}

/// The texts of a token `leaf:OWNER.NAME:DESC`.
pub(crate) fn leaf_texts(token: &[u8]) -> Option<Reference<'_>>
    ensures { option_map texts_of result ≡ leaf_texts token.now }
{
    let reference = token.strip_prefix(b"leaf:")?;
    read_reference(reference)
}

fn is_leaf_word(word: &[u8]) -> bool
    ensures { result ≡ is_leaf_word word.now }
{
    word == b"exact".as_slice() || word == b"generic".as_slice()
}

// Whether these are the first tokens of a call, given how many tokens follow the second.
fn is_call_of(word: &[u8], subject: &[u8], more: usize) -> bool
    ensures { result ≡ is_call_of word.now subject.now more }
{
    if word == b"indy".as_slice() {
        is_number(subject)
    } else {
        is_leaf_word(word) && leaf_texts(subject).is_some() && more != 0
    }
}

// Whether these are the tokens of a call.
pub(crate) fn is_call(tokens: &[&[u8]]) -> bool
    ensures { result ≡ is_call (map (λ t. t.now) tokens.now) }
{
    match tokens {
        [word, subject, rest @ ..] => is_call_of(word, subject, rest.len()),
        _ => false,
    }
}

// Whether this is the one token `thread`.
pub(crate) fn is_thread(tokens: &[&[u8]]) -> bool
    ensures { result ≡ is_thread (map (λ t. t.now) tokens.now) }
{
    match tokens {
        [word] => *word == b"thread".as_slice(),
        _ => false,
    }
}

fn is_full(token: &[u8]) -> bool
    ensures { result ≡ is_full token.now }
{
    !token.is_empty()
}

fn each_is_full(tokens: &[&[u8]]) -> bool
    ensures { result ≡ list_all (λ token. is_full token.now) tokens.now }
{
    tokens.iter().all(|token| is_full(token))
}

// Whether no token is empty.
pub(crate) fn are_full(tokens: &[&[u8]]) -> bool
    ensures { result ≡ list_all is_full (map (λ t. t.now) tokens.now) }
{
    each_is_full(tokens)
}
