//! Reads the words of a line from its front, and the numbers that they write.
ghost use Rattle.std.specs.Prelude.{◌≡◌, ℕ, List, ◌==◌, false, length, MatchOption, IfSome, ◌^◌};
ghost use Rattle.std.specs.Prelude.{◌<◌, ◌≤◌, ◌∷◌, [], take, drop, ◌⊎◌};
ghost use Rattle.std.specs.Str.{bytes_eq};
ghost use Rattle.sim_script.specs.Words.{words, HasNoSpace, number};

/// Returns the text without its leading spaces.
fn skip_spaces(text: &[u8]) -> &[u8]
    ensures same { words result.now ≡ words text.now }
    ensures front { (result.now ≡ []) ⊎ ((b : ℕ) × (more : List ℕ) × (result.now ≡ b ∷ more)
        × ((b == 32) ≡ false)) }
{
    let mut rest = text;
    while let [b' ', after @ ..] = rest {
        rest = after;
    }
    rest
}

/// Returns the number of bytes before the first space.
fn word_len(text: &[u8]) -> usize
    ensures within { result ≤ length text.now }
    ensures plain { HasNoSpace (take result text.now) }
    ensures ends { (drop result text.now ≡ []) ⊎ ((more : List ℕ)
        × (drop result text.now ≡ 32 ∷ more)) }
{
    for (i, b) in text.iter().enumerate() {
        if *b == b' ' {
            return i;
        }
    }
    text.len()
}

/// Returns the first word and the text after it, or `None` if there is no word.
pub fn next_word(text: &[u8]) -> Option<(&[u8], &[u8])>
    ensures { MatchOption result (words text.now ≡ []) (λ r. words text.now ≡ r.0.now
        ∷ words r.1.now) }
{
    let text = skip_spaces(text);
    if text.is_empty() {
        return None;
    }
    Some(text.split_at(word_len(text)))
}

/// Returns whether a word is this keyword.
#[inline(always)]
pub fn is_keyword(word: &[u8], keyword: &[u8]) -> bool
    ensures { result ≡ bytes_eq word.now keyword.now }
{
    word == keyword
}

/// Reads a number of 1 to `most` decimal digits; `most` is at most 19.
#[tactic(auto, unfolding(crate::specs::Words::number))]
pub fn parse_number(word: &[u8], most: usize) -> Option<u64>
    requires { most ≤ 19 }
    ensures value { result ≡ number most word.now }
    ensures small { IfSome result (λ n. n < 10 ^ most) }
{
    if word.is_empty() || word.len() > most {
        return None;
    }
    let mut value: u64 = 0;
    for b in word {
        if !b.is_ascii_digit() {
            return None;
        }
        value = value * 10 + u64::from(*b - b'0');
    }
    Some(value)
}
