//! The numbers of a script.
ghost use Rattle.std.specs.Prelude.{◌≡◌, ◌≤◌, IfSome};
ghost use Rattle.script_lang.specs.Number.{DecimalsAreRead, NumbersAreSpelled, has_no_leading_zero, number};
ghost use Rattle.script_lang.specs.Number.{read_digits, with_digit};

/// The number that a word tells, if it is from `least` to `most`.
pub fn read_number(word: &[u8], least: u32, most: u32) -> Option<u32>
    ensures told { result ≡ number least most word.now }
    ensures bounds { IfSome result (λ value. (least ≤ value) × (value ≤ most)) }
{
    if !has_no_leading_zero(word) {
        return None;
    }
    let value = read_digits(word, most)?;
    if value < least {
        return None;
    }
    Some(value)
}

fn has_no_leading_zero(word: &[u8]) -> bool
    ensures { result ≡ has_no_leading_zero word.now }
{
    word.len() == 1 || word.len() > 1 && word[0] != b'0'
}

/// The number that digits tell, if it isn't above `most`.
#[tactic(auto, using(crate::proofs::NumberLemmas::reads))]
pub fn read_digits(word: &[u8], most: u32) -> Option<u32>
    ensures told { result ≡ read_digits most 0 word.now }
    ensures bound { IfSome result (λ value. value ≤ most) }
{
    let mut word = word;
    let mut value = 0;
    'digits: while let Some((byte, rest)) = word.split_first() {
        match with_digit(value, *byte, most) {
            Some(next) => value = next,
            None => return None,
        }
        word = rest;
    }
    Some(value)
}

/// The number with one more digit behind it, if it isn't above `most`.
fn with_digit(before: u32, byte: u8, most: u32) -> Option<u32>
    ensures told { result ≡ with_digit most before byte }
    ensures bound { IfSome result (λ value. value ≤ most) }
{
    if !byte.is_ascii_digit() {
        return None;
    }
    let value = u64::from(before) * 10 + u64::from(byte - b'0');
    if value > u64::from(most) {
        return None;
    }
    Some(value as u32)
}

/// A law, which does nothing: a word tells a number of a range exactly where it is that number's
/// decimal text.
pub fn numbers_are_decimal()
    ensures spelled { NumbersAreSpelled }
    ensures read { DecimalsAreRead }
{}
