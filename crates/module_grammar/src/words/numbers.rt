//! The numbers that tokens write.
ghost use Rattle.std.specs.Prelude.{◌≡◌, ◌⊎◌, length, drop};
ghost use Rattle.module_grammar.specs.Tokens.{number_of, number_in, number_of_kind, digit_of, below, is_number_kind, is_digit, all_digits, is_index};
ghost use Rattle.module_grammar.specs.State.{index_of};

use crate::state::TextToken;
use mlir_lex::TokenKind;

/// Whether tokens of the kind are numbers.
pub(crate) fn is_number(kind: TokenKind) -> bool
    ensures { result ≡ is_number_kind kind }
{
    matches!(kind, TokenKind::Digits | TokenKind::Hex)
}

/// The value of a decimal or hexadecimal digit.
pub(crate) fn digit_of(byte: u8) -> u64
    ensures { result ≡ digit_of byte }
{
    if byte >= 97 {
        u64::from(byte - 87)
    } else if byte >= 65 {
        u64::from(byte - 55)
    } else {
        u64::from(byte.saturating_sub(48))
    }
}

/// The number that these digits write, where it is below 2^64.
fn number_in(base: u64, digits: &[u8]) -> Option<u64>
    requires { (base ≡ 10) ⊎ (base ≡ 16) }
    ensures { result ≡ below (number_in base digits.now 0) }
{
    let mut number: u64 = 0;
    for byte in digits {
        let digit = digit_of(*byte);
        if number > (u64::MAX - digit) / base {
            return None;
        }
        number = number * base + digit;
    }
    Some(number)
}

impl<'a> TextToken<'a> {
    /// The number that digits or hexadecimal digits write, where it is below 2^64.
    #[tactic(auto, unfolding(crate::specs::Tokens::number_of))]
    pub fn number(&self) -> Option<u64>
        ensures { result ≡ number_of self.now }
    {
        let text = self.text.as_slice();
        if self.kind == TokenKind::Hex {
            number_in(16, text.get(2..).unwrap_or(&[]))
        } else {
            number_in(10, text)
        }
    }

    /// The number behind `#`, where it is below 2^64.
    #[tactic(auto, unfolding(crate::specs::Tokens::number_of))]
    pub fn index(&self) -> Option<u64>
        ensures { result ≡ index_of self.now }
    {
        number_in(10, self.text.as_slice().get(1..).unwrap_or(&[]))
    }
}
