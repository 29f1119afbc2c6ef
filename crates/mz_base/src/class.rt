ghost use Rattle.std.specs.Prelude.{◌≡◌};
ghost use Rattle.mz_base.specs.Classes.{class_of, is_from, is_hiragana, is_katakana, is_digit, is_letter};

use crate::Class;

/// The class of a character.
#[tactic(auto, unfolding(crate::specs::Classes::class_of))]
pub fn class_of(c: char) -> Class
    ensures { result ≡ class_of c }
{
    if is_hiragana(c) {
        Class::Hiragana
    } else if is_katakana(c) {
        Class::Katakana
    } else if is_digit(c) {
        Class::Digit
    } else if is_letter(c) {
        Class::Letter
    } else {
        Class::Other
    }
}

fn is_hiragana(c: char) -> bool
    ensures { result ≡ is_hiragana c }
{
    is_from('ぁ', 'ゖ', c)
}

fn is_katakana(c: char) -> bool
    ensures { result ≡ is_katakana c }
{
    is_from('ァ', 'ヺ', c) || c == 'ー'
}

fn is_digit(c: char) -> bool
    ensures { result ≡ is_digit c }
{
    is_from('0', '9', c) || is_from('０', '９', c)
}

fn is_letter(c: char) -> bool
    ensures { result ≡ is_letter c }
{
    is_from('A', 'Z', c) || is_from('a', 'z', c) || is_from('Ａ', 'Ｚ', c) || is_from('ａ', 'ｚ', c)
}

fn is_from(first: char, last: char, c: char) -> bool
    ensures { result ≡ is_from first last c }
{
    first <= c && c <= last
}
