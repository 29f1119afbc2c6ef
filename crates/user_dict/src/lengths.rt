ghost use Rattle.std.specs.Prelude.{◌≡◌};
ghost use Rattle.user_dict.specs.Rows.{is_long};

use mz_base::MOST_FIELD_BYTES;

/// Whether the text has more bytes than a field may have.
pub fn is_long(text: &[char]) -> bool
    ensures { result ≡ is_long text.now }
{
    let mut bytes = 0;
    for letter in text {
        bytes += letter.len_utf8();
        if MOST_FIELD_BYTES < bytes {
            return true;
        }
    }
    false
}
