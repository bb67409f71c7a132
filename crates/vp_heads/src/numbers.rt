//! Decimal numbers in paths and fields.

ghost use Rattle.std.specs.Prelude.{◌≡◌, ◌&&◌, ◌==◌, ◌||◌, not, length, slice_index};
ghost use Rattle.std.specs.Char.{is_ascii_digit};
ghost use Rattle.std.specs.List.{list_all};
ghost use Rattle.vp_heads.specs.Numbers.{count_in, has_no_leading_zero, packet_number};

fn all_digits(text: &[u8]) -> bool
    ensures { result ≡ list_all is_ascii_digit text.now }
{
    text.iter().all(|c| c.is_ascii_digit())
}

/// Parses a decimal number of one digit or more. It saturates at 2^64 - 1.
pub(crate) fn count(text: &[u8]) -> Option<u64>
    ensures { result ≡ count_in text.now }
{
    if text.is_empty() || !all_digits(text) {
        return None;
    }
    let Ok(text) = std::str::from_utf8(text) else {
        return None;
    };
    Some(text.parse::<u64>().unwrap_or(u64::MAX))
}

fn is_plain(text: &[u8]) -> bool
    ensures { result ≡ has_no_leading_zero text.now }
{
    text.len() <= 1 || text[0] != b'0'
}

/// Parses the number of a packet: below 2^32, without leading zeros.
pub(crate) fn packet(text: &[u8]) -> Option<u32>
    ensures { result ≡ packet_number text.now }
{
    if !is_plain(text) {
        return None;
    }
    u32::try_from(count(text)?).ok()
}
