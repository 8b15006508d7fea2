//! Tests for the classes of subtags (RFC 5646 section 2.1), which accept any bytes. Letters and digits are ASCII
//! letters and ASCII digits.
ghost use Rattle.std.specs.Prelude.{◌≡◌};
ghost use Rattle.langtag_scan.specs.Class as class;

#[tactic(auto, unfolding(crate::specs::Class::is_letter))]
pub(crate) fn is_letter(byte: u8) -> bool
    ensures { result ≡ class.is_letter byte }
{
    byte.is_ascii_alphabetic()
}

#[tactic(auto, unfolding(crate::specs::Class::is_digit))]
pub(crate) fn is_digit(byte: u8) -> bool
    ensures { result ≡ class.is_digit byte }
{
    byte.is_ascii_digit()
}

pub(crate) fn is_alphanumeric(byte: u8) -> bool
    ensures { result ≡ class.is_alphanumeric byte }
{
    is_letter(byte) || is_digit(byte)
}

/// Returns whether each byte is an ASCII letter. For an empty slice, it returns `true`.
///
/// `are_letters(b"zh")` is `true`, and `are_letters(b"z4")` is `false`.
pub fn are_letters(bytes: &[u8]) -> bool
    ensures { result ≡ class.are_letters bytes.now }
{
    // A loop and not `all`, because rustc can run a loop when it compiles a constant.
    let mut index = 0;
    while index < bytes.len() && is_letter(bytes[index]) {
        index += 1;
    }
    index == bytes.len()
}

fn are_digits(bytes: &[u8]) -> bool
    ensures { result ≡ class.are_digits bytes.now }
{
    let mut index = 0;
    while index < bytes.len() && is_digit(bytes[index]) {
        index += 1;
    }
    index == bytes.len()
}

fn are_alphanumeric(bytes: &[u8]) -> bool
    ensures { result ≡ class.are_alphanumeric bytes.now }
{
    bytes.iter().all(|byte| is_alphanumeric(*byte))
}

fn starts_with_digit(bytes: &[u8]) -> bool
    ensures { result ≡ class.starts_with_digit bytes.now }
{
    match bytes {
        [first, ..] => is_digit(*first),
        [] => false,
    }
}

/// Returns whether the bytes are a primary language subtag (section 2.2.1): two to eight letters.
///
/// ```
/// use langtag_scan::is_primary;
///
/// is_primary(b"zh"); // true
/// is_primary(b"z"); // false
/// is_primary(b"z4"); // false
/// ```
#[tactic(auto, unfolding(crate::specs::Class::is_primary))]
pub fn is_primary(bytes: &[u8]) -> bool
    ensures { result ≡ class.is_primary bytes.now }
{
    bytes.len() >= 2 && bytes.len() <= 8 && are_letters(bytes)
}

/// Returns whether the bytes are an extended language subtag (section 2.2.2): three letters.
///
/// ```
/// use langtag_scan::is_extended;
///
/// is_extended(b"min"); // true
/// is_extended(b"419"); // false
/// ```
#[tactic(auto, unfolding(crate::specs::Class::is_extended))]
pub fn is_extended(bytes: &[u8]) -> bool
    ensures { result ≡ class.is_extended bytes.now }
{
    bytes.len() == 3 && are_letters(bytes)
}

/// Returns whether the bytes are a script subtag (section 2.2.3): four letters.
///
/// ```
/// use langtag_scan::is_script;
///
/// is_script(b"Latn"); // true
/// is_script(b"1694"); // false
/// ```
#[tactic(auto, unfolding(crate::specs::Class::is_script))]
pub fn is_script(bytes: &[u8]) -> bool
    ensures { result ≡ class.is_script bytes.now }
{
    bytes.len() == 4 && are_letters(bytes)
}

/// Returns whether the bytes are a region subtag (section 2.2.4): two letters, or three digits.
///
/// ```
/// use langtag_scan::is_region;
///
/// is_region(b"FR"); // true
/// is_region(b"419"); // true
/// is_region(b"4F"); // false
/// ```
#[tactic(auto, unfolding(crate::specs::Class::is_region))]
pub fn is_region(bytes: &[u8]) -> bool
    ensures { result ≡ class.is_region bytes.now }
{
    (bytes.len() == 2 && are_letters(bytes)) || (bytes.len() == 3 && are_digits(bytes))
}

/// Returns whether the bytes are a variant subtag (section 2.2.5): five to eight letters and digits, or a digit
/// followed by three letters or digits.
///
/// ```
/// use langtag_scan::is_variant;
///
/// is_variant(b"rozaj"); // true
/// is_variant(b"1694"); // true
/// is_variant(b"Latn"); // false
/// ```
#[tactic(auto, unfolding(crate::specs::Class::is_variant))]
pub fn is_variant(bytes: &[u8]) -> bool
    ensures { result ≡ class.is_variant bytes.now }
{
    (bytes.len() >= 5 && bytes.len() <= 8 && are_alphanumeric(bytes))
        || (bytes.len() == 4 && are_alphanumeric(bytes) && starts_with_digit(bytes))
}

/// Returns whether the bytes are a subtag of an extension (section 2.2.6): two to eight letters and digits.
///
/// ```
/// use langtag_scan::is_extension_subtag;
///
/// is_extension_subtag(b"co"); // true
/// is_extension_subtag(b"c"); // false
/// ```
#[tactic(auto, unfolding(crate::specs::Class::is_extension_subtag))]
pub fn is_extension_subtag(bytes: &[u8]) -> bool
    ensures { result ≡ class.is_extension_subtag bytes.now }
{
    bytes.len() >= 2 && bytes.len() <= 8 && are_alphanumeric(bytes)
}

/// Returns whether the bytes are a private use subtag (section 2.2.7): one to eight letters and digits.
///
/// ```
/// use langtag_scan::is_private_subtag;
///
/// is_private_subtag(b"a"); // true
/// is_private_subtag(b""); // false
/// ```
#[tactic(auto, unfolding(crate::specs::Class::is_private_subtag))]
pub fn is_private_subtag(bytes: &[u8]) -> bool
    ensures { result ≡ class.is_private_subtag bytes.now }
{
    !bytes.is_empty() && bytes.len() <= 8 && are_alphanumeric(bytes)
}

/// Returns whether the byte begins a private use part (section 2.2.7): `x` or `X`.
///
/// ```
/// use langtag_scan::is_mark;
///
/// is_mark(b'X'); // true
/// is_mark(b'u'); // false
/// ```
#[tactic(auto, unfolding(crate::specs::Class::is_mark))]
pub fn is_mark(byte: u8) -> bool
    ensures { result ≡ class.is_mark byte }
{
    byte == b'x' || byte == b'X'
}

/// Returns whether the byte is a singleton (section 2.2.6), which begins an extension: a letter or digit other than `x`
/// and `X`.
///
/// ```
/// use langtag_scan::is_singleton;
///
/// is_singleton(b'u'); // true
/// is_singleton(b'1'); // true
/// is_singleton(b'X'); // false
/// ```
#[tactic(auto, unfolding(crate::specs::Class::is_singleton))]
pub fn is_singleton(byte: u8) -> bool
    ensures { result ≡ class.is_singleton byte }
{
    is_alphanumeric(byte) && !is_mark(byte)
}
