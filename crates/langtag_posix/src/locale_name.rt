//! The POSIX locale name for a tag.
ghost use Rattle.std.specs.Prelude.{◌≡◌, ◌≤◌, None, Some, IfOk, IfSome, MatchOption, option_map, string_bytes};
ghost use Rattle.langtag.specs.Definitions.{lang_tag_text, Writes};
ghost use Rattle.langtag_posix.specs.ToPosix.{IsPosixName, ReadsBack};

use crate::posix_name::PosixName;
use langtag::LangTag;
use std::alloc::{AllocError, Global};

/// The greatest length of a name, in bytes: `_POSIX` comes after a language and a territory, and the longest modifier is
/// `ijekavianlatin`.
const MOST: usize = 28;

/// Returns the POSIX locale name for a tag (IEEE Std 1003.1, section 8.2), `language[_territory][@modifier]`: `pt_BR`
/// for `pt-BR`, `sr_RS@latin` for `sr-Latn-RS`, `ca_ES@valencia` for `ca-ES-valencia`.
///
/// The language is in lowercase, and the territory in uppercase. There is no codeset: the caller adds it, as in
/// `pt_BR.UTF-8`. These modifiers are written:
///
/// - `latin`, `cyrillic` and `devanagari` for a script;
/// - `ijekavian`, `polyton`, `tarask` and `valencia` for a variant, and `ijekavianlatin` for both a script and a variant.
///
/// A script is left out if it is the likely script of the language, both alone and with its region: `en_US` for
/// `en-Latn-US`. A script without a modifier is also left out if it is likely with the region: `zh_TW` for
/// `zh-Hant-TW`. The keyword `va-posix` (UTS #35) becomes the variant `POSIX`: `en_US_POSIX` for `en-US-u-va-posix`.
///
/// The result is `None` if a name cannot say all of the tag: another script or variant, an extended language, another
/// extension, private use, or a language of more than three letters. It is also `None` for `und`. If extensions do not
/// matter, ask for the name of `tag.base()`. Regions of three digits are written: `es_419` for `es-419`.
///
/// [`from_posix`](crate::from_posix) reads the name as the same tag, in its recommended case, without a script that was
/// left out.
///
/// # Errors
///
/// Returns an error if allocation fails.
///
/// ```
/// use langtag::LangTag;
/// use langtag_posix::to_posix;
///
/// to_posix(alloc, LangTag::new("sr-Latn-RS")?)?.as_deref(); // Some("sr_RS@latin")
/// to_posix(alloc, LangTag::new("de-DE-u-co-phonebk")?)?; // None
/// ```
pub fn to_posix(alloc: Global, tag: LangTag<'_>) -> Result<Option<String>, AllocError>
    ensures name { IfOk result (λ name. IsPosixName (lang_tag_text tag.entry) (option_map string_bytes name)) }
    // law: `from_posix` reads the name for a tag as this tag, ignoring case, except for a likely script
    ensures read_back { IfOk result (λ name. IfSome name (λ name. ReadsBack (lang_tag_text tag.entry) (string_bytes name))) }
{
    let mut bytes = [0; MOST];
    let Some(len) = write_to_posix(tag, &mut bytes) else {
        return Ok(None);
    };
    match str::from_utf8(&bytes[..len]) {
        Ok(name) => {
            let name = String::from_str(alloc, name)?;
            Ok(Some(name))
        }
        Err(_) => unreachable!(),
    }
}

/// Writes the POSIX locale name for a tag to a buffer, as `to_posix` returns it, and returns its length in bytes, which
/// is at most 28, or `None` if the tag has no name. If the buffer is too short, it stays unchanged, and the length says
/// how long a buffer must be. It does not allocate.
///
/// ```
/// use langtag::LangTag;
/// use langtag_posix::write_to_posix;
///
/// let mut buffer = [0; 28];
/// write_to_posix(LangTag::new("ca-ES-valencia")?, &mut buffer); // Some(14)
/// buffer.get(..14); // Some(&b"ca_ES@valencia"[..])
/// write_to_posix(LangTag::new("und")?, &mut buffer); // None
/// ```
pub fn write_to_posix(tag: LangTag<'_>, buffer: &mut [u8]) -> Option<usize>
    ensures written { MatchOption result (IsPosixName (lang_tag_text tag.entry) None)
        (λ len. Writes (λ name. IsPosixName (lang_tag_text tag.entry) (Some name)) buffer.old buffer.new len) }
    ensures few { IfSome result (λ len. len ≤ 28) }
    ensures nothing { result ≡ None → buffer.new ≡ buffer.old }
{
    let name = PosixName::of(tag.as_normal()?)?;
    Some(name.write(buffer))
}
