//! The tag for a POSIX locale name and the name for a tag, in the caller's buffer, and the unknown modifier that is dropped.
ghost use Rattle.std.specs.Prelude.{◌≡◌, ◌↔◌, ◌≤◌, IsTrue, None, Some, false, length, not};
ghost use Rattle.langtag.specs.Definitions.{Writes};
ghost use Rattle.langtag_posix.specs.Modifiers.{is_known};
ghost use Rattle.langtag_posix.specs.Posix.{IsTagOfName, NamesTag, modifier_of};
ghost use Rattle.langtag_posix.specs.ToPosix.{IsPosixName};
ghost use Rattle.langtag_c.specs.Spans.{end_of, span_text};

use crate::span::Span;
use crate::tag::tag_of;
use langtag_posix::{unknown_modifier, write_from_posix, write_to_posix};

/// Writes the tag for a POSIX locale name to `buffer` (IEEE Std 1003.1, section 8.2), and returns its length:
/// pt_BR.UTF-8 becomes pt-BR, sr_RS@latin becomes sr-Latn-RS, ca_ES@valencia becomes ca-ES-valencia, and zh_TW_#Hant,
/// as Java prints it, becomes zh-Hant-TW. As with `langtag_canonical`, nothing is written if the buffer is too short.
/// Names as Android and .NET write them are read, too: zh-rTW becomes zh-TW, b+sr+Latn becomes sr-Latn, zh-CHT becomes
/// zh-Hant, and sr-SP-Latn becomes sr-Latn-RS. An empty language or region is read as in Java and ICU: _US becomes und-US.
/// Last fields of Java and Windows that are no subtags are read: no_NO_NY becomes nn-NO, ja_JP_JP becomes
/// ja-JP-u-ca-japanese, and de-DE_phoneb becomes de-DE-u-co-phonebk.
///
/// The codeset is dropped. It consists of ASCII letters, digits, `-`, `_` and `.`. The modifiers latin, cyrillic,
/// devanagari, iqtelif, valencia, tarask, polyton, ijekavian, ijekavianlatin and the codes of scripts are used, ignoring
/// case. Extensions come from Java's names and from the keywords of ICU and Apple: de_DE_#u-co-phonebk and
/// de_DE@collation=phonebook become de-DE-u-co-phonebk. Other modifiers are dropped, and so are keywords if one of them
/// cannot be read. If the only variant is POSIX, ignoring case, and there are no extensions, it becomes the keyword
/// va-posix: en_US_POSIX becomes en-US-u-va-posix.
///
/// Returns 0 and writes nothing if language and territory do not form a tag (C), or have more than 255 bytes, or 260 with
/// extensions. Also if the language has more than three letters (POSIX, german, night), or if other qualifiers of an
/// Android folder come after the region (en-rGB-land). Also if a variant is not registered and the tag is not grandfathered
/// (nl_NL_formal), or if what follows the dot is no codeset (No. 5). Also if what follows # is no script and no extension,
/// or if extensions would come after an extension or private use.
#[tactic(auto, using(crate::proofs::WrittenTexts::named_written))]
#[unsafe(no_mangle)]
pub extern "C" fn langtag_from_posix(name: &[u8], buffer: &mut [u8]) -> usize
    ensures tag { NamesTag name.now → Writes (IsTagOfName name.now) buffer.old buffer.new result }
    ensures no_tag { result ≡ 0 ↔ (NamesTag name.now → ⊥) }
    ensures nothing { result ≡ 0 → buffer.new ≡ buffer.old }
{
    match write_from_posix(name, buffer) {
        Some(len) => len,
        None => 0,
    }
}

/// Writes the POSIX locale name for a tag to `buffer` (IEEE Std 1003.1, section 8.2), and returns its length, which is
/// at most 28: pt-BR becomes pt_BR, sr-Latn-RS becomes sr_RS@latin, ca-ES-valencia becomes ca_ES@valencia, and
/// en-US-u-va-posix becomes en_US_POSIX. As with `langtag_canonical`, nothing is written if the buffer is too short. The
/// codeset is the caller's, as in pt_BR.UTF-8. `langtag_from_posix` reads the name as the same tag, in its recommended
/// case, without a script that was left out.
///
/// ```c
/// char name[28];
/// size_t len = langtag_to_posix("zh-Hant-TW", 10, name, sizeof name);
/// printf("%.*s\n", (int)len, name); // zh_TW
/// ```
///
/// A script is left out if it is the likely script of the language, both alone and with its region: en_US for
/// en-Latn-US. A script without a modifier is also left out if it is likely with the region. The modifiers are latin,
/// cyrillic, devanagari, valencia, tarask, polyton, ijekavian and ijekavianlatin.
///
/// Returns 0 and writes nothing if no name expresses the whole tag: another script or variant, an extended language,
/// another extension, private use, or a language of more than three letters. Also for und, and if the string is not a
/// tag. To leave extensions out, ask for the first `langtag_base_len` bytes of the tag.
#[tactic(auto, using(crate::proofs::WrittenTexts::posix_some))]
#[unsafe(no_mangle)]
pub extern "C" fn langtag_to_posix(bytes: &[u8], buffer: &mut [u8]) -> usize
    // law: the name that `to_posix` returns, if the buffer has room for it, and its length
    ensures name { 1 ≤ result → Writes (λ name. IsPosixName bytes.now (Some name)) buffer.old buffer.new result }
    // law: 0 if and only if there is none
    ensures no_name { result ≡ 0 ↔ IsPosixName bytes.now None }
    ensures few { result ≤ 28 }
    ensures nothing { result ≡ 0 → buffer.new ≡ buffer.old }
{
    let Some(tag) = tag_of(bytes) else {
        return 0;
    };
    write_to_posix(tag, buffer).unwrap_or(0)
}

/// Returns whether `langtag_from_posix` drops the modifier of a name because it is not known, and writes where the
/// modifier is (out): foo in de_DE@foo. A program may want to refuse such a name, because de_DE becomes the same tag.
///
/// Returns false and leaves `modifier` unchanged if there is no modifier, if `langtag_from_posix` reads it, or if it is
/// not about the language, such as euro.
#[tactic(auto, using(crate::proofs::FoundExtension::end_after_first))]
#[unsafe(no_mangle)]
pub extern "C" fn langtag_unknown_modifier(name: &[u8], modifier: &mut Span) -> bool
    ensures unknown { result ≡ not (is_known (modifier_of name.now)) }
    ensures text { IsTrue result → span_text name.now modifier.new ≡ modifier_of name.now }
    ensures ends { IsTrue result → end_of modifier.new ≡ length name.now }
    ensures nothing { result ≡ false → modifier.new ≡ modifier.old }
{
    let Some(found) = unknown_modifier(name) else {
        return false;
    };
    *modifier = Span {
        start: name.len() - found.len(),
        len: found.len(),
    };
    true
}
