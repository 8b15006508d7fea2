//! Tags whose bytes were written.
ghost use Rattle.std.specs.Prelude.{◌≡◌};
ghost use Rattle.langtag_scan.specs.Grammar.{IsTag};
ghost use Rattle.langtag.specs.Text.{lang_tag_buf_text};

use crate::lang_tag_buf::LangTagBuf;

/// Converts bytes that are known to be a tag into that tag.
pub fn tag_of(bytes: Vec<u8>) -> LangTagBuf
    requires { IsTag bytes.items }
    ensures { lang_tag_buf_text result ≡ bytes.items }
{
    let Ok(text) = String::from_utf8(bytes) else {
        unreachable!()
    };
    // It is parsed, although it is known to be a tag: a tag also stores where its parts end.
    let Ok(tag) = LangTagBuf::new(text) else {
        unreachable!()
    };
    tag
}
