//! The script of a tag.
ghost use Rattle.std.specs.Prelude.{◌≡◌, unwrap_or};
ghost use Rattle.langtag.specs.Definitions.{script_text, EachRecord, IsNormal, lang_tag_text};

use langtag::{LangTag, Script};

/// Returns the script of a tag, or the default for a tag without a script.
pub fn script_or<'a>(tag: &LangTag<'a>, default: Script<'a>) -> Script<'a>
    ensures there { EachRecord (lang_tag_text tag.now)
        (λ r. script_text result ≡ unwrap_or r.script (script_text default.entry)) }
    ensures other { (IsNormal (lang_tag_text tag.now) → ⊥) → script_text result ≡ script_text default.entry }
{
    tag.script().unwrap_or(default)
}
