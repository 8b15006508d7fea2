//! The answer to one line.
ghost use Rattle.std.specs.Prelude.{◌≡◌, [], ◌∷◌, OnOk, IsOkUnless, unwrap_or, flat_map, option_map};
ghost use Rattle.std.specs.Io.KnownBytes.{append_known};
ghost use Rattle.langtag_scan.specs.Grammar.{EachRecord};
ghost use Rattle.langtag.specs.Definitions.{script_text, region_text, private_use_text, normal_lang_tag_text};
ghost use Rattle.langtag_show.specs.Report.{AreWritten};
ghost use Rattle.langtag_show.specs.ShowAnswer.{IsShowAnswer, has_repeats};

use crate::page::Page;
use crate::show_error::ShowError;
use langtag::{LangTag, NormalLangTag, PrivateUse, Region, Script, TypedLangTag};
use std::io::Write;

/// Adds the answer to a line, and an LF, to the page. The answer is the kind and the parts of the line's tag.
///
/// # Errors
///
/// Returns `Write` if the page is full and writing it fails.
pub(crate) fn put_answer<W: Write>(
    line: &[u8],
    page: &mut Page,
    output: &mut W,
) -> Result<(), ShowError>
    ensures ok { OnOk result (AreWritten (append_known (W.contents output.old) page.old)
        (append_known (W.contents output.new) page.new) (line.now ∷ [])) }
    ensures err { IsOkUnless result ShowError.Write }
{
    let Ok(tag) = LangTag::from_bytes(line) else {
        return page.put_line(&["refused"], output);
    };
    match tag.as_typed() {
        TypedLangTag::Normal(tag) => page.put_line(&normal_answer(&tag), output),
        TypedLangTag::PrivateUse(tag) => page.put_line(&["private ", tag.as_str()], output),
        TypedLangTag::Grandfathered(tag) => page.put_line(&["irregular ", tag.as_str()], output),
    }
}

/// Returns the answer to a normal tag, in pieces: its parts, and whether a variant or a singleton is repeated.
fn normal_answer<'a>(tag: &NormalLangTag<'a>) -> [&'a str; 14]
    ensures { IsShowAnswer (normal_lang_tag_text tag.now) (flat_map (λ piece. piece.now) result) }
{
    [
        "normal language=",
        tag.language().as_str(),
        " script=",
        script_or_nothing(tag.script()),
        " region=",
        region_or_nothing(tag.region()),
        " variants=",
        tag.variants().as_str(),
        " extensions=",
        tag.extensions().as_str(),
        " private=",
        private_use_or_nothing(tag.private_use()),
        " repeats=",
        if has_repeats(tag) { "yes" } else { "no" },
    ]
}

fn script_or_nothing(script: Option<Script<'_>>) -> &str
    ensures { result.now ≡ unwrap_or (option_map script_text script.entry) [] }
{
    script.map_or("", |script| script.as_str())
}

fn region_or_nothing(region: Option<Region<'_>>) -> &str
    ensures { result.now ≡ unwrap_or (option_map region_text region.entry) [] }
{
    region.map_or("", |region| region.as_str())
}

fn private_use_or_nothing(private_use: Option<PrivateUse<'_>>) -> &str
    ensures { result.now ≡ unwrap_or (option_map private_use_text private_use.entry) [] }
{
    private_use.map_or("", |private_use| private_use.as_str())
}

/// Returns whether a variant or a singleton occurs twice in a tag.
fn has_repeats(tag: &NormalLangTag<'_>) -> bool
    ensures { EachRecord (normal_lang_tag_text tag.now) (λ r. result ≡ has_repeats r) }
{
    tag.repeated_variant().is_some() || tag.repeated_singleton().is_some()
}
