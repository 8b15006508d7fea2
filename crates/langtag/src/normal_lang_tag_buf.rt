//! Normal tags that own their text.
ghost use Rattle.std.specs.Prelude.{◌≡◌, ◌↔◌, ◌≤◌, ℕ, List, [], Option, Some, IsTrue, IsNone, IsOk, IfOk};
ghost use Rattle.std.specs.Prelude.{IfErr, OnOk, OnErr, is_ok, option_map, string_bytes, string_capacity};
ghost use Rattle.langtag_scan.specs.Prelude.{string_vec, SameBlock};
ghost use Rattle.langtag_text.specs.RecommendedCase.{recommended_record, recommended_text};
ghost use Rattle.langtag_scan.specs.Grammar.{IsSpelledAlike, Alike, HasEnds, language_part, variants_part, extensions_part};
ghost use Rattle.langtag_scan.specs.Grammar.{private_use_part, EachRecord, Extension, Spells, spell, IsNormal};
ghost use Rattle.langtag_scan.specs.Record as model;
ghost use Rattle.langtag_language.specs.Language.{EachLanguageSpelling};
ghost use Rattle.langtag_language.specs.Text.{language_text};
ghost use Rattle.langtag_place.specs.Text.{script_text, region_text, variants_text};
ghost use Rattle.langtag_extension.specs.Text.{extensions_text};
ghost use Rattle.langtag_private.specs.Text.{private_use_text};
ghost use Rattle.langtag.specs.Edit.{GivesBack, ComesBack, of_parts, with_language, with_script, with_region};
ghost use Rattle.langtag.specs.Edit.{with_variants, with_extensions, with_private_use, SetsLanguage, SetsScript};
ghost use Rattle.langtag.specs.Edit.{SetsRegion, SetsVariants, SetsExtensions, SetsPrivateUse};

use crate::edit::set_part;
use crate::lang_tag_buf::LangTagBuf;
use crate::lengths::{Lengths, length_with_hyphen};
use crate::normal_lang_tag::{InvalidNormalLangTag, NormalLangTag};
use crate::part::Part;
use crate::recognise_text::normal_ends;
use crate::recognised::Recognised;
use crate::recommended_case::put_recommended_case;
use crate::text_of_parts::join_parts;
use langtag_extension::Extensions;
use langtag_language::Language;
use langtag_place::{Region, Script, Variants};
use langtag_private::PrivateUse;
use langtag_scan::{Caseless, Ends};
use std::alloc::{AllocError, Global};
use std::fmt;

/// A normal tag that owns its text. Like [`NormalLangTag`], it stores where its parts end.
///
/// ```
/// use langtag::NormalLangTag;
///
/// let owned = NormalLangTag::new("sl-IT")?.try_to_owned(alloc)?;
/// owned.as_normal_lang_tag().language().as_str(); // "sl"
/// owned.into_string().as_str(); // "sl-IT"
/// ```
#[derive(Drop)]
#[derive_where(Debug, PartialEq, Eq, PartialOrd, Ord, Hash)]
pub struct NormalLangTagBuf {
    text: Caseless<String>,
    #[derive_where(skip)]
    ends: Ends,
    ghost kept_ends: { ∥ HasEnds (string_bytes text.0) ends ∥₁ },
}

#[tactic(auto, using(langtag_scan::proofs::SpelledTexts::offsets_kept))]
impl NormalLangTagBuf {
    ghost use Rattle.langtag.specs.Compared.{NormalLangTagBufsCompareByCase};
    ghost use Rattle.langtag.specs.Text.{normal_lang_tag_text, normal_lang_tag_buf_string};
    ghost use Rattle.langtag.specs.Text.{normal_lang_tag_buf_text, lang_tag_buf_string, lang_tag_buf_text};

    /// Parses a `String` as a normal tag and keeps it, without copying.
    ///
    /// # Errors
    ///
    /// Returns the same `String` if it is not a normal tag, such as `x-a`.
    ///
    /// ```
    /// use langtag::NormalLangTagBuf;
    /// use std::str::FromStr;
    ///
    /// NormalLangTagBuf::new(String::from_str(alloc, "zh-TW")?)?.as_str(); // "zh-TW"
    /// NormalLangTagBuf::new(String::from_str(alloc, "x-a")?).is_err(); // true
    /// ```
    pub fn new(text: String) -> Result<NormalLangTagBuf, InvalidNormalLangTag<String>>
        ensures accepts { IsTrue (is_ok result) ↔ IsNormal (string_bytes text) }
        ensures same_text { IfOk result (λ tag. normal_lang_tag_buf_text tag ≡ string_bytes text) }
        ensures same_string { IfOk result (λ tag. normal_lang_tag_buf_string tag ≡ text) }
        ensures given_back { IfErr result (λ error. error.0 ≡ text) }
    {
        let Some(ends) = normal_ends(text.as_str()) else {
            return Err(InvalidNormalLangTag(text));
        };
        Ok(NormalLangTagBuf::with_ends(text, ends))
    }

    /// Returns the normal tag with a language, a script and a region, and no other parts: `zh-Hant-TW` for `zh`, `Hant`
    /// and `TW`. It allocates once, exactly the length of the string.
    ///
    /// # Errors
    ///
    /// Returns an error if allocation fails.
    ///
    /// ```
    /// use langtag::{Language, NormalLangTagBuf, Script};
    ///
    /// let script = Script::new("Hant")?;
    /// let tag = NormalLangTagBuf::from_parts(alloc, Language::new("zh")?, Some(script), None)?;
    /// tag.as_str(); // "zh-Hant"
    /// ```
    pub fn from_parts(
        alloc: Global,
        language: Language<'_>,
        script: Option<Script<'_>>,
        region: Option<Region<'_>>,
    ) -> Result<NormalLangTagBuf, AllocError>
        ensures { IfOk result (λ tag. EachLanguageSpelling (language_text language.entry) (λ primary extended.
            Spells (of_parts primary extended (option_map script_text script.entry) (option_map region_text region.entry))
            (normal_lang_tag_buf_text tag))) }
    {
        let language = language.as_str();
        let script = Part::Script(script).as_str();
        let region = Part::Region(region).as_str();
        let lengths = Lengths {
            language: language.len(),
            script: length_with_hyphen(script),
            region: length_with_hyphen(region),
            variants: 0,
            extensions: 0,
            private_use: 0,
        };
        let ends = lengths.ends();
        let whole = join_parts(alloc, ends.whole, language, script, region)?;
        Ok(NormalLangTagBuf::with_ends(whole, ends))
    }

    /// Makes a normal tag from a string whose parts are known to end at these offsets, without parsing the string
    /// again.
    pub(crate) fn with_ends(text: String, ends: Ends) -> NormalLangTagBuf
        requires { ∥ HasEnds (string_bytes text) ends ∥₁ }
        ensures { normal_lang_tag_buf_string result ≡ text }
    {
        NormalLangTagBuf {
            text: Caseless(text),
            ends,
        }
    }

    /// Borrows the tag, without parsing it again:
    /// `NormalLangTag::new("ZH-tw")?.try_to_owned(alloc)?.as_normal_lang_tag().as_str()` is `"ZH-tw"`.
    #[tactic(auto, using(langtag_scan::proofs::CaseOrder::bytes_ends_first))]
    pub fn as_normal_lang_tag(&self) -> NormalLangTag<'_>
        ensures same_text { normal_lang_tag_text result ≡ normal_lang_tag_buf_text self.now }
        ensures compared { NormalLangTagBufsCompareByCase }
    {
        NormalLangTag::with_ends(self.as_str(), self.ends)
    }

    /// Returns the string, in its original case: `NormalLangTag::new("ZH-tw")?.try_to_owned(alloc)?.as_str()` is
    /// `"ZH-tw"`.
    pub fn as_str(&self) -> &str
        ensures same_text { result.now ≡ normal_lang_tag_buf_text self.now }
        ensures in_class { IsNormal result.now }
    {
        self.text.0.as_str()
    }

    /// Converts the tag into a [`LangTagBuf`] over the same `String`, without parsing it again.
    ///
    /// ```
    /// use langtag::NormalLangTag;
    ///
    /// let tag = NormalLangTag::new("zh-TW")?.try_to_owned(alloc)?;
    /// tag.into_lang_tag().as_str(); // "zh-TW"
    /// ```
    pub fn into_lang_tag(self) -> LangTagBuf
        ensures same_text { lang_tag_buf_text result ≡ normal_lang_tag_buf_text self }
        ensures same_string { lang_tag_buf_string result ≡ normal_lang_tag_buf_string self }
        ensures kind { IsNormal (lang_tag_buf_text result) }
    {
        LangTagBuf::with_found(self.text.0, Recognised::Normal(self.ends))
    }

    /// Returns the `String`, without copying it: `NormalLangTag::new("ZH-tw")?.try_to_owned(alloc)?.into_string()` is
    /// `"ZH-tw"`.
    pub fn into_string(self) -> String
        ensures same_text { string_bytes result ≡ normal_lang_tag_buf_text self }
        ensures same_string { result ≡ normal_lang_tag_buf_string self }
        ensures in_class { IsNormal (string_bytes result) }
    {
        self.text.0
    }

    /// Changes the letters to the case that RFC 5646 section 2.1.1 recommends, as [`LangTagBuf::make_recommended_case`]
    /// does: `MN-cYRL-mn` becomes `mn-Cyrl-MN`. It does not allocate, and parses nothing.
    ///
    /// ```
    /// use langtag::NormalLangTag;
    ///
    /// let mut tag = NormalLangTag::new("MN-cYRL-mn")?.try_to_owned(alloc)?;
    /// tag.make_recommended_case();
    /// tag.as_str(); // "mn-Cyrl-MN"
    /// ```
    pub fn make_recommended_case(&mut self)
        ensures case { normal_lang_tag_buf_text self.new ≡ recommended_text (normal_lang_tag_buf_text self.old) }
        ensures same_block { SameBlock (string_vec (normal_lang_tag_buf_string self.old))
            (string_vec (normal_lang_tag_buf_string self.new)) }
        ensures record { EachRecord (normal_lang_tag_buf_text self.old)
            (λ r. normal_lang_tag_buf_text self.new ≡ spell (recommended_record r)) }
        ensures alike { Alike (normal_lang_tag_buf_text self.old) (normal_lang_tag_buf_text self.new) }
        // law: equal texts, ignoring case, have equal parts at the same offsets
        ensures alike_parts { EachRecord (normal_lang_tag_buf_text self.old)
            (λ r. IsSpelledAlike r (normal_lang_tag_buf_text self.new)) }
    {
        put_recommended_case(&mut self.text.0);
    }

    /// Sets the language, with its extended subtags (RFC 5646 sections 2.2.1 and 2.2.2): with `zh-yue`, `sl-IT` becomes
    /// `zh-yue-IT`.
    ///
    /// It allocates as [`set_script`](NormalLangTagBuf::set_script) does.
    ///
    /// # Errors
    ///
    /// Returns an error if allocation fails. The tag is then unchanged.
    ///
    /// ```
    /// use langtag::{Language, NormalLangTag};
    ///
    /// let mut tag = NormalLangTag::new("sl-IT")?.try_to_owned(alloc)?;
    /// tag.set_language(alloc, Language::new("zh-yue")?)?;
    /// tag.as_str(); // "zh-yue-IT"
    /// ```
    pub fn set_language(&mut self, alloc: Global, language: Language<'_>) -> Result<(), AllocError>
        ensures set { OnOk result (SetsLanguage (language_text language.entry) (normal_lang_tag_buf_text self.old)
            (normal_lang_tag_buf_text self.new)) }
        ensures unchanged { OnErr result (self.new ≡ self.old) }
        ensures comes_back { OnOk result (ComesBack (λ new old. with_language new old.primary old.extended)
            (normal_lang_tag_buf_text self.old) (normal_lang_tag_buf_text self.new)) }
        ensures set_back { GivesBack (List ℕ × List (List ℕ)) (λ r m. with_language r m.0 m.1)
            (λ r. SetsLanguage (language_part r)) }
    {
        self.put(alloc, Part::Language(language))
    }

    /// Sets the script, or removes it if `None` is given (RFC 5646 section 2.2.3): with `Latn`, `sl-IT` becomes
    /// `sl-Latn-IT`.
    ///
    /// The new string is complete before the old string is dropped. Removing the script does not allocate. The stored
    /// ends of the parts are adjusted, so nothing is parsed again.
    ///
    /// # Errors
    ///
    /// Returns an error if allocation fails. The tag is then unchanged.
    ///
    /// ```
    /// use langtag::{NormalLangTag, Script};
    ///
    /// let mut tag = NormalLangTag::new("sl-IT")?.try_to_owned(alloc)?;
    /// tag.set_script(alloc, Some(Script::new("Latn")?))?;
    /// tag.as_str(); // "sl-Latn-IT"
    /// ```
    pub fn set_script(
        &mut self,
        alloc: Global,
        script: Option<Script<'_>>,
    ) -> Result<(), AllocError>
        ensures set { OnOk result (SetsScript (option_map script_text script.entry) (normal_lang_tag_buf_text self.old)
            (normal_lang_tag_buf_text self.new)) }
        // law: after an error the tag is as it was
        ensures unchanged { OnErr result (self.new ≡ self.old) }
        ensures comes_back { OnOk result (ComesBack (λ new old. with_script new old.script) (normal_lang_tag_buf_text self.old)
            (normal_lang_tag_buf_text self.new)) }
        // law: removing a part of a normal tag is Ok
        ensures taken_out { IsNone script.entry → IsOk result }
        ensures room_kept { IsNone script.entry → string_capacity (normal_lang_tag_buf_string self.old)
            ≤ string_capacity (normal_lang_tag_buf_string self.new) }
        // law: setting the old part again restores the old text
        ensures set_back { GivesBack (Option (List ℕ)) with_script (λ r. SetsScript r.script) }
    {
        self.put(alloc, Part::Script(script))
    }

    /// Sets the region, or removes it if `None` is given (RFC 5646 section 2.2.4): with `AT`, `de-DE-1996` becomes
    /// `de-AT-1996`.
    ///
    /// It allocates as [`set_script`](NormalLangTagBuf::set_script) does.
    ///
    /// # Errors
    ///
    /// Returns an error if allocation fails. The tag is then unchanged.
    ///
    /// ```
    /// use langtag::{NormalLangTag, Region};
    ///
    /// let mut tag = NormalLangTag::new("de-DE-1996")?.try_to_owned(alloc)?;
    /// tag.set_region(alloc, Some(Region::new("AT")?))?;
    /// tag.as_str(); // "de-AT-1996"
    /// ```
    pub fn set_region(
        &mut self,
        alloc: Global,
        region: Option<Region<'_>>,
    ) -> Result<(), AllocError>
        ensures set { OnOk result (SetsRegion (option_map region_text region.entry) (normal_lang_tag_buf_text self.old)
            (normal_lang_tag_buf_text self.new)) }
        ensures unchanged { OnErr result (self.new ≡ self.old) }
        ensures comes_back { OnOk result (ComesBack (λ new old. with_region new old.region) (normal_lang_tag_buf_text self.old)
            (normal_lang_tag_buf_text self.new)) }
        ensures taken_out { IsNone region.entry → IsOk result }
        ensures room_kept { IsNone region.entry → string_capacity (normal_lang_tag_buf_string self.old)
            ≤ string_capacity (normal_lang_tag_buf_string self.new) }
        ensures set_back { GivesBack (Option (List ℕ)) with_region (λ r. SetsRegion r.region) }
    {
        self.put(alloc, Part::Region(region))
    }

    /// Replaces all variants (RFC 5646 section 2.2.5): with `1996`, `de-AT-1901` becomes `de-AT-1996`.
    /// [`Variants::EMPTY`] removes them, without allocating.
    ///
    /// It allocates as [`set_script`](NormalLangTagBuf::set_script) does.
    ///
    /// # Errors
    ///
    /// Returns an error if allocation fails. The tag is then unchanged.
    ///
    /// ```
    /// use langtag::{NormalLangTag, Variants};
    ///
    /// let mut tag = NormalLangTag::new("de-AT-1901")?.try_to_owned(alloc)?;
    /// tag.set_variants(alloc, Variants::new("1996")?)?;
    /// tag.as_str(); // "de-AT-1996"
    /// ```
    pub fn set_variants(&mut self, alloc: Global, variants: Variants<'_>) -> Result<(), AllocError>
        ensures set { OnOk result (SetsVariants (variants_text variants.entry) (normal_lang_tag_buf_text self.old)
            (normal_lang_tag_buf_text self.new)) }
        ensures unchanged { OnErr result (self.new ≡ self.old) }
        ensures comes_back { OnOk result (ComesBack (λ new old. with_variants new old.variants)
            (normal_lang_tag_buf_text self.old) (normal_lang_tag_buf_text self.new)) }
        ensures taken_out { variants_text variants.entry ≡ [] → IsOk result }
        ensures room_kept { variants_text variants.entry ≡ []
            → string_capacity (normal_lang_tag_buf_string self.old) ≤ string_capacity (normal_lang_tag_buf_string self.new) }
        ensures set_back { GivesBack (List (List ℕ)) with_variants (λ r. SetsVariants (variants_part r)) }
    {
        self.put(alloc, Part::Variants(variants))
    }

    /// Replaces all extensions (RFC 5646 section 2.2.6): with `u-co-phonebk`, `de-x-mine` becomes
    /// `de-u-co-phonebk-x-mine`. [`Extensions::EMPTY`] removes them, without allocating.
    ///
    /// It allocates as [`set_script`](NormalLangTagBuf::set_script) does.
    ///
    /// # Errors
    ///
    /// Returns an error if allocation fails. The tag is then unchanged.
    ///
    /// ```
    /// use langtag::{Extensions, NormalLangTag};
    ///
    /// let mut tag = NormalLangTag::new("de-x-mine")?.try_to_owned(alloc)?;
    /// tag.set_extensions(alloc, Extensions::new("u-co-phonebk")?)?;
    /// tag.as_str(); // "de-u-co-phonebk-x-mine"
    /// ```
    pub fn set_extensions(
        &mut self,
        alloc: Global,
        extensions: Extensions<'_>,
    ) -> Result<(), AllocError>
        ensures set { OnOk result (SetsExtensions (extensions_text extensions.entry) (normal_lang_tag_buf_text self.old)
            (normal_lang_tag_buf_text self.new)) }
        ensures unchanged { OnErr result (self.new ≡ self.old) }
        ensures comes_back { OnOk result (ComesBack (λ new old. with_extensions new old.extensions)
            (normal_lang_tag_buf_text self.old) (normal_lang_tag_buf_text self.new)) }
        ensures taken_out { extensions_text extensions.entry ≡ [] → IsOk result }
        ensures room_kept { extensions_text extensions.entry ≡ []
            → string_capacity (normal_lang_tag_buf_string self.old) ≤ string_capacity (normal_lang_tag_buf_string self.new) }
        ensures set_back { GivesBack (List Extension) with_extensions (λ r. SetsExtensions (extensions_part r)) }
    {
        self.put(alloc, Part::Extensions(extensions))
    }

    /// Sets the private use part, or removes it if `None` is given (RFC 5646 section 2.2.7): with `x-mine`, `de-x-a`
    /// becomes `de-x-mine`.
    ///
    /// It allocates as [`set_script`](NormalLangTagBuf::set_script) does.
    ///
    /// # Errors
    ///
    /// Returns an error if allocation fails. The tag is then unchanged.
    ///
    /// ```
    /// use langtag::{NormalLangTag, PrivateUse};
    ///
    /// let mut tag = NormalLangTag::new("de-x-a")?.try_to_owned(alloc)?;
    /// tag.set_private_use(alloc, Some(PrivateUse::new("x-mine")?))?;
    /// tag.as_str(); // "de-x-mine"
    /// ```
    pub fn set_private_use(
        &mut self,
        alloc: Global,
        private_use: Option<PrivateUse<'_>>,
    ) -> Result<(), AllocError>
        ensures set { OnOk result (SetsPrivateUse (option_map private_use_text private_use.entry)
            (normal_lang_tag_buf_text self.old) (normal_lang_tag_buf_text self.new)) }
        ensures unchanged { OnErr result (self.new ≡ self.old) }
        ensures comes_back { OnOk result (ComesBack (λ new old. with_private_use new old.private_use)
            (normal_lang_tag_buf_text self.old) (normal_lang_tag_buf_text self.new)) }
        ensures taken_out { IsNone private_use.entry → IsOk result }
        ensures room_kept { IsNone private_use.entry
            → string_capacity (normal_lang_tag_buf_string self.old) ≤ string_capacity (normal_lang_tag_buf_string self.new) }
        ensures set_back { GivesBack (Option model.PrivateUse) with_private_use (λ r. SetsPrivateUse (private_use_part r)) }
    {
        self.put(alloc, Part::PrivateUse(private_use))
    }
}

#[tactic(auto, using(crate::proofs::EditLaws::part_comes_back, langtag_scan::proofs::SpelledTexts::offsets_kept))]
impl NormalLangTagBuf {
    ghost use Rattle.langtag.specs.Edit.{SetsPart, ComesBack, with_old_part};
    ghost use Rattle.langtag.specs.Text.{normal_lang_tag_buf_string, normal_lang_tag_buf_text, part_text};

    /// Sets a part of the tag, or removes it.
    fn put(&mut self, alloc: Global, part: Part<'_>) -> Result<(), AllocError>
        ensures set { OnOk result (SetsPart part.entry (normal_lang_tag_buf_text self.old) (normal_lang_tag_buf_text self.new)) }
        ensures comes_back { OnOk result (ComesBack (with_old_part part.entry) (normal_lang_tag_buf_text self.old)
            (normal_lang_tag_buf_text self.new)) }
        ensures unchanged { OnErr result (self.new ≡ self.old) }
        ensures taken_out { part_text part.entry ≡ [] → IsOk result }
        ensures room_kept { part_text part.entry ≡ []
            → string_capacity (normal_lang_tag_buf_string self.old) ≤ string_capacity (normal_lang_tag_buf_string self.new) }
    {
        self.ends = set_part(&mut self.text.0, self.ends, alloc, part)?;
        Ok(())
    }
}

impl fmt::Display for NormalLangTagBuf {
    ghost use Rattle.langtag.specs.Text.{normal_lang_tag_buf_text};

    ghost output = { λ tag. Some (normal_lang_tag_buf_text tag) };

    fn fmt<W: fmt::Write>(&self, f: &mut fmt::Formatter<W>) -> fmt::Result {
        f.write_str(self.as_str())
    }
}
