//! Language tags of every kind that own their text.
ghost use Rattle.std.specs.Prelude.{◌≡◌, ◌↔◌, ◌≤◌, ℕ, List, [], Some, IsTrue, IsNone, IsOk, IsErrOf, IfOk};
ghost use Rattle.std.specs.Prelude.{IfErr, OnOk, OnErr, is_ok, option_map, string_bytes, string_capacity};
ghost use Rattle.langtag_scan.specs.Prelude.{string_vec, SameBlock};
ghost use Rattle.langtag_text.specs.RecommendedCase.{recommended_record, recommended_text};
ghost use Rattle.langtag_scan.specs.Grammar.{IsSpelledAlike, Alike, IsFoundOf, EachRecord, spell, IsNormal, IsTag};
ghost use Rattle.langtag_language.specs.Text.{language_text};
ghost use Rattle.langtag_place.specs.Text.{script_text, region_text, variants_text};
ghost use Rattle.langtag_extension.specs.Text.{extensions_text};
ghost use Rattle.langtag_private.specs.Text.{private_use_text};
ghost use Rattle.langtag.specs.Recognised.{finding_of};
ghost use Rattle.langtag.specs.Edit.{ComesBack, with_language, with_script, with_region, with_variants};
ghost use Rattle.langtag.specs.Edit.{with_extensions, with_private_use, SetsLanguage, SetsScript};
ghost use Rattle.langtag.specs.Edit.{SetsRegion, SetsVariants, SetsExtensions, SetsPrivateUse};

use crate::edit::set_part;
use crate::lang_tag::{InvalidLangTag, LangTag};
use crate::normal_lang_tag_buf::NormalLangTagBuf;
use crate::part::Part;
use crate::recognise_text::recognise_text;
use crate::recognised::Recognised;
use crate::recommended_case::put_recommended_case;
use langtag_extension::Extensions;
use langtag_language::Language;
use langtag_place::{Region, Script, Variants};
use langtag_private::{PrivateUse, PrivateUseBuf};
use langtag_scan::Caseless;
use langtag_text::EditError;
use std::alloc::Global;
use std::fmt;

/// A language tag that owns its text. Like [`LangTag`], it stores its kind and the ends of its parts.
///
/// ```
/// use langtag::LangTag;
///
/// let owned = LangTag::new("ZH-hant")?.try_to_owned(alloc)?;
/// owned.as_lang_tag() == LangTag::new("zh-Hant")?; // true
/// owned.into_string().as_str(); // "ZH-hant"
/// ```
#[derive(Drop)]
#[derive_where(Debug, PartialEq, Eq, PartialOrd, Ord, Hash)]
pub struct LangTagBuf {
    text: Caseless<String>,
    #[derive_where(skip)]
    found: Recognised,
    ghost kept_found: { ∥ IsFoundOf (string_bytes text.0) (finding_of found) ∥₁ },
}

#[tactic(auto, using(crate::proofs::KeptFound::found_kept))]
impl LangTagBuf {
    ghost use Rattle.langtag.specs.Compared.{LangTagBufsCompareByCase};
    ghost use Rattle.langtag.specs.Kinds.{AreOfOneKind};
    ghost use Rattle.langtag.specs.Text.{lang_tag_text, lang_tag_buf_string, lang_tag_buf_text};
    ghost use Rattle.langtag.specs.Text.{normal_lang_tag_buf_string, normal_lang_tag_buf_text};

    /// Parses a `String` as a language tag and keeps it, without copying.
    ///
    /// # Errors
    ///
    /// Returns the same `String` if it is not a tag, such as `x-`.
    ///
    /// ```
    /// use langtag::LangTagBuf;
    /// use std::str::FromStr;
    ///
    /// LangTagBuf::new(String::from_str(alloc, "zh-TW")?)?.as_str(); // "zh-TW"
    /// LangTagBuf::new(String::from_str(alloc, "x-")?).is_err(); // true
    /// ```
    pub fn new(text: String) -> Result<LangTagBuf, InvalidLangTag<String>>
        ensures accepts { IsTrue (is_ok result) ↔ IsTag (string_bytes text) }
        ensures same_text { IfOk result (λ tag. lang_tag_buf_text tag ≡ string_bytes text) }
        ensures same_string { IfOk result (λ tag. lang_tag_buf_string tag ≡ text) }
        ensures given_back { IfErr result (λ error. error.0 ≡ text) }
    {
        let Some(found) = recognise_text(text.as_str()) else {
            return Err(InvalidLangTag(text));
        };
        Ok(LangTagBuf::with_found(text, found))
    }

    /// Makes a tag from a string and what the parser found in the string, without parsing the string again.
    pub(crate) fn with_found(text: String, found: Recognised) -> LangTagBuf
        requires { ∥ IsFoundOf (string_bytes text) (finding_of found) ∥₁ }
        ensures { lang_tag_buf_string result ≡ text }
    {
        LangTagBuf {
            text: Caseless(text),
            found,
        }
    }

    /// Borrows the tag, without parsing it again: `LangTag::new("x-A")?.try_to_owned(alloc)?.as_lang_tag().as_str()` is
    /// `"x-A"`.
    #[tactic(auto, using(langtag_scan::proofs::CaseOrder::bytes_ends_first))]
    pub fn as_lang_tag(&self) -> LangTag<'_>
        ensures same_text { lang_tag_text result ≡ lang_tag_buf_text self.now }
        ensures compared { LangTagBufsCompareByCase }
    {
        LangTag::with_found(self.as_str(), self.found)
    }

    /// Returns the string, in its original case: `LangTag::new("x-A")?.try_to_owned(alloc)?.as_str()` is `"x-A"`.
    pub fn as_str(&self) -> &str
        ensures same_text { result.now ≡ lang_tag_buf_text self.now }
        ensures in_class { IsTag result.now }
    {
        self.text.0.as_str()
    }

    /// Converts the tag into a [`NormalLangTagBuf`] over the same `String`, without parsing it again.
    /// [`into_lang_tag`](NormalLangTagBuf::into_lang_tag) converts back.
    ///
    /// # Errors
    ///
    /// Returns the tag if it is of another kind, such as `x-a`.
    ///
    /// ```
    /// use langtag::LangTag;
    ///
    /// LangTag::new("zh-TW")?.try_to_owned(alloc)?.into_normal().is_ok(); // true
    /// LangTag::new("x-a")?.try_to_owned(alloc)?.into_normal().is_err(); // true
    /// ```
    pub fn into_normal(self) -> Result<NormalLangTagBuf, LangTagBuf>
        ensures accepts { IsTrue (is_ok result) ↔ IsNormal (lang_tag_buf_text self) }
        ensures same_text { IfOk result (λ tag. normal_lang_tag_buf_text tag ≡ lang_tag_buf_text self) }
        ensures same_string { IfOk result (λ tag. normal_lang_tag_buf_string tag ≡ lang_tag_buf_string self) }
        ensures given_back { IfErr result (λ tag. tag ≡ self) }
    {
        let Some(ends) = self.found.ends() else {
            return Err(self);
        };
        Ok(NormalLangTagBuf::with_ends(self.text.0, ends))
    }

    /// Returns the `String`, without copying it: `LangTag::new("x-A")?.try_to_owned(alloc)?.into_string()` is `"x-A"`.
    pub fn into_string(self) -> String
        ensures same_text { string_bytes result ≡ lang_tag_buf_text self }
        ensures same_string { result ≡ lang_tag_buf_string self }
        ensures in_class { IsTag (string_bytes result) }
    {
        self.text.0
    }

    /// Changes the letters to the case that RFC 5646 section 2.1.1 recommends: `MN-cYRL-mn` becomes `mn-Cyrl-MN`, and
    /// `EN-ca-X-CA` becomes `en-CA-x-ca`.
    ///
    /// In a normal tag, the script becomes titlecase, the region uppercase, and everything else lowercase. The tag
    /// still equals the old tag, and its parts keep their offsets. It neither allocates nor parses. Equal tags become
    /// the same bytes, so the string can be a key in a store that compares bytes.
    ///
    /// ```
    /// use langtag::LangTag;
    ///
    /// let mut tag = LangTag::new("MN-cYRL-mn")?.try_to_owned(alloc)?;
    /// tag.make_recommended_case();
    /// tag.as_str(); // "mn-Cyrl-MN"
    /// ```
    #[tactic(auto, using(crate::proofs::KeptFound::ascii_found, crate::proofs::KeptFound::found_alike, langtag_text::proofs::RecommendedLaws::alike_of_recommended, langtag_text::proofs::RecommendedLaws::alike_recommended, langtag_text::proofs::RecommendedLaws::spelled_in_case, crate::proofs::KeptFound::alike_kinds, langtag_scan::proofs::CaseLaw::alike_parts))]
    pub fn make_recommended_case(&mut self)
        ensures case { lang_tag_buf_text self.new ≡ recommended_text (lang_tag_buf_text self.old) }
        ensures same_block { SameBlock (string_vec (lang_tag_buf_string self.old)) (string_vec (lang_tag_buf_string self.new)) }
        ensures record { EachRecord (lang_tag_buf_text self.old)
            (λ r. lang_tag_buf_text self.new ≡ spell (recommended_record r)) }
        ensures alike { Alike (lang_tag_buf_text self.old) (lang_tag_buf_text self.new) }
        // law: equal texts, ignoring case, are of the same kind
        ensures same_kind { AreOfOneKind (lang_tag_buf_text self.old) (lang_tag_buf_text self.new) }
        // law: equal texts, ignoring case, have equal parts at the same offsets
        ensures alike_parts { EachRecord (lang_tag_buf_text self.old) (λ r. IsSpelledAlike r (lang_tag_buf_text self.new)) }

        // law: alike texts become the same text
        ensures one_key { (t u : List ℕ) → Alike t u → recommended_text t ≡ recommended_text u }
    {
        put_recommended_case(&mut self.text.0);
    }
}

#[tactic(auto, using(crate::proofs::KeptFound::found_kept, langtag_scan::proofs::SpelledTexts::offsets_kept))]
impl LangTagBuf {
    ghost use Rattle.langtag.specs.Text.{lang_tag_buf_string, lang_tag_buf_text};

    /// Sets the language, as [`NormalLangTagBuf::set_language`] does: with `zh-yue`, `sl-IT` becomes `zh-yue-IT`.
    ///
    /// # Errors
    ///
    /// Returns `EditError::NotNormal` if the tag is not a normal tag, such as `x-a`, and `EditError::Memory` if
    /// allocation fails. The tag is then unchanged.
    ///
    /// ```
    /// use langtag::{LangTag, Language};
    ///
    /// let mut tag = LangTag::new("sl-IT")?.try_to_owned(alloc)?;
    /// tag.set_language(alloc, Language::new("zh-yue")?)?;
    /// tag.as_str(); // "zh-yue-IT"
    /// ```
    pub fn set_language(&mut self, alloc: Global, language: Language<'_>) -> Result<(), EditError>
        ensures set { OnOk result (SetsLanguage (language_text language.entry) (lang_tag_buf_text self.old)
            (lang_tag_buf_text self.new)) }
        ensures not_normal { IsErrOf result EditError.NotNormal ↔ (IsNormal (lang_tag_buf_text self.old) → ⊥) }
        ensures unchanged { OnErr result (self.new ≡ self.old) }
        ensures comes_back { OnOk result (ComesBack (λ new old. with_language new old.primary old.extended)
            (lang_tag_buf_text self.old) (lang_tag_buf_text self.new)) }

        ensures cloned { (error copy : EditError) → ⟦<EditError as Clone>⟧.is_clone error copy → copy ≡ error }
        ensures clone_succeeds { (error : EditError) → ⟦<EditError as Clone>⟧.is_infallible error }
    {
        self.put(alloc, Part::Language(language))
    }

    /// Sets or removes the script, as [`NormalLangTagBuf::set_script`] does: with `Latn`, `sl-IT` becomes `sl-Latn-IT`.
    ///
    /// # Errors
    ///
    /// Returns `EditError::NotNormal` if the tag is not a normal tag, such as `x-a`, and `EditError::Memory` if
    /// allocation fails. The tag is then unchanged.
    ///
    /// ```
    /// use langtag::{LangTag, Script};
    ///
    /// let mut tag = LangTag::new("sl-IT")?.try_to_owned(alloc)?;
    /// tag.set_script(alloc, Some(Script::new("Latn")?))?;
    /// tag.as_str(); // "sl-Latn-IT"
    /// ```
    pub fn set_script(&mut self, alloc: Global, script: Option<Script<'_>>) -> Result<(), EditError>
        ensures set { OnOk result (SetsScript (option_map script_text script.entry) (lang_tag_buf_text self.old)
            (lang_tag_buf_text self.new)) }
        // law: this error is returned if and only if the tag is not normal
        ensures not_normal { IsErrOf result EditError.NotNormal ↔ (IsNormal (lang_tag_buf_text self.old) → ⊥) }
        // law: after an error the tag is as it was
        ensures unchanged { OnErr result (self.new ≡ self.old) }
        ensures comes_back { OnOk result (ComesBack (λ new old. with_script new old.script) (lang_tag_buf_text self.old)
            (lang_tag_buf_text self.new)) }
        // law: removing a part of a normal tag is Ok
        ensures taken_out { IsNone script.entry → IsNormal (lang_tag_buf_text self.old) → IsOk result }
        ensures room_kept { IsNone script.entry → string_capacity (lang_tag_buf_string self.old)
            ≤ string_capacity (lang_tag_buf_string self.new) }
    {
        self.put(alloc, Part::Script(script))
    }

    /// Sets or removes the region, as [`NormalLangTagBuf::set_region`] does: with `AT`, `de-DE-1996` becomes
    /// `de-AT-1996`.
    ///
    /// # Errors
    ///
    /// Returns `EditError::NotNormal` if the tag is not a normal tag, such as `x-a`, and `EditError::Memory` if
    /// allocation fails. The tag is then unchanged.
    ///
    /// ```
    /// use langtag::{LangTag, Region};
    ///
    /// let mut tag = LangTag::new("de-DE-1996")?.try_to_owned(alloc)?;
    /// tag.set_region(alloc, Some(Region::new("AT")?))?;
    /// tag.as_str(); // "de-AT-1996"
    /// ```
    pub fn set_region(&mut self, alloc: Global, region: Option<Region<'_>>) -> Result<(), EditError>
        ensures set { OnOk result (SetsRegion (option_map region_text region.entry) (lang_tag_buf_text self.old)
            (lang_tag_buf_text self.new)) }
        ensures not_normal { IsErrOf result EditError.NotNormal ↔ (IsNormal (lang_tag_buf_text self.old) → ⊥) }
        ensures unchanged { OnErr result (self.new ≡ self.old) }
        ensures comes_back { OnOk result (ComesBack (λ new old. with_region new old.region) (lang_tag_buf_text self.old)
            (lang_tag_buf_text self.new)) }
        ensures taken_out { IsNone region.entry → IsNormal (lang_tag_buf_text self.old) → IsOk result }
        ensures room_kept { IsNone region.entry → string_capacity (lang_tag_buf_string self.old)
            ≤ string_capacity (lang_tag_buf_string self.new) }
    {
        self.put(alloc, Part::Region(region))
    }

    /// Sets or removes the variants, as [`NormalLangTagBuf::set_variants`] does: with `1996`, `de-AT` becomes
    /// `de-AT-1996`.
    ///
    /// # Errors
    ///
    /// Returns `EditError::NotNormal` if the tag is not a normal tag, such as `x-a`, and `EditError::Memory` if
    /// allocation fails. The tag is then unchanged.
    ///
    /// ```
    /// use langtag::{LangTag, Variants};
    ///
    /// let mut tag = LangTag::new("de-AT-1901")?.try_to_owned(alloc)?;
    /// tag.set_variants(alloc, Variants::new("1996")?)?;
    /// tag.as_str(); // "de-AT-1996"
    /// ```
    pub fn set_variants(&mut self, alloc: Global, variants: Variants<'_>) -> Result<(), EditError>
        ensures set { OnOk result (SetsVariants (variants_text variants.entry) (lang_tag_buf_text self.old)
            (lang_tag_buf_text self.new)) }
        ensures not_normal { IsErrOf result EditError.NotNormal ↔ (IsNormal (lang_tag_buf_text self.old) → ⊥) }
        ensures unchanged { OnErr result (self.new ≡ self.old) }
        ensures comes_back { OnOk result (ComesBack (λ new old. with_variants new old.variants) (lang_tag_buf_text self.old)
            (lang_tag_buf_text self.new)) }
        ensures taken_out { variants_text variants.entry ≡ [] → IsNormal (lang_tag_buf_text self.old) → IsOk result }
        ensures room_kept { variants_text variants.entry ≡ []
            → string_capacity (lang_tag_buf_string self.old) ≤ string_capacity (lang_tag_buf_string self.new) }
    {
        self.put(alloc, Part::Variants(variants))
    }

    /// Sets or removes the extensions, as [`NormalLangTagBuf::set_extensions`] does: with `u-co-eor`, `de-x-a` becomes
    /// `de-u-co-eor-x-a`.
    ///
    /// # Errors
    ///
    /// Returns `EditError::NotNormal` if the tag is not a normal tag, such as `x-a`, and `EditError::Memory` if
    /// allocation fails. The tag is then unchanged.
    ///
    /// ```
    /// use langtag::{Extensions, LangTag};
    ///
    /// let mut tag = LangTag::new("de-x-mine")?.try_to_owned(alloc)?;
    /// tag.set_extensions(alloc, Extensions::new("u-co-phonebk")?)?;
    /// tag.as_str(); // "de-u-co-phonebk-x-mine"
    /// ```
    pub fn set_extensions(
        &mut self,
        alloc: Global,
        extensions: Extensions<'_>,
    ) -> Result<(), EditError>
        ensures set { OnOk result (SetsExtensions (extensions_text extensions.entry) (lang_tag_buf_text self.old)
            (lang_tag_buf_text self.new)) }
        ensures not_normal { IsErrOf result EditError.NotNormal ↔ (IsNormal (lang_tag_buf_text self.old) → ⊥) }
        ensures unchanged { OnErr result (self.new ≡ self.old) }
        ensures comes_back { OnOk result (ComesBack (λ new old. with_extensions new old.extensions) (lang_tag_buf_text self.old)
            (lang_tag_buf_text self.new)) }
        ensures taken_out { extensions_text extensions.entry ≡ [] → IsNormal (lang_tag_buf_text self.old) → IsOk result }
        ensures room_kept { extensions_text extensions.entry ≡ []
            → string_capacity (lang_tag_buf_string self.old) ≤ string_capacity (lang_tag_buf_string self.new) }
    {
        self.put(alloc, Part::Extensions(extensions))
    }

    /// Sets or removes the private use part, as [`NormalLangTagBuf::set_private_use`] does: with `x-mine`, `de-x-a`
    /// becomes `de-x-mine`.
    ///
    /// # Errors
    ///
    /// Returns `EditError::NotNormal` if the tag is not a normal tag, such as `x-a`, and `EditError::Memory` if
    /// allocation fails. The tag is then unchanged.
    ///
    /// ```
    /// use langtag::{LangTag, PrivateUse};
    ///
    /// let mut tag = LangTag::new("de-x-a")?.try_to_owned(alloc)?;
    /// tag.set_private_use(alloc, Some(PrivateUse::new("x-mine")?))?;
    /// tag.as_str(); // "de-x-mine"
    /// ```
    pub fn set_private_use(
        &mut self,
        alloc: Global,
        private_use: Option<PrivateUse<'_>>,
    ) -> Result<(), EditError>
        ensures set { OnOk result (SetsPrivateUse (option_map private_use_text private_use.entry) (lang_tag_buf_text self.old)
            (lang_tag_buf_text self.new)) }
        ensures not_normal { IsErrOf result EditError.NotNormal ↔ (IsNormal (lang_tag_buf_text self.old) → ⊥) }
        ensures unchanged { OnErr result (self.new ≡ self.old) }
        ensures comes_back { OnOk result (ComesBack (λ new old. with_private_use new old.private_use) (lang_tag_buf_text self.old)
            (lang_tag_buf_text self.new)) }
        ensures taken_out { IsNone private_use.entry → IsNormal (lang_tag_buf_text self.old) → IsOk result }
        ensures room_kept { IsNone private_use.entry
            → string_capacity (lang_tag_buf_string self.old) ≤ string_capacity (lang_tag_buf_string self.new) }
    {
        self.put(alloc, Part::PrivateUse(private_use))
    }
}

#[tactic(auto, using(crate::proofs::EditLaws::part_comes_back, crate::proofs::KeptFound::found_kept, langtag_scan::proofs::SpelledTexts::offsets_kept))]
impl LangTagBuf {
    ghost use Rattle.langtag.specs.Edit.{SetsPart, ComesBack, with_old_part};
    ghost use Rattle.langtag.specs.Text.{lang_tag_buf_string, lang_tag_buf_text, part_text};

    /// Sets a part of a normal tag, or removes it.
    fn put(&mut self, alloc: Global, part: Part<'_>) -> Result<(), EditError>
        ensures set { OnOk result (SetsPart part.entry (lang_tag_buf_text self.old) (lang_tag_buf_text self.new)) }
        ensures comes_back { OnOk result (ComesBack (with_old_part part.entry) (lang_tag_buf_text self.old)
            (lang_tag_buf_text self.new)) }
        ensures not_normal { IsErrOf result EditError.NotNormal ↔ (IsNormal (lang_tag_buf_text self.old) → ⊥) }
        ensures unchanged { OnErr result (self.new ≡ self.old) }
        ensures taken_out { part_text part.entry ≡ [] → IsNormal (lang_tag_buf_text self.old) → IsOk result }
        ensures room_kept { part_text part.entry ≡ []
            → string_capacity (lang_tag_buf_string self.old) ≤ string_capacity (lang_tag_buf_string self.new) }
    {
        let Some(ends) = self.found.ends() else {
            return Err(EditError::NotNormal);
        };
        let ends = set_part(&mut self.text.0, ends, alloc, part)?;
        self.found = Recognised::Normal(ends);
        Ok(())
    }
}

impl From<NormalLangTagBuf> for LangTagBuf {
    ghost use Rattle.langtag.specs.Text.{normal_lang_tag_buf_string, lang_tag_buf_string};

    ghost from_gives = { λ normal tag. lang_tag_buf_string tag ≡ normal_lang_tag_buf_string normal };

    fn from(tag: NormalLangTagBuf) -> LangTagBuf {
        tag.into_lang_tag()
    }
}

#[tactic(auto, using(langtag_scan::proofs::TagLaws::tag_private))]
impl From<PrivateUseBuf> for LangTagBuf {
    ghost use Rattle.langtag_private.specs.Text.{private_use_buf_string};
    ghost use Rattle.langtag.specs.Text.{lang_tag_buf_string};

    ghost from_gives = { λ private_use tag. lang_tag_buf_string tag ≡ private_use_buf_string private_use };

    fn from(tag: PrivateUseBuf) -> LangTagBuf {
        LangTagBuf::with_found(tag.into_string(), Recognised::PrivateUse)
    }
}

impl fmt::Display for LangTagBuf {
    ghost use Rattle.langtag.specs.Text.{lang_tag_buf_text};

    ghost output = { λ tag. Some (lang_tag_buf_text tag) };

    fn fmt<W: fmt::Write>(&self, f: &mut fmt::Formatter<W>) -> fmt::Result {
        f.write_str(self.as_str())
    }
}
