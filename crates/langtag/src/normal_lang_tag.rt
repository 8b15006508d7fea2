//! Normal tags, which are made of parts: rule `langtag` of RFC 5646 section 2.1.
ghost use Rattle.std.specs.Prelude.{◌≡◌, ◌↔◌, ◌<◌, ◌≤◌, ◌^◌, ℕ, List, [], Some, IsTrue, IfOk};
ghost use Rattle.std.specs.Prelude.{IfErr, is_ok, length, take, map, unwrap_or, option_map};
ghost use Rattle.langtag_text.specs.RecommendedCase.{recommended_text};
ghost use Rattle.langtag_text.specs.Text.{in_recommended_case_text};
ghost use Rattle.langtag_scan.specs.Grammar.{IsSpelledAlike, EndsFirst, are_alike, case_cmp, ends_of, HasEnds};
ghost use Rattle.langtag_scan.specs.Grammar.{language_part, variants_part, extensions_part, private_use_part};
ghost use Rattle.langtag_scan.specs.Grammar.{private_use_subtags, parts, text_between, Record, EachRecord};
ghost use Rattle.langtag_scan.specs.Grammar.{IsWellFormed, flat, spell, join, subtags, IsNormal};
ghost use Rattle.langtag.specs.Edit.{base_record};
ghost use Rattle.langtag.specs.Offsets.{PartsStandIn};
ghost use Rattle.langtag_place.specs.Repeat.{repeat, repeat_index, IsFirstRepeat, IsFirstRepeatAt, are_alike_bytes};

use crate::lang_tag::LangTag;
use crate::normal_lang_tag_buf::NormalLangTagBuf;
use crate::recognise_text::normal_ends;
use crate::recognised::Recognised;
use crate::repeats::first_repeated_singleton;
use langtag_extension::{Extensions, Singleton};
use langtag_language::Language;
use langtag_place::{Region, Script, Variant, Variants, first_repeated_variant};
use langtag_private::{PrivateUse, PrivateUseIter};
use langtag_scan::{Caseless, Ends, Subtags};
use langtag_text::{InRecommendedCase, is_in_recommended_case};
use std::alloc::{AllocError, Global};
use std::cmp::Ordering;
use std::fmt;
use std::fmt::Debug;
use thiserror::Error;

/// The error for a string that is not a normal tag. It contains the string.
///
/// ```
/// use langtag::NormalLangTag;
///
/// let error = NormalLangTag::new("x-a").err();
/// error.map(|error| error.0); // Some("x-a")
/// ```
#[derive(Debug, Drop, Error)]
#[error("invalid normal language tag")]
#[error_bound(T: Debug + Drop)]
pub struct InvalidNormalLangTag<T>(pub T);

/// A normal language tag, which follows the rule `langtag` of RFC 5646 section 2.1. It has a language, and may have a
/// script, a region, variants, extensions and a private use part, as `sl-Latn-IT-rozaj-u-co-phonebk-x-mine` does.
///
/// It stores where its parts end, so each part is a slice of the string. Two tags are equal if their strings differ
/// only in the case of ASCII letters.
///
/// ```
/// use langtag::NormalLangTag;
///
/// let tag = NormalLangTag::new("sl-Latn-IT-rozaj-u-co-phonebk-x-mine")?;
/// tag.language().as_str(); // "sl"
/// tag.extensions().as_str(); // "u-co-phonebk"
/// tag.private_use().map(|part| part.as_str()); // Some("x-mine")
/// ```
#[derive(Clone, Copy)]
#[derive_where(Debug, PartialEq, Eq, PartialOrd, Ord, Hash)]
pub struct NormalLangTag<'a> {
    text: Caseless<&'a str>,
    #[derive_where(skip)]
    ends: Ends,
    ghost kept_ends: { ∥ HasEnds text.0.now ends ∥₁ },
}

#[tactic(auto, using(langtag_scan::proofs::SpelledTexts::offsets_kept))]
impl<'a> NormalLangTag<'a> {
    ghost use Rattle.langtag_language.specs.Text.{language_text};
    ghost use Rattle.langtag_place.specs.Text.{script_text, region_text, variant_text, variants_text};
    ghost use Rattle.langtag_extension.specs.Text.{singleton_byte, extensions_text};
    ghost use Rattle.langtag_private.specs.Text.{private_use_text, private_use_subtags_left};
    ghost use Rattle.langtag.specs.Compared.{NormalLangTagsCompareByCase};
    ghost use Rattle.langtag.specs.Text.{lang_tag_text, normal_lang_tag_text, normal_lang_tag_buf_text};

    /// Parses a string as a normal tag.
    ///
    /// A normal tag splits into its parts in only one way, and the parts, joined by hyphens, are the whole string.
    ///
    /// # Errors
    ///
    /// Returns the string if it is not a normal tag, such as `sl_IT`, or `x-a`, which is a tag of another kind.
    ///
    /// ```
    /// use langtag::NormalLangTag;
    ///
    /// NormalLangTag::new("sl-IT-rozaj").is_ok(); // true
    /// NormalLangTag::new("x-a").err().map(|error| error.0); // Some("x-a")
    /// ```
    pub fn new(text: &'a str) -> Result<NormalLangTag<'a>, InvalidNormalLangTag<&'a str>>
        ensures accepts { IsTrue (is_ok result) ↔ IsNormal text.now }
        ensures same_text { IfOk result (λ tag. normal_lang_tag_text tag ≡ text.now) }
        ensures given_back { IfErr result (λ error. error.0 ≡ text.entry) }

        // law: a text has at most one record
        ensures one_record { (r q : Record) → IsWellFormed r → IsWellFormed q → spell r ≡ spell q → r ≡ q }
        // law: the parts, joined, are the text
        ensures joined_parts { (r : Record) → IsWellFormed r → join (parts r) ≡ spell r }
        // law: where each part is in it
        ensures part_offsets { (r : Record) → PartsStandIn (spell r) r }
    {
        let Some(ends) = normal_ends(text) else {
            return Err(InvalidNormalLangTag(text));
        };
        Ok(NormalLangTag::with_ends(text, ends))
    }

    /// Wraps a string that is known to be a normal tag: `NormalLangTag::from_checked(tag.as_str())` equals `tag`. It
    /// parses the string again to find the parts.
    pub fn from_checked(text: &'a str) -> NormalLangTag<'a>
        requires { IsNormal text.now }
        ensures { normal_lang_tag_text result ≡ text.now }
    {
        let Some(ends) = normal_ends(text) else {
            unreachable!()
        };
        NormalLangTag::with_ends(text, ends)
    }

    /// Makes a normal tag from a string whose parts are known to end at these offsets, without parsing the string
    /// again.
    pub(crate) fn with_ends(text: &'a str, ends: Ends) -> NormalLangTag<'a>
        requires { ∥ HasEnds text.now ends ∥₁ }
        ensures { normal_lang_tag_text result ≡ text.now }
    {
        NormalLangTag {
            text: Caseless(text),
            ends,
        }
    }

    /// Returns the string, in its original case.
    ///
    /// ```
    /// use langtag::NormalLangTag;
    ///
    /// NormalLangTag::new("SL-it")?.as_str(); // "SL-it"
    /// ```
    pub fn as_str(&self) -> &'a str
        ensures same_text { result.now ≡ normal_lang_tag_text self.now }
        ensures in_class { IsNormal result.now }
    {
        self.text.0
    }

    /// Returns the string as bytes.
    ///
    /// ```
    /// use langtag::NormalLangTag;
    ///
    /// NormalLangTag::new("sl-IT")?.as_bytes(); // b"sl-IT"
    /// ```
    pub fn as_bytes(&self) -> &'a [u8]
        ensures { result.now ≡ normal_lang_tag_text self.now }
    {
        self.as_str().as_bytes()
    }

    /// Returns an iterator over all subtags, from either end: `sl`, `Latn` and `IT` for `sl-Latn-IT`.
    ///
    /// ```
    /// use langtag::NormalLangTag;
    ///
    /// let tag = NormalLangTag::new("sl-Latn-IT")?;
    /// let mut subtags = tag.subtags();
    /// subtags.next(); // Some("sl")
    /// subtags.next_back(); // Some("IT")
    /// ```
    #[tactic(auto, using(langtag_scan::proofs::SpelledTexts::tag_subtags))]
    pub fn subtags(&self) -> Subtags<'a>
        ensures list { result ≡ subtags (normal_lang_tag_text self.now) }
        ensures record { EachRecord (normal_lang_tag_text self.now) (λ r. result ≡ flat r) }
        ensures few { length result < 2 ^ 64 }
    {
        Subtags::new(self.as_str())
    }

    /// Returns whether another string equals this tag, ignoring the case of ASCII letters. A string that is equal is a
    /// normal tag, too. The parts of both are equal, ignoring case, and are at the same offsets.
    ///
    /// Comparisons and hashes of normal tags also ignore case. A tag sorts after every longer tag that begins with its
    /// text: `sl` sorts after `sl-IT`.
    ///
    /// ```
    /// use langtag::NormalLangTag;
    ///
    /// NormalLangTag::new("sl-IT")?.eq_str("SL-it"); // true
    /// ```
    #[tactic(auto, using(langtag_scan::proofs::CaseOrder::bytes_ends_first, crate::proofs::OrderLaws::normal_ends_first, crate::proofs::KeptFound::alike_laws))]
    pub fn eq_str(&self, other: &str) -> bool
        ensures test { result ≡ are_alike (normal_lang_tag_text self.now) other.now }
        // law: equal texts, ignoring case, have equal parts at the same offsets
        ensures alike_parts { IsTrue result → EachRecord (normal_lang_tag_text self.now) (λ r. IsSpelledAlike r other.now) }

        ensures compared { NormalLangTagsCompareByCase }
        ensures cloned { (copy : NormalLangTag) → ⟦<NormalLangTag<'a> as Clone>⟧.is_clone self.now copy → copy ≡ self.now }
        ensures clone_succeeds { ⟦<NormalLangTag<'a> as Clone>⟧.is_infallible self.now }
        // law: a text is greater than every longer text that begins with it
        ensures ends_first { (t u : List ℕ) → IsNormal u → EndsFirst t u → case_cmp t u ≡ Ordering.Greater }
    {
        self.text == Caseless(other)
    }

    /// Returns the tag as a [`LangTag`], without parsing it again.
    ///
    /// ```
    /// use langtag::{Kind, NormalLangTag};
    ///
    /// NormalLangTag::new("sl-IT")?.as_lang_tag().kind(); // Kind::Normal
    /// ```
    pub fn as_lang_tag(&self) -> LangTag<'a>
        ensures same_text { lang_tag_text result ≡ normal_lang_tag_text self.now }
        ensures kind { IsNormal (lang_tag_text result) }
    {
        LangTag::with_found(self.as_str(), Recognised::Normal(self.ends))
    }

    /// Returns where the parts end, in bytes from the start of the string. In `sl-IT`, the language and the absent
    /// script end at 2, and all other ends are 5.
    ///
    /// ```
    /// use langtag::NormalLangTag;
    ///
    /// let ends = NormalLangTag::new("sl-IT")?.ends();
    /// (ends.language, ends.script, ends.region); // (2, 2, 5)
    /// (ends.variants, ends.extensions, ends.whole); // (5, 5, 5)
    /// ```
    #[tactic(auto, using(langtag_scan::proofs::SpelledTexts::ends_each, langtag_scan::proofs::SpelledTexts::ends_had))]
    pub fn ends(&self) -> Ends
        ensures { EachRecord (normal_lang_tag_text self.now) (λ r. result ≡ ends_of r) }
    {
        self.ends
    }

    /// Returns the language: `zh-min` for `zh-min-Latn-TW`.
    ///
    /// ```
    /// use langtag::NormalLangTag;
    ///
    /// NormalLangTag::new("zh-min-Latn-TW")?.language().as_str(); // "zh-min"
    /// ```
    #[tactic(auto, using(crate::proofs::PartRules::language_rules))]
    pub fn language(&self) -> Language<'a>
        ensures part { EachRecord (normal_lang_tag_text self.now) (λ r. language_text result ≡ language_part r) }
    {
        Language::from_checked(self.language_str())
    }

    /// Returns the script, if there is one: `Latn` for `zh-min-Latn-TW`, `None` for `zh-TW`.
    ///
    /// ```
    /// use langtag::NormalLangTag;
    ///
    /// let tag = NormalLangTag::new("zh-min-Latn-TW")?;
    /// tag.script().map(|script| script.as_str()); // Some("Latn")
    /// NormalLangTag::new("zh-TW")?.script(); // None
    /// ```
    #[tactic(auto, using(crate::proofs::PartRules::script_rules))]
    pub fn script(&self) -> Option<Script<'a>>
        ensures part { EachRecord (normal_lang_tag_text self.now) (λ r. option_map script_text result ≡ r.script) }
    {
        let script = self.part(self.ends.language, self.ends.script)?;
        Some(Script::from_checked(script))
    }

    /// Returns the region, if there is one: `TW` for `zh-min-Latn-TW`, `None` for `zh-Latn`.
    ///
    /// ```
    /// use langtag::NormalLangTag;
    ///
    /// let tag = NormalLangTag::new("zh-min-Latn-TW")?;
    /// tag.region().map(|region| region.as_str()); // Some("TW")
    /// NormalLangTag::new("zh-Latn")?.region(); // None
    /// ```
    #[tactic(auto, using(crate::proofs::PartRules::region_rules))]
    pub fn region(&self) -> Option<Region<'a>>
        ensures part { EachRecord (normal_lang_tag_text self.now) (λ r. option_map region_text result ≡ r.region) }
    {
        let region = self.part(self.ends.script, self.ends.region)?;
        Some(Region::from_checked(region))
    }

    /// Returns the variants: `rozaj-1994` for `sl-rozaj-1994`, and the empty string for `sl`.
    ///
    /// ```
    /// use langtag::NormalLangTag;
    ///
    /// NormalLangTag::new("sl-rozaj-1994")?.variants().as_str(); // "rozaj-1994"
    /// NormalLangTag::new("sl")?.variants().as_str(); // ""
    /// ```
    #[tactic(auto, using(crate::proofs::PartRules::variants_rules))]
    pub fn variants(&self) -> Variants<'a>
        ensures part { EachRecord (normal_lang_tag_text self.now) (λ r. variants_text result ≡ variants_part r) }
    {
        Variants::from_checked(self.part_or_empty(self.ends.region, self.ends.variants))
    }

    /// Returns the extensions: `a-bb-u-co` for `en-a-bb-u-co-x-y`, and the empty string for `en-x-y`.
    ///
    /// ```
    /// use langtag::NormalLangTag;
    ///
    /// NormalLangTag::new("en-a-bb-u-co-x-y")?.extensions().as_str(); // "a-bb-u-co"
    /// NormalLangTag::new("en-x-y")?.extensions().as_str(); // ""
    /// ```
    #[tactic(auto, using(crate::proofs::PartRules::extensions_rules))]
    pub fn extensions(&self) -> Extensions<'a>
        ensures part { EachRecord (normal_lang_tag_text self.now) (λ r. extensions_text result ≡ extensions_part r) }
    {
        Extensions::from_checked(self.part_or_empty(self.ends.variants, self.ends.extensions))
    }

    /// Returns the private use part, if there is one: `x-y` for `en-a-bb-u-co-x-y`, `None` for `en-a-bb`.
    ///
    /// ```
    /// use langtag::NormalLangTag;
    ///
    /// let tag = NormalLangTag::new("en-a-bb-u-co-x-y")?;
    /// tag.private_use().map(|part| part.as_str()); // Some("x-y")
    /// NormalLangTag::new("en-a-bb")?.private_use(); // None
    /// ```
    #[tactic(auto, using(crate::proofs::PartRules::private_use_rules))]
    pub fn private_use(&self) -> Option<PrivateUse<'a>>
        ensures part { EachRecord (normal_lang_tag_text self.now) (λ r. option_map private_use_text result ≡ private_use_part r) }
    {
        let private_use = self.part(self.ends.extensions, self.ends.whole)?;
        Some(PrivateUse::from_checked(private_use))
    }

    /// Returns the tag without extensions and private use: `de-CH-1996` for `de-CH-1996-u-co-phonebk-x-mine`. It keeps the
    /// language, the script, the region and the variants.
    ///
    /// ```
    /// use langtag::NormalLangTag;
    ///
    /// NormalLangTag::new("de-CH-1996-u-co-phonebk-x-mine")?.base().as_str(); // "de-CH-1996"
    /// ```
    #[tactic(auto, using(crate::proofs::PartRules::base_rules))]
    pub fn base(&self) -> NormalLangTag<'a>
        ensures { EachRecord (normal_lang_tag_text self.now) (λ r. normal_lang_tag_text result ≡ spell (base_record r)) }
    {
        let whole = self.ends.variants;
        let ends = Ends {
            language: self.ends.language,
            script: self.ends.script,
            region: self.ends.region,
            variants: whole,
            extensions: whole,
            whole,
        };
        NormalLangTag::with_ends(&self.as_str()[..whole], ends)
    }

    /// Returns an iterator over the subtags of the private use part, or over no subtags if there is no such part: `x`
    /// and `y` for `en-x-x-y`.
    ///
    /// ```
    /// use langtag::NormalLangTag;
    ///
    /// let tag = NormalLangTag::new("en-x-x-y")?;
    /// tag.private_use_subtags().count(); // 2
    /// NormalLangTag::new("en")?.private_use_subtags().count(); // 0
    /// ```
    pub fn private_use_subtags(&self) -> PrivateUseIter<'a>
        ensures part { EachRecord (normal_lang_tag_text self.now) (λ r. private_use_subtags_left result ≡ private_use_subtags r) }
    {
        match self.private_use() {
            Some(private_use) => private_use.iter(),
            None => PrivateUseIter::empty(),
        }
    }

    /// Returns the first variant that equals an earlier variant, ignoring case: the second `1996` in `de-1996-1996`.
    ///
    /// A tag with a repeated variant is well formed but not valid (RFC 5646 section 2.2.5). The search does not
    /// allocate, and uses less than 16 KiB of stack. For up to 1,152 variants, the time grows little faster than the
    /// number of variants. For more variants, it is quadratic: 1 MB of different variants takes less than a second.
    ///
    /// ```
    /// use langtag::NormalLangTag;
    ///
    /// let tag = NormalLangTag::new("de-1996-1996")?;
    /// tag.repeated_variant().map(|variant| variant.as_str()); // Some("1996")
    /// NormalLangTag::new("de-1996")?.repeated_variant(); // None
    /// ```
    #[tactic(auto, using(langtag_place::proofs::RepeatLaws::repeat_laws, langtag_scan::proofs::SpelledTexts::offsets_kept))]
    pub fn repeated_variant(&self) -> Option<Variant<'a>>
        ensures repeated { EachRecord (normal_lang_tag_text self.now)
            (λ r. option_map variant_text result ≡ repeat are_alike r.variants) }
        // law: `repeat` finds the first element that equals an earlier one
        ensures first { (variants : List (List ℕ)) → IsFirstRepeat are_alike variants (repeat are_alike variants) }
    {
        let index = self.repeated_variant_index()?;
        self.variants().iter().nth(index)
    }

    /// Returns the index, among the variants, of the variant that [`repeated_variant`](NormalLangTag::repeated_variant)
    /// returns: `Some(1)` for `de-1996-1996`.
    ///
    /// ```
    /// use langtag::NormalLangTag;
    ///
    /// NormalLangTag::new("de-1996-1996")?.repeated_variant_index(); // Some(1)
    /// ```
    #[tactic(auto, using(langtag_place::proofs::RepeatLaws::repeat_laws, langtag_scan::proofs::SpelledTexts::offsets_kept))]
    pub fn repeated_variant_index(&self) -> Option<usize>
        ensures repeated { EachRecord (normal_lang_tag_text self.now) (λ r. result ≡ repeat_index are_alike r.variants) }
        // law: `repeat` finds the first element that equals an earlier one
        ensures first { (variants : List (List ℕ)) → IsFirstRepeatAt are_alike variants (repeat_index are_alike variants) }
    {
        first_repeated_variant(self.variants())
    }

    /// Returns the first singleton that equals an earlier singleton, ignoring case: the `A` in `fr-a-bb-A-cc`. It is
    /// returned in the case of the string.
    ///
    /// A tag with a repeated singleton is well formed but not valid (RFC 5646 section 2.2.6). This does not allocate.
    ///
    /// ```
    /// use langtag::NormalLangTag;
    ///
    /// let tag = NormalLangTag::new("fr-a-bb-A-cc")?;
    /// tag.repeated_singleton().map(|singleton| singleton.unwrap()); // Some(b'A')
    /// ```
    #[tactic(auto, using(langtag_place::proofs::RepeatLaws::repeat_laws, langtag_scan::proofs::SpelledTexts::offsets_kept))]
    pub fn repeated_singleton(&self) -> Option<Singleton>
        ensures repeated { EachRecord (normal_lang_tag_text self.now) (λ r.
            option_map singleton_byte result ≡ repeat are_alike_bytes (map (λ e. e.singleton) r.extensions)) }
        // law: `repeat` finds the first element that equals an earlier one
        ensures first { (singletons : List ℕ) → IsFirstRepeat are_alike_bytes singletons (repeat are_alike_bytes singletons) }
    {
        let index = self.repeated_singleton_index()?;
        Some(self.extensions().iter().nth(index)?.singleton())
    }

    /// Returns the index, among the extensions, of the extension whose singleton
    /// [`repeated_singleton`](NormalLangTag::repeated_singleton) returns: `Some(1)` for `fr-a-bb-A-cc`.
    ///
    /// ```
    /// use langtag::NormalLangTag;
    ///
    /// NormalLangTag::new("fr-a-bb-A-cc")?.repeated_singleton_index(); // Some(1)
    /// ```
    #[tactic(auto, using(langtag_place::proofs::RepeatLaws::repeat_laws, langtag_scan::proofs::SpelledTexts::offsets_kept))]
    pub fn repeated_singleton_index(&self) -> Option<usize>
        ensures repeated { EachRecord (normal_lang_tag_text self.now) (λ r.
            result ≡ repeat_index are_alike_bytes (map (λ e. e.singleton) r.extensions)) }
        // law: `repeat` finds the first element that equals an earlier one
        ensures first { (singletons : List ℕ)
            → IsFirstRepeatAt are_alike_bytes singletons (repeat_index are_alike_bytes singletons) }
    {
        first_repeated_singleton(self.extensions())
    }

    /// Copies the tag into a tag that owns its text.
    ///
    /// # Errors
    ///
    /// Returns an error if allocation fails.
    ///
    /// ```
    /// use langtag::NormalLangTag;
    ///
    /// let owned = NormalLangTag::new("sl-IT")?.try_to_owned(alloc)?;
    /// owned.as_str(); // "sl-IT"
    /// ```
    pub fn try_to_owned(&self, alloc: Global) -> Result<NormalLangTagBuf, AllocError>
        ensures { IfOk result (λ owned. normal_lang_tag_buf_text owned ≡ normal_lang_tag_text self.now) }
    {
        let text = String::from_str(alloc, self.as_str())?;
        Ok(NormalLangTagBuf::with_ends(text, self.ends))
    }

    /// Returns a value that displays the tag in the case that RFC 5646 section 2.1.1 recommends. It does not allocate.
    ///
    /// ```
    /// use langtag::NormalLangTag;
    ///
    /// let tag = NormalLangTag::new("MN-cYRL-mn")?;
    /// assert_eq!(format!("{}", tag.in_recommended_case()), "mn-Cyrl-MN");
    /// ```
    pub fn in_recommended_case(&self) -> InRecommendedCase<'a>
        ensures { in_recommended_case_text result ≡ recommended_text (normal_lang_tag_text self.now) }
    {
        InRecommendedCase::from_checked(self.as_str())
    }

    /// Returns whether the tag is in the case that RFC 5646 section 2.1.1 recommends.
    ///
    /// ```
    /// use langtag::NormalLangTag;
    ///
    /// NormalLangTag::new("mn-Cyrl-MN")?.is_in_recommended_case(); // true
    /// NormalLangTag::new("mn-cyrl-MN")?.is_in_recommended_case(); // false
    /// ```
    pub fn is_in_recommended_case(&self) -> bool
        ensures { IsTrue result ↔ (recommended_text (normal_lang_tag_text self.now) ≡ normal_lang_tag_text self.now) }
    {
        is_in_recommended_case(self.as_bytes())
    }

    /// Copies the tag into an owned tag, in the case that RFC 5646 section 2.1.1 recommends.
    ///
    /// # Errors
    ///
    /// Returns an error if allocation fails.
    ///
    /// ```
    /// use langtag::NormalLangTag;
    ///
    /// let owned = NormalLangTag::new("MN-cYRL-mn")?.try_to_recommended_case(alloc)?;
    /// owned.as_str(); // "mn-Cyrl-MN"
    /// ```
    pub fn try_to_recommended_case(&self, alloc: Global) -> Result<NormalLangTagBuf, AllocError>
        ensures { IfOk result (λ owned. normal_lang_tag_buf_text owned ≡ recommended_text (normal_lang_tag_text self.now)) }
    {
        let mut owned = self.try_to_owned(alloc)?;
        owned.make_recommended_case();
        Ok(owned)
    }

    /// Returns the string of the language.
    fn language_str(&self) -> &'a str
        ensures { result.now ≡ take self.now.ends.language (normal_lang_tag_text self.now) }
    {
        &self.as_str()[..self.ends.language]
    }

    /// Returns the string of a part, which begins after the hyphen at `before` and ends at `end`. Returns `None` if
    /// both offsets are equal, since the part is then absent.
    fn part(&self, before: usize, end: usize) -> Option<&'a str>
        requires ordered { before ≤ end }
        requires within { end ≤ length (normal_lang_tag_text self.now) }
        ensures { option_map (λ part. part.now) result ≡ text_between (normal_lang_tag_text self.now) before end }
    {
        if before == end {
            return None;
        }
        Some(&self.as_str()[before + 1..end])
    }

    /// Returns what [`part`](NormalLangTag::part) returns, or the empty string if there is no such part.
    fn part_or_empty(&self, before: usize, end: usize) -> &'a str
        requires ordered { before ≤ end }
        requires within { end ≤ length (normal_lang_tag_text self.now) }
        ensures { result.now ≡ unwrap_or (text_between (normal_lang_tag_text self.now) before end) [] }
    {
        self.part(before, end).unwrap_or("")
    }
}

impl fmt::Display for NormalLangTag<'_> {
    ghost use Rattle.langtag.specs.Text.{normal_lang_tag_text};

    ghost output = { λ tag. Some (normal_lang_tag_text tag) };

    fn fmt<W: fmt::Write>(&self, f: &mut fmt::Formatter<W>) -> fmt::Result {
        f.write_str(self.as_str())
    }
}
