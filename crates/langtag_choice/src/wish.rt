//! A range that a tag can serve.
ghost use Rattle.std.specs.Prelude.{◌≡◌, ◌≤◌, ◌<◌, ◌==◌, ◌++◌, [], ◌∷◌, ℕ, IsTrue, List};
ghost use Rattle.std.specs.Prelude.{MatchOption, None, Some, false, length, option_map};
ghost use Rattle.langtag_scan.specs.Prelude.{ForSome};
ghost use Rattle.langtag_choice.specs.FirstLetters.{first_two};
ghost use Rattle.langtag_choice.specs.Variants.{variants_of};
ghost use Rattle.langtag_choice.specs.NearLanguages.{HasNumber, HasNumberOrNone};
ghost use Rattle.langtag_cldr.specs.Definitions.{matching_form, field_texts};
ghost use Rattle.langtag_range.specs.Definitions.{basic_text, is_language_range, is_star, hyphened, listed_element};

use crate::first_letters::{first_two, language_of};
use crate::range_language::RangeLanguage;
use crate::read_range::is_star;
use crate::variants::variant_count;
use langtag_cldr::{TagFields, matching_form};
use langtag_range::WantedRange;

/// A range other than `*`, its weight, which is not 0, and the number of ranges before it. The matching form of the
/// range is computed once for many tags, and so is its language.
#[derive(Clone, Copy)]
pub(crate) struct Wish<'a> {
    pub(crate) range: &'a [u8],
    pub(crate) weight: u32,
    pub(crate) place: usize,
    pub(crate) form: Option<TagFields<'a>>,
    pub(crate) language: Option<RangeLanguage>,
    /// The number of variants of the range.
    pub(crate) variants: usize,
    pub ghost some: { (weight == 0) ≡ false },
    pub ghost in_class: { IsTrue (is_language_range (hyphened range.now)) },
    pub ghost no_star: { is_star (basic_text range.now) ≡ false },
    pub ghost known: { option_map field_texts form ≡ matching_form (basic_text range.now) },
    pub ghost number: { ForSome language (λ own. ForSome (matching_form (basic_text range.now)) (HasNumberOrNone own.number)) },
    pub ghost counted: { variants ≡ length (variants_of (basic_text range.now)) },
    pub ghost begins: { ForSome language (λ own. first_two (basic_text range.now ++ 0 ∷ []) ≡ Some own.letters) },
}

impl<'a> Wish<'a> {
    ghost use Rattle.langtag_choice.specs.Serves.{serves};
    ghost use Rattle.langtag_choice.specs.Distance.{distance_of_texts};
    ghost use Rattle.langtag_choice.specs.Near.{wish_element};
    ghost use Rattle.langtag_choice.specs.Nearness.{kept};

    /// Reads the range with `place` ranges before it, or returns `None` if it is `*` or has the weight 0.
    #[tactic(auto, unfolding(crate::specs::Serves::serves), using(crate::proofs::FarTags::form_read))]
    pub(crate) fn new(wanted: WantedRange<'a>, place: usize) -> Option<Wish<'a>>
        requires in_class { IsTrue (is_language_range (hyphened wanted.bytes.now)) }
        ensures { MatchOption result ((tag : List ℕ) → serves (listed_element wanted.entry) tag ≡ false)
            (λ wish. (wish_element wish ≡ listed_element wanted.entry) × (wish.place ≡ place)) }
    {
        if wanted.weight == 0 || is_star(wanted.bytes) {
            return None;
        }
        let form = matching_form(wanted.bytes);
        Some(Wish {
            range: wanted.bytes,
            weight: wanted.weight,
            place,
            form,
            language: RangeLanguage::of(wanted.bytes, form),
            variants: variant_count(wanted.bytes),
        })
    }

    /// Returns whether the first letters of a tag show that it cannot serve the range: the tag has a language of two or three
    /// letters with which the range does not begin, and which is not near the language of the range. If the range has no
    /// matching form, it is enough that the range does not begin with these letters.
    pub(crate) fn is_far_from(&self, tag: &[u8]) -> bool
        ensures far { IsTrue result → 50 ≤ distance_of_texts (basic_text self.now.range.now) tag.now }
        ensures kept { IsTrue result → kept (basic_text self.now.range.now) tag.now ≡ 0 }
    {
        let Some(letters) = first_two(tag) else {
            return false;
        };
        if self.form.is_none() {
            return self.is_far_without_form(letters);
        }
        match language_of(tag) {
            Some(number) => self.is_far_from_language(&self.language, letters, number),
            None => false,
        }
    }

    /// Returns whether the range, which has no matching form, does not begin with these letters. Only a tag that equals the
    /// range, or that lookup finds, can serve such a range, and both begin as the range does.
    fn is_far_without_form(&self, letters: (u8, u8)) -> bool
        requires { matching_form (basic_text self.now.range.now) ≡ None }
        ensures far { IsTrue result → (tag : List ℕ) → first_two tag ≡ Some letters
            → 50 ≤ distance_of_texts (basic_text self.now.range.now) tag }
        ensures kept { IsTrue result → (tag : List ℕ) → first_two tag ≡ Some letters
            → kept (basic_text self.now.range.now) tag ≡ 0 }
    {
        match self.language {
            Some(own) => letters != own.letters,
            None => false,
        }
    }

    /// Returns whether a tag cannot serve the range, which has this language. The tag is given by its first letters and
    /// the number of its language: the range does not begin with these letters, and the languages are not near.
    pub(crate) fn is_far_from_language(
        &self,
        own: &Option<RangeLanguage>,
        letters: (u8, u8),
        number: u32,
    ) -> bool
        requires few { number < 32768 }
        requires own { own.now ≡ self.now.language }
        ensures far { IsTrue result → (tag : List ℕ) → first_two tag ≡ Some letters
            → ForSome (matching_form tag) (HasNumber number) → 50 ≤ distance_of_texts (basic_text self.now.range.now) tag }
        ensures kept { IsTrue result → (tag : List ℕ) → first_two tag ≡ Some letters
            → kept (basic_text self.now.range.now) tag ≡ 0 }
    {
        match own {
            Some(own) => own.is_far(number) && letters != own.letters,
            None => false,
        }
    }
}
