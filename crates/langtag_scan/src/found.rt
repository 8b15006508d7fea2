//! What a recogniser found.
ghost use Rattle.std.specs.Prelude.{◌≡◌, ◌↔◌, IsTrue, map};
ghost use Rattle.langtag_scan.specs.Grammar.{finding, is_normal, is_private_use, irregular_index};
ghost use Rattle.langtag_scan.specs.Grammar.{normal_ends, IsOfOneKind, grandfathered_tags};
ghost use Rattle.langtag_scan.specs.declared.grandfathered.TheConstants.{GRANDFATHERED_TEXTS};

use crate::ends::Ends;
use crate::finding::Finding;

/// What [`recognise`](crate::recognise) finds in a tag (RFC 5646 section 2.1): its kind, with the ends of the parts of
/// a normal tag, or the index of an irregular tag.
///
/// For `x-a`, `is_private_use()` is `true`. A `Found` does not contain the string.
///
/// ```
/// use langtag_scan::{Metered, recognise};
///
/// let found = recognise(&mut Metered::new("x-a"));
/// found.is_some_and(|found| found.is_private_use()); // true
/// ```
#[derive(Clone, Copy)]
pub struct Found {
    pub(crate) finding: Finding,
}

impl Found {
    /// Returns whether the string is a normal tag: `true` for `zh-min`, a regular grandfathered tag, and `false` for
    /// `i-lux` and `x-a`.
    ///
    /// ```
    /// use langtag_scan::{recognise, Metered};
    ///
    /// let found = recognise(&mut Metered::new("zh-min"));
    /// found.map(|found| found.is_normal()); // Some(true)
    /// ```
    pub fn is_normal(&self) -> bool
        ensures normal { result ≡ is_normal (finding self.now) }

        // law: exactly one of the three kinds was found, and there are ends if and only if the text is a normal tag
        ensures one_kind { IsOfOneKind (finding self.now) }
    {
        matches!(self.finding, Finding::Normal(_))
    }

    /// Returns whether the string is a private-use tag (section 2.2.7): `true` for `x-a`, `false` for `fr-x-a`.
    ///
    /// ```
    /// use langtag_scan::{recognise, Metered};
    ///
    /// let found = recognise(&mut Metered::new("x-a"));
    /// found.map(|found| found.is_private_use()); // Some(true)
    /// ```
    pub fn is_private_use(&self) -> bool
        ensures { result ≡ is_private_use (finding self.now) }
    {
        matches!(self.finding, Finding::PrivateUse)
    }

    /// Returns the index of an irregular grandfathered tag (section 2.2.8), from 0 to 16 in the order of section 2.1:
    /// `Some(1)` for `i-AMI`, and `None` for `zh-min`, a regular grandfathered tag.
    ///
    /// ```
    /// use langtag_scan::{recognise, Metered};
    ///
    /// let found = recognise(&mut Metered::new("i-AMI"));
    /// found.and_then(|found| found.irregular()); // Some(1)
    /// ```
    #[tactic(auto, unfolding(crate::specs::Grandfathered::grandfathered_tags))]
    pub fn irregular(&self) -> Option<usize>
        ensures index { result ≡ irregular_index (finding self.now) }

        ensures texts { map (λ text. text.now) GRANDFATHERED_TEXTS ≡ map (λ tag. tag.text) grandfathered_tags }
    {
        match self.finding {
            Finding::Irregular(index) => Some(index),
            _ => None,
        }
    }

    /// Returns the ends of the parts of a normal tag (section 2.1): in `fr-FR`, the language and the absent script end
    /// at 2, and all other ends are 5. Returns `None` for `x-a`.
    ///
    /// ```
    /// use langtag_scan::{recognise, Metered};
    ///
    /// let ends = recognise(&mut Metered::new("fr-FR")).and_then(|found| found.ends());
    /// ends.map(|ends| (ends.language, ends.script, ends.region)); // Some((2, 2, 5))
    /// ends.map(|ends| (ends.variants, ends.extensions, ends.whole)); // Some((5, 5, 5))
    /// recognise(&mut Metered::new("x-a")).and_then(|found| found.ends()); // None
    /// ```
    pub fn ends(&self) -> Option<Ends>
        ensures ends { result ≡ normal_ends (finding self.now) }

        ensures equal_ends { (ends other : Ends) → IsTrue (⟦<Ends as PartialEq>⟧.eq ends other) ↔ (ends ≡ other) }
        ensures cloned_ends { (ends copy : Ends) → ⟦<Ends as Clone>⟧.is_clone ends copy → copy ≡ ends }
        ensures clone_succeeds_ends { (ends : Ends) → ⟦<Ends as Clone>⟧.is_infallible ends }
        ensures cloned { (copy : Found) → ⟦<Found as Clone>⟧.is_clone self.now copy → copy ≡ self.now }
        ensures clone_succeeds { ⟦<Found as Clone>⟧.is_infallible self.now }
    {
        match self.finding {
            Finding::Normal(ends) => Some(ends),
            _ => None,
        }
    }
}
