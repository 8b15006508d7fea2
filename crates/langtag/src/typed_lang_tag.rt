//! Language tags as an enum with one variant for each kind.
ghost use Rattle.std.specs.Prelude.{◌≡◌, ◌↔◌, IsTrue};

use crate::grandfathered::GrandfatheredLangTag;
use crate::kind::Kind;
use crate::normal_lang_tag::NormalLangTag;
use crate::private_use_lang_tag::PrivateUseLangTag;
use langtag_language::Language;

/// A language tag as an enum with one variant for each kind (RFC 5646 section 2.1), as
/// [`LangTag::as_typed`](crate::LangTag::as_typed) returns it. No method reads the string.
///
/// ```
/// use langtag::{LangTag, TypedLangTag};
///
/// match LangTag::new("x-a")?.as_typed() {
///     TypedLangTag::PrivateUse(tag) => assert_eq!(tag.as_str(), "x-a"),
///     TypedLangTag::Normal(_) | TypedLangTag::Grandfathered(_) => unreachable!(),
/// }
/// ```
#[derive(Clone, Copy, Debug, PartialEq, Eq)]
pub enum TypedLangTag<'a> {
    /// A normal tag. The regular grandfathered tags are normal, too.
    Normal(NormalLangTag<'a>),
    /// A private-use tag.
    PrivateUse(PrivateUseLangTag<'a>),
    /// An irregular grandfathered tag.
    Grandfathered(GrandfatheredLangTag),
}

impl<'a> TypedLangTag<'a> {
    ghost use Rattle.langtag.specs.Compared.{TypedLangTagsCompareByKind};
    ghost use Rattle.langtag.specs.Typed.{kind_of_tag, normal_of, private_use_of, grandfathered_of, HasLanguage};

    /// Returns the language of a normal tag, or the primary language of a regular grandfathered tag: `zh` for `zh-TW`,
    /// `None` for `x-a` and `i-lux`.
    ///
    /// ```
    /// use langtag::LangTag;
    ///
    /// LangTag::new("zh-TW")?.as_typed().language().map(|it| it.as_str()); // Some("zh")
    /// LangTag::new("i-lux")?.as_typed().language().map(|it| it.as_str()); // None
    /// ```
    pub fn language(&self) -> Option<Language<'a>>
        ensures { HasLanguage self.now result }
    {
        match self {
            TypedLangTag::Normal(tag) => Some(tag.language()),
            TypedLangTag::PrivateUse(_) => None,
            TypedLangTag::Grandfathered(tag) => tag.language(),
        }
    }

    /// Returns the kind of the tag: `LangTag::new("x-a")?.as_typed().kind()` is `Kind::PrivateUse`. Typed tags are
    /// equal if they have the same kind, and their strings are equal, ignoring case.
    pub fn kind(&self) -> Kind
        ensures kind { result ≡ kind_of_tag self.now }
        ensures compared { TypedLangTagsCompareByKind }
        ensures cloned { (copy : TypedLangTag) → ⟦<TypedLangTag<'a> as Clone>⟧.is_clone self.now copy → copy ≡ self.now }
        ensures clone_succeeds { ⟦<TypedLangTag<'a> as Clone>⟧.is_infallible self.now }
    {
        match self {
            TypedLangTag::Normal(_) => Kind::Normal,
            TypedLangTag::PrivateUse(_) => Kind::PrivateUse,
            TypedLangTag::Grandfathered(_) => Kind::Grandfathered,
        }
    }

    /// Returns whether this is a normal tag: `true` for `zh-TW` and `art-lojban`, `false` for `x-a`.
    ///
    /// ```
    /// use langtag::LangTag;
    ///
    /// LangTag::new("art-lojban")?.as_typed().is_normal(); // true
    /// LangTag::new("x-a")?.as_typed().is_normal(); // false
    /// ```
    pub fn is_normal(&self) -> bool
        ensures { IsTrue result ↔ (kind_of_tag self.now ≡ Kind.Normal) }
    {
        self.kind().is_normal()
    }

    /// Returns whether this is a private-use tag: `true` for `x-a`, `false` for `fr-x-a`.
    ///
    /// ```
    /// use langtag::LangTag;
    ///
    /// LangTag::new("x-a")?.as_typed().is_private_use(); // true
    /// LangTag::new("fr-x-a")?.as_typed().is_private_use(); // false
    /// ```
    pub fn is_private_use(&self) -> bool
        ensures { IsTrue result ↔ (kind_of_tag self.now ≡ Kind.PrivateUse) }
    {
        self.kind().is_private_use()
    }

    /// Returns whether the kind of this tag is grandfathered, which means irregular: `true` for `i-lux`.
    ///
    /// For `art-lojban`, a regular grandfathered tag, [`LangTag::as_typed`](crate::LangTag::as_typed) returns a normal
    /// tag, so this is `false`, while [`LangTag::is_grandfathered`](crate::LangTag::is_grandfathered) is `true`.
    ///
    /// ```
    /// use langtag::LangTag;
    ///
    /// LangTag::new("i-lux")?.as_typed().is_grandfathered(); // true
    /// LangTag::new("art-lojban")?.as_typed().is_grandfathered(); // false
    /// ```
    pub fn is_grandfathered(&self) -> bool
        ensures { IsTrue result ↔ (kind_of_tag self.now ≡ Kind.Grandfathered) }
    {
        self.kind().is_grandfathered()
    }

    /// Returns the normal tag if this is a normal tag: `Some` for `zh-TW`, `None` for `x-a`.
    ///
    /// ```
    /// use langtag::LangTag;
    ///
    /// LangTag::new("zh-TW")?.as_typed().as_normal().is_some(); // true
    /// LangTag::new("x-a")?.as_typed().as_normal().is_some(); // false
    /// ```
    pub fn as_normal(&self) -> Option<NormalLangTag<'a>>
        ensures { result ≡ normal_of self.now }
    {
        match self {
            TypedLangTag::Normal(tag) => Some(*tag),
            _ => None,
        }
    }

    /// Returns the private-use tag if this is a private-use tag: `Some` for `x-a`, `None` for `fr-x-a`.
    ///
    /// ```
    /// use langtag::LangTag;
    ///
    /// LangTag::new("x-a")?.as_typed().as_private_use().is_some(); // true
    /// LangTag::new("fr-x-a")?.as_typed().as_private_use().is_some(); // false
    /// ```
    pub fn as_private_use(&self) -> Option<PrivateUseLangTag<'a>>
        ensures { result ≡ private_use_of self.now }
    {
        match self {
            TypedLangTag::PrivateUse(tag) => Some(*tag),
            _ => None,
        }
    }

    /// Returns the grandfathered tag if the kind of this tag is grandfathered: `Some` for `i-lux`, `None` for
    /// `art-lojban`, which is normal.
    ///
    /// ```
    /// use langtag::LangTag;
    ///
    /// LangTag::new("i-lux")?.as_typed().as_grandfathered().is_some(); // true
    /// LangTag::new("art-lojban")?.as_typed().as_grandfathered().is_some(); // false
    /// ```
    pub fn as_grandfathered(&self) -> Option<GrandfatheredLangTag>
        ensures { result ≡ grandfathered_of self.now }
    {
        match self {
            TypedLangTag::Grandfathered(tag) => Some(*tag),
            _ => None,
        }
    }
}
