//! The kinds of language tags.
ghost use Rattle.std.specs.Prelude.{◌≡◌, ◌↔◌, IsTrue};

/// The kind of a language tag: one of the three cases of the rule `Language-Tag` (RFC 5646 section 2.1).
///
/// Comparisons and hashes use the position in this declaration.
///
/// ```
/// use langtag::Kind;
///
/// Kind::Normal.is_normal(); // true
/// Kind::Normal < Kind::Grandfathered; // true
/// ```
#[derive(Clone, Copy, Debug, PartialEq, Eq, PartialOrd, Ord, Hash)]
pub enum Kind {
    /// A tag that is made of parts. The regular grandfathered tags are made of parts, too.
    Normal,
    /// A tag that consists of a private use part only (section 2.2.7).
    PrivateUse,
    /// An irregular grandfathered tag (section 2.2.8), which does not follow the grammar of other tags.
    Grandfathered,
}

impl Kind {
    /// Returns whether this is the kind of a tag that is made of parts: `Kind::Normal.is_normal()` is `true`.
    pub fn is_normal(&self) -> bool
        ensures { IsTrue result ↔ (self.now ≡ Kind.Normal) }
    {
        matches!(self, Kind::Normal)
    }

    /// Returns whether this is the kind of a private-use tag: `Kind::PrivateUse.is_private_use()` is `true`.
    pub fn is_private_use(&self) -> bool
        ensures { IsTrue result ↔ (self.now ≡ Kind.PrivateUse) }
    {
        matches!(self, Kind::PrivateUse)
    }

    /// Returns whether this is the kind of an irregular grandfathered tag: `Kind::Grandfathered.is_grandfathered()` is
    /// `true`.
    pub fn is_grandfathered(&self) -> bool
        ensures { IsTrue result ↔ (self.now ≡ Kind.Grandfathered) }
    {
        matches!(self, Kind::Grandfathered)
    }
}
