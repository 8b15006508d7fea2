//! What a tag stores about its text.
ghost use Rattle.std.specs.Prelude.{◌≡◌};
ghost use Rattle.langtag_scan.specs.Grammar.{is_normal, is_private_use, normal_ends};
ghost use Rattle.langtag.specs.Recognised.{finding_of};

use crate::grandfathered::GrandfatheredLangTag;
use langtag_scan::Ends;

/// The kind of a tag (RFC 5646 section 2.1), with what was found in its text, so that no call has to parse the string
/// again.
#[derive(Clone, Copy)]
pub(crate) enum Recognised {
    /// A normal tag, and where its parts end.
    Normal(Ends),
    /// A private-use tag.
    PrivateUse,
    /// An irregular grandfathered tag.
    Irregular(GrandfatheredLangTag),
}

impl Recognised {
    /// Returns whether this is a normal tag.
    pub(crate) fn is_normal(&self) -> bool
        ensures { result ≡ is_normal (finding_of self.now) }
    {
        matches!(self, Recognised::Normal(_))
    }

    /// Returns whether this is a private-use tag.
    pub(crate) fn is_private_use(&self) -> bool
        ensures { result ≡ is_private_use (finding_of self.now) }
    {
        matches!(self, Recognised::PrivateUse)
    }

    /// Returns where the parts of a normal tag end, or `None` for a tag of another kind.
    pub(crate) fn ends(&self) -> Option<Ends>
        ensures { result ≡ normal_ends (finding_of self.now) }
    {
        match self {
            Recognised::Normal(ends) => Some(*ends),
            _ => None,
        }
    }
}
