//! Laws of a tag and its parents (UTS #35, part 1, section 'Parent Locales'). The toolchain checks only contracts, so
//! each law is the clause of a function that does nothing.
ghost use Rattle.std.specs.Prelude.{◌≡◌, ℕ, List};
ghost use Rattle.langtag_scan.specs.Grammar.{AllByRecursion, IsNormal};
ghost use Rattle.langtag_text.specs.Fields.{Fields};
ghost use Rattle.langtag_parent.specs.Chain.{IsChain};
ghost use Rattle.langtag_parent.specs.ParentLaws.{AddsNothing, EachMember, EndsWithin, IsInOneScript};

/// A language with its script and its region has at most four parents, one above the other.
fn chain_ends()
    // law: a language with its script and its region has at most four parents, one above the other, so a chain is whole
    ensures ends { (f : Fields) → EndsWithin 5 f }
{}

/// Each member of the chain of a normal tag is a normal tag.
#[tactic(auto, using(crate::proofs::Members::normal_members))]
fn members_are_normal()
    // law: each member of the chain of a normal tag is a normal tag
    ensures normal { (tag : List ℕ) (chain : List (List ℕ)) → IsNormal tag → IsChain tag chain → AllByRecursion IsNormal chain }
{}

/// Each member whose script is known is written in the script of the tag.
#[tactic(auto, using(crate::proofs::Members::in_one_script))]
fn one_script()
    // law: each member whose script is known is written in the script of the tag, as it is read. The script is its own, or else its likely script
    ensures one_script { EachMember IsInOneScript }
{}

/// A member has no variant, extension or private use but the tag's, and no language or region but the tag's or those of
/// CLDR's parents.
#[tactic(auto, using(crate::proofs::Members::adds_nothing))]
fn nothing_added()
    // law: a parent has no variant, extension or private use but the tag's, and no language or region but those of the tag as it is read or of CLDR's parents
    ensures nothing_added { EachMember AddsNothing }
{}
