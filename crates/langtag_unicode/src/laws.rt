//! Laws of keywords and fields (RFC 6067, RFC 6497). The toolchain checks only contracts, so each law is the clause of
//! a function that does nothing. Removing a key keeps the canonical form of `u`, but not that of the tag: if `u` is
//! removed, a second `u` becomes the first, and only the first has a canonical form.
ghost use Rattle.std.specs.Prelude.{◌≡◌, ℕ, List, [], None, Some, false, IsTrue};
ghost use Rattle.langtag_scan.specs.Grammar.{AllByRecursion, are_alike, is_extension_subtag};
ghost use Rattle.langtag_keyword.specs.Edit as spec;
ghost use Rattle.langtag_keyword.specs.Form.{extensions_record, transform_form, unicode_form};
ghost use Rattle.langtag_keyword.specs.Keywords.{is_key, value_of};
ghost use Rattle.langtag_keyword.specs.Transform.{is_field_key};
ghost use Rattle.langtag_scan.specs.Record as model;
ghost use Rattle.langtag_unicode.specs.FormLaws.{OrderChangesNothing};

/// A key that was set has the value that was set.
#[tactic(auto, using(langtag_keyword::proofs::KeywordLaws::read_after_set))]
fn read_after_set()
    // law: a key that was set has the value that was set
    ensures read_after { (k : List ℕ) (v ss : List (List ℕ)) → spec.keyword_error k v ≡ None
        → value_of is_key k (spec.with_keyword k v ss) ≡ Some v }
{}

/// Every other key keeps its value when a key is set.
#[tactic(auto, using(langtag_keyword::proofs::KeywordLaws::others_after_set))]
fn others_stay_after_set()
    // law: every other key keeps its value in that `u`
    ensures others_stay { (k other : List ℕ) (v ss : List (List ℕ)) → spec.keyword_error k v ≡ None → are_alike k other ≡ false
        → value_of is_key other (spec.with_keyword k v ss) ≡ value_of is_key other ss }
{}

/// A key that is set twice gives the same record as the second call alone.
#[tactic(auto, using(langtag_keyword::proofs::KeywordBlocks::set_twice))]
fn set_twice()
    // law: a key that is set twice gives the same tag as the second call alone
    ensures set_twice { (k : List ℕ) (v w : List (List ℕ)) (r : model.Record) → spec.keyword_error k v ≡ None
        → spec.edited_record k (Some w) (spec.edited_record k (Some v) r) ≡ spec.edited_record k (Some w) r }
{}

/// A record whose extensions are in canonical form stays so when a canonical keyword is set.
#[tactic(auto, using(langtag_keyword::proofs::CanonicalKeywords::canonical_tag))]
fn canonical_after_set()
    // law: a tag whose extensions are in canonical form stays so when a canonical keyword is set
    ensures canonical { (k : List ℕ) (v : List (List ℕ)) (r : model.Record) → spec.keyword_error k v ≡ None → spec.IsCanonicalKeyword k v → model.IsWellFormed r → extensions_record r ≡ r
        → extensions_record (spec.edited_record k (Some v) r) ≡ spec.edited_record k (Some v) r }
{}

/// A key that was removed is no longer in that `u`.
#[tactic(auto, using(langtag_keyword::proofs::KeywordLaws::none_after_removal))]
fn none_after_removal()
    // law: a key that was removed is no longer in that `u`; a tag may have a second `u`
    ensures none_after { (k : List ℕ) (ss : List (List ℕ)) → value_of is_key k (spec.without_keyword k ss) ≡ None }
{}

/// Every other key keeps its value when a key is removed.
#[tactic(auto, using(langtag_keyword::proofs::KeywordLaws::others_after_removal))]
fn others_stay_after_removal()
    // law: every other key keeps its value in that `u`
    ensures others_stay { (k other : List ℕ) (ss : List (List ℕ)) → are_alike k other ≡ false
        → value_of is_key other (spec.without_keyword k ss) ≡ value_of is_key other ss }
{}

/// A `u` in canonical form stays so when a key is removed.
#[tactic(auto, using(langtag_keyword::proofs::CanonicalKeywords::canonical_removal))]
fn canonical_after_removal()
    // law: a `u` in canonical form stays so when a key is removed
    ensures canonical { (k : List ℕ) (ss : List (List ℕ)) → spec.keyword_error k [] ≡ None → AllByRecursion (λ s. IsTrue (is_extension_subtag s)) ss → unicode_form ss ≡ ss
        → unicode_form (spec.without_keyword k ss) ≡ spec.without_keyword k ss }
{}

/// Keywords of `u` with different keys may change places: the form is the same.
#[tactic(auto, using(crate::proofs::KeywordSizes::unicode_moved))]
fn keywords_move()
    // law: keywords of `u` with different keys may change places: the form is the same
    ensures keywords_move { OrderChangesNothing is_key unicode_form }
{}

/// Fields of `t` with different keys may change places: the form is the same.
#[tactic(auto, using(crate::proofs::KeywordSizes::transform_moved))]
fn fields_move()
    // law: fields of `t` with different keys may change places: the form is the same
    ensures fields_move { OrderChangesNothing is_field_key transform_form }
{}
