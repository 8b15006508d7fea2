//! The subtags of Unicode's extensions `u` (RFC 6067) and `t` (RFC 6497): keywords, what replaces their values, how
//! they are edited, and their canonical form (UTS #35, part 1). langtag_unicode has the same for tags. If a tag has two
//! extensions `u`, the first counts: the second makes the tag invalid, but each call has a result for every tag. Of
//! repeated keys the first counts (RFC 6067 section 2.1). RFC 6497 leaves this open for `t`, so `t` follows the same
//! rule.
#![tactic(auto)]

mod alias;
mod alias_tables;
mod alphabet;
mod edited_subtags;
mod extension_form;
mod key_set;
mod key_values;
mod keys;
mod keyword_check;
mod keyword_edit;
mod keyword_error;
mod keyword_form;
mod language_id;
mod least_numbers;
mod subtags;
mod transform_form;

pub use keys::Keys;
pub use keyword_error::KeywordError;

// For this repository.
pub use alphabet::{are_few, is_before};
pub use extension_form::{is_of, push_extensions, push_unicode, subtags_of};
pub use key_set::KeySet;
pub use keyword_check::{invalid_type, is_unicode_key};
pub use keyword_edit::{KeywordEdit, Place, is_at, place_of_unicode, push_edited, push_rest};
pub use keyword_form::{key_of, offer_keys, push_keyword, push_keywords};
pub use language_id::{is_among, is_unicode_language, take_region, take_script};
pub use least_numbers::{FEW, LeastNumbers, MANY, order_number, push_numbers};
pub use subtags::{before_key, is_earlier_subtag, nonempty, preceding, split_first, value_in};
pub use transform_form::is_transform;
