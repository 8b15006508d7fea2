//! Keywords and fields with their canonical values, in the order of their keys, written to an output.
ghost use Rattle.std.specs.Prelude.{◌≡◌, ◌≤◌, List, map, ℕ, All, filter, flat_map, option_map};
ghost use Rattle.langtag_scan.specs.Grammar.{AllByRecursion, join, subtags, IsSubtag};
ghost use Rattle.langtag_text.specs.Output.{Pushes};
ghost use Rattle.langtag_keyword.specs.Form as spec;
ghost use Rattle.langtag_keyword.specs.Keys.{canonical_value_of, opens_keyword};
ghost use Rattle.langtag_keyword.specs.Keywords.{value_of};
ghost use Rattle.langtag_keyword.specs.Least.{IsOffered, key_of, order_number};

use crate::alias::canonical_value;
use crate::alphabet::{are_few, push_each_lowercase};
use crate::key_set::{CHARACTERS, place_of};
use crate::key_values::values_after;
use crate::keys::Keys;
use crate::least_numbers::{FEW, LeastNumbers, MANY, order_number};
use crate::subtags::value_in;
use langtag_scan::Subtags;
use langtag_text::Output;

/// Appends the keywords of a string, each once, in the order of their keys.
///
/// The string is read once to find its keys, or several times if they are many. To find the values, it is read up to each
/// key, or once for each first character of the keys if there are more than 36.
pub fn push_keywords(out: &mut Output<'_>, text: &str, keys: Keys)
    requires { AllByRecursion IsSubtag (subtags text.now) }
    ensures { Pushes (spec.keywords_form (opens_keyword keys) (canonical_value_of keys) (subtags text.now)) out.old out.new }
{
    if are_few(Some(text)) {
        return push_with_room::<FEW>(out, text, keys);
    }
    push_with_room::<MANY>(out, text, keys);
}

/// Appends what [`push_keywords`] appends. Each walk over the subtags finds the next `ROOM / 2` keys, or more.
// This function is not inlined, so that callers with few subtags do not use the stack that many take.
#[inline(never)]
fn push_with_room<const ROOM: usize>(out: &mut Output<'_>, text: &str, keys: Keys)
    requires room { (2 ≤ ROOM) × (ROOM ≤ 1024) }
    requires subtags { AllByRecursion IsSubtag (subtags text.now) }
    ensures { Pushes (spec.keywords_form (opens_keyword keys) (canonical_value_of keys) (subtags text.now)) out.old out.new }
{
    let mut least = LeastNumbers::<ROOM>::new();
    let mut more = true;
    while more {
        offer_keys(&mut least, text, keys);
        least.sort();
        push_each(out, text, keys, least.kept());
        more = least.advance();
    }
}

/// Offers the number of each key among the subtags of a string.
pub fn offer_keys<const ROOM: usize>(least: &mut LeastNumbers<ROOM>, text: &str, keys: Keys)
    requires { AllByRecursion IsSubtag (subtags text.now) }
    ensures { IsOffered (map order_number (filter (opens_keyword keys) (subtags text.now))) least.old least.new }
{
    for subtag in Subtags::new(text) {
        if keys.has(subtag.as_bytes()) {
            least.offer(order_number(subtag.as_bytes()));
        }
    }
}

/// Appends the keywords whose keys have these numbers.
fn push_each(out: &mut Output<'_>, text: &str, keys: Keys, numbers: &[u64])
    requires subtags { AllByRecursion IsSubtag (subtags text.now) }
    requires numbers { All (λ number. IsSubtag (key_of number)) numbers.now }
    ensures { Pushes (flat_map (λ number. spec.keyword_form (opens_keyword keys) (canonical_value_of keys) (subtags text.now)
        (key_of number)) numbers.now) out.old out.new }
{
    if numbers.len() <= CHARACTERS {
        return push_each_of_few(out, text, keys, numbers);
    }
    push_each_of_many(out, text, keys, numbers);
}

/// Appends what [`push_each`] appends. The string is read up to each key.
fn push_each_of_few(out: &mut Output<'_>, text: &str, keys: Keys, numbers: &[u64])
    ensures { Pushes (flat_map (λ number. spec.keyword_form (opens_keyword keys) (canonical_value_of keys) (subtags text.now)
        (key_of number)) numbers.now) out.old out.new }
{
    for number in numbers {
        let key = key_of(*number);
        push_keyword(out, keys, key, value_in(text, keys, &key));
    }
}

/// Appends what [`push_each`] appends. The string is read once for each first character of the keys.
fn push_each_of_many(out: &mut Output<'_>, text: &str, keys: Keys, numbers: &[u64])
    requires subtags { AllByRecursion IsSubtag (subtags text.now) }
    requires numbers { All (λ number. IsSubtag (key_of number)) numbers.now }
    ensures { Pushes (flat_map (λ number. spec.keyword_form (opens_keyword keys) (canonical_value_of keys) (subtags text.now)
        (key_of number)) numbers.now) out.old out.new }
{
    let mut first = b'0';
    let mut values = values_after(first, text, keys);
    for number in numbers {
        let key = key_of(*number);
        if key[0] != first {
            first = key[0];
            values = values_after(first, text, keys);
        }
        push_keyword(out, keys, key, values[place_of(key[1])]);
    }
}

/// Returns the key that has a number.
pub fn key_of(number: u64) -> [u8; 2]
    ensures { result ≡ key_of number }
{
    let [first, second, ..] = number.to_be_bytes();
    [first, second]
}

/// Appends a key with its canonical value, if there is a value.
pub fn push_keyword(out: &mut Output<'_>, keys: Keys, key: [u8; 2], value: Option<&str>)
    ensures { (ss : List (List ℕ)) → option_map (λ v. v.now) value.entry ≡ option_map join (value_of (opens_keyword keys) key ss)
        → Pushes (spec.keyword_form (opens_keyword keys) (canonical_value_of keys) ss key) out.old out.new }
{
    if let Some(value) = value {
        out.push_subtag(&key);
        push_each_lowercase(out, canonical_value(keys, &key, value));
    }
}
