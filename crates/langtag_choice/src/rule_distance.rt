//! The distances of languages and of scripts, by the rules in the tables.
ghost use Rattle.std.specs.Prelude.{◌≡◌, ◌≤◌, ◌<◌, ◌==◌, map, length, slice_index_or, IsTrue};
ghost use Rattle.langtag_scan.specs.Grammar.{are_alike};
ghost use Rattle.langtag_text.specs.Numbers.{climbs_from, letter_number};
ghost use Rattle.langtag_choice.specs.Distance as spec;
ghost use Rattle.langtag_cldr.specs.Definitions.{without_region, key_number, field_texts};
ghost use Rattle.langtag_choice.specs.MatchingData.{language_rules, script_rules};
ghost use Rattle.langtag_choice.specs.Pairs.{language_pair, script_pair};

use crate::matching_tables as tables;
use langtag_cldr::{TagFields, key_number, language_number};
use langtag_scan::case_insensitive_eq;

/// Returns the distance of two languages.
#[tactic(auto, unfolding(crate::specs::Distance::language_distance))]
pub(crate) fn language_distance(desired: TagFields<'_>, supported: TagFields<'_>) -> u8
    ensures distance { result ≡ spec.language_distance (field_texts desired.entry) (field_texts supported.entry) }
    ensures most { result ≤ 80 }
    ensures equal { (result == 0) ≡ are_alike desired.entry.language.now supported.entry.language.now }
{
    if case_insensitive_eq(desired.language, supported.language) {
        return 0;
    }
    if desired.language.len().max(supported.language.len()) > 3 {
        return 80;
    }
    match language_rule_keys().binary_search(&language_pair(desired, supported)) {
        Ok(index) => language_rule_distance(index),
        Err(_) => 80,
    }
}

/// Returns the distance of two scripts, each with its language.
#[tactic(auto, unfolding(crate::specs::Distance::script_distance))]
pub(crate) fn script_distance(desired: TagFields<'_>, supported: TagFields<'_>) -> u8
    ensures distance { result ≡ spec.script_distance (field_texts desired.entry) (field_texts supported.entry) }
    ensures most { result ≤ 50 }
    ensures equal { (result == 0) ≡ are_alike desired.entry.script.now supported.entry.script.now }
{
    if case_insensitive_eq(desired.script, supported.script) {
        return 0;
    }
    if desired.language.len().max(supported.language.len()) > 3 {
        return 50;
    }
    match script_rule_keys().binary_search(&script_pair(desired, supported)) {
        Ok(index) => script_rule_distance(index),
        Err(_) => 50,
    }
}

/// Returns the number that stands for two languages.
fn language_pair(desired: TagFields<'_>, supported: TagFields<'_>) -> u32
    requires desired { length desired.language.now ≤ 3 }
    requires supported { length supported.language.now ≤ 3 }
    ensures number { result ≡ language_pair (field_texts desired.entry) (field_texts supported.entry) }
    ensures half { letter_number supported.entry.language.now < 32768 }
{
    language_number(desired.language) * 32768 + language_number(supported.language)
}

/// Returns the number that stands for two languages with their scripts.
fn script_pair(desired: TagFields<'_>, supported: TagFields<'_>) -> u64
    requires desired { length desired.language.now ≤ 3 }
    requires supported { length supported.language.now ≤ 3 }
    ensures number { result ≡ script_pair (without_region (field_texts desired.entry))
        (without_region (field_texts supported.entry)) }
    ensures half { key_number (without_region (field_texts supported.entry)) < 4294967296 }
{
    let supported = key_number(supported.without_region());
    u64::from(key_number(desired.without_region())) * 4294967296 + u64::from(supported)
}

#[tactic(auto, using(crate::proofs::MatchingTables::language_rules_listed))]
pub(crate) fn language_rule_keys() -> &'static [u32]
    ensures numbers { result.now ≡ map (λ rule. language_pair rule.desired rule.supported) language_rules }
    ensures climbs { IsTrue (climbs_from 0 result.now) }
    ensures count { length result.now ≡ length language_rules }
{
    &tables::LANGUAGE_RULE_KEYS
}

#[tactic(auto, using(crate::proofs::MatchingTables::script_rules_listed))]
fn script_rule_keys() -> &'static [u64]
    ensures numbers { result.now ≡ map (λ rule. script_pair rule.desired rule.supported) script_rules }
    ensures climbs { IsTrue (climbs_from 0 result.now) }
    ensures count { length result.now ≡ length script_rules }
{
    &tables::SCRIPT_RULE_KEYS
}

/// Returns the distance of the rule at an index. The distance is never 0.
#[tactic(auto, using(crate::proofs::MatchingTables::language_rules_listed))]
fn language_rule_distance(index: usize) -> u8
    requires { index < length language_rules }
    ensures distance { result ≡ slice_index_or (map (λ rule. rule.distance) language_rules) index 0 }
    ensures some { 1 ≤ result }
    ensures most { result ≤ 80 }
{
    tables::LANGUAGE_RULE_DISTANCES[index]
}

/// Returns the distance of the rule at an index. The distance is never 0.
#[tactic(auto, using(crate::proofs::MatchingTables::script_rules_listed))]
fn script_rule_distance(index: usize) -> u8
    requires { index < length script_rules }
    ensures distance { result ≡ slice_index_or (map (λ rule. rule.distance) script_rules) index 0 }
    ensures some { 1 ≤ result }
    ensures most { result ≤ 50 }
{
    tables::SCRIPT_RULE_DISTANCES[index]
}
