//! Looking strings up in lists of replacements.
ghost use Rattle.std.specs.Prelude.{◌≡◌, map, option_map};
ghost use Rattle.langtag_text.specs.Alias.{alias_for, type_alias_for};

use langtag_scan::case_insensitive_eq;

/// Returns the replacement of a string, if there is one.
pub fn alias_for(rows: &'static [(&'static str, &'static str)], text: &[u8]) -> Option<&'static str>
    ensures { option_map (λ t. t.now) result
        ≡ alias_for (map (λ row. record { old = row.0.now; new = row.1.now }) rows.now) text.now }
{
    let mut rows = rows;
    while let [(old, new), others @ ..] = rows {
        if case_insensitive_eq(old.as_bytes(), text) {
            return Some(new);
        }
        rows = others;
    }
    None
}

/// Returns the replacement of a type of a key, if there is one.
pub fn type_alias_for(
    rows: &'static [(&'static str, &'static str, &'static str)],
    key: &[u8],
    text: &[u8],
) -> Option<&'static str>
    ensures { option_map (λ t. t.now) result
        ≡ type_alias_for (map (λ row. record { key = row.0.now; old = row.1.now; new = row.2.now }) rows.now) key.now text.now }
{
    let mut rows = rows;
    while let [(of, old, new), others @ ..] = rows {
        if case_insensitive_eq(of.as_bytes(), key) && case_insensitive_eq(old.as_bytes(), text) {
            return Some(new);
        }
        rows = others;
    }
    None
}
