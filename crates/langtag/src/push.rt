//! Parts of a tag that are appended to an output.
ghost use Rattle.std.specs.Prelude.{◌≡◌, Option, option_map};
ghost use Rattle.langtag_scan.specs.Grammar.{join};
ghost use Rattle.langtag_text.specs.Output.{Pushes};
ghost use Rattle.langtag_private.specs.Text.{private_use_text};
ghost use Rattle.langtag_scan.specs.Record as model;

use langtag_private::PrivateUse;
use langtag_text::Output;

/// Appends the private use part, if there is one.
pub fn push_private_use(out: &mut Output<'_>, private_use: Option<PrivateUse<'_>>)
    ensures { (part : Option model.PrivateUse) → option_map private_use_text private_use.entry
        ≡ option_map (λ p. join (model.private_use_flat p)) part → Pushes (model.private_part_flat part) out.old out.new }
{
    if let Some(private_use) = private_use {
        out.push_subtag(private_use.as_bytes());
    }
}
