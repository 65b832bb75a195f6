//! How a text of factors is cut into items.
ghost use Rattle.std.specs.Prelude.{◌≡◌, ◌<◌, ◌∷◌, length, IfSome};
ghost use Rattle.std.specs.List.{slice_split};
ghost use Rattle.std.specs.Option.{option_map};
ghost use Rattle.shells.specs.FactorText.{is_comma, items_behind};

use minelib_reader::cut;

/// The first item of a text, and what stands behind its comma, where it has one.
pub fn next_item(text: &[u8]) -> (&[u8], Option<&[u8]>)
    ensures items { slice_split is_comma text.now ≡ result.0.now ∷ items_behind (option_map (λ rest. rest.now) result.1) }
    ensures shorter { IfSome result.1 (λ rest. length rest.now < length text.now) }
{
    match cut(text, b',') {
        None => (text, None),
        Some((item, rest)) => (item, Some(rest)),
    }
}
