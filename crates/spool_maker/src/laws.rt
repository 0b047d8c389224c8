//! Laws on the text of a spool that is made.
ghost use Rattle.std.specs.Prelude.{◌≡◌, ◌≤◌, ◌++◌, ℕ, ℤ, List, length};
ghost use Rattle.made_spec.specs.spool_spec.Spool.{SpoolOf, whole};
ghost use Rattle.made_spec.specs.Made.{made_text};
ghost use Rattle.spool_maker.specs.Items.{made_items};

/// The text of `count` items is a spool of `count` commands, whenever they are received.
pub fn made_text_is_a_spool(seed: u64, count: u32)
    ensures spool { (received : ℤ) → SpoolOf received (made_text seed count) (made_items received seed count) whole }
    ensures count { (received : ℤ) → length (made_items received seed count) ≡ count }
{}

/// The text of fewer items is a prefix of the text of more items.
pub fn fewer_items_are_a_front(seed: u64, few: u32, many: u32)
    ensures { few ≤ many → (rest : List ℕ) × (made_text seed many ≡ made_text seed few ++ rest) }
{}
