//! What holds of all paths, proved as the contract of a function that does nothing.
ghost use Rattle.std.specs.Prelude.{◌≡◌, ℕ, List, Option};
ghost use Rattle.rdap_query.specs.Length.{AreShort};
ghost use Rattle.rdap_query.specs.Path.{SpellsPath};
ghost use Rattle.rdap_query.specs.declared.ask.RdapAsk.{RdapAsk as TheAsk};

use addr_text::spells_one;

/// A path asks for one thing.
pub fn paths_spell_one()
    ensures { (first : List ℕ) (second third : Option (List ℕ)) (a b : TheAsk)
        → SpellsPath first second third a → SpellsPath first second third b → a ≡ b }
{
    spells_one();
}

/// No segment of a path that asks for something is longer than 64 bytes.
pub fn paths_have_short_segments()
    ensures { (first : List ℕ) (second third : Option (List ℕ)) (ask : TheAsk) → SpellsPath first second third ask
        → AreShort first second third }
{}
