//! What holds of all answers, proved as the contracts of functions that do nothing.
ghost use Rattle.std.specs.Prelude.{◌≡◌, ℕ, ◌<◌, ◌^◌, Bool, true, IsSome};
ghost use Rattle.serde_json.specs.Written.{compact_text};
ghost use Rattle.num_range.specs.Range.{PlainRange};
ghost use Rattle.reg_entry.specs.Register.{Register};
ghost use Rattle.reg_entry.specs.Sums.{narrowest};
ghost use Rattle.reg_entry.specs.Whole.{IsWholeRegister};
ghost use Rattle.rdap_query.specs.declared.ask.RdapAsk.{RdapAsk};
ghost use Rattle.wire_http.specs.ErrorBody.{error_text};
ghost use Rattle.rdap_json.specs.declared.facts.NetFacts.{NetFacts};
ghost use Rattle.rdap_json.specs.Network.{network_tree};
ghost use Rattle.rdap_json.specs.RdapAnswer.{TellAlike, facts_round, help_tree, error_tree, rdap_answer};
ghost use Rattle.rdap_json.specs.Tree.{names_rise};

use reg_laws::narrowest::narrowest_is_least;

/// An answer is made of the registration that is found, of its holder and of the number of entries, and of nothing else that
/// the register has.
#[tactic(auto, using(crate::proofs::Alike::answers_alike))]
pub fn answers_tell_what_is_found()
    ensures { (r s : Register) (ask : RdapAsk) → TellAlike r s ask → rdap_answer r ask ≡ rdap_answer s ask }
{}

/// In a whole register each registration that is found has a holder, so that an answer is missing only where nothing is found.
pub fn what_is_found_is_told()
    ensures { (r : Register) (range : PlainRange) → IsWholeRegister r → IsSome (narrowest r range)
        → IsSome (facts_round r range) }
{
    narrowest_is_least();
}

/// The names of the members rise in each object, in the order of their bytes.
#[tactic(auto, using(crate::proofs::Trees::network_names_rise))]
pub fn names_rise()
    ensures network { (facts : NetFacts) (inner : Bool) → names_rise (network_tree facts inner) ≡ true }
    ensures help { names_rise help_tree ≡ true }
    ensures error { (code entries : ℕ) (shut : Bool) → names_rise (error_tree code entries shut) ≡ true }
{}

/// The body of every error is compact JSON, as all others are.
pub fn errors_are_json()
    ensures { (code entries : ℕ) (shut : Bool) → entries < 2 ^ 64
        → error_text code entries shut ≡ compact_text (error_tree code entries shut) }
{}
