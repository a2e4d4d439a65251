//! Laws of what is written behind the replies.

ghost use Rattle.std.specs.Prelude.{◌≡◌, ◌<◌, ℕ, List, true, length};
ghost use Rattle.subtree_memo.specs.declared.tally.Tally.{Tally};
ghost use Rattle.script_reader.specs.declared.script.ClientScript.{ClientScript};
ghost use Rattle.script_service.specs.Endings.{ending};

use plain_text::one_numeral;

/// The lines behind the replies of a run have one reading: those that are equal are of one tally, and with a
/// share above 0 of the same weights of the clients' entries.
pub fn one_ending()
    ensures tally { (share : ℕ) (clients : List ClientScript) (s t : Tally) (v w : List ℕ) →
        ending true share clients s v ≡ ending true share clients t w → s ≡ t }
    ensures shares { (share : ℕ) (clients : List ClientScript) (s t : Tally) (v w : List ℕ)
        → 0 < share →
        length v ≡ length clients → length w ≡ length clients →
        ending true share clients s v ≡ ending true share clients t w → v ≡ w }
{
    // Called for its law; does nothing when it runs: a numeral has one number.
    one_numeral();
}
