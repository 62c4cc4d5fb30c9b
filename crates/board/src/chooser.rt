//! Who chooses the row of a mark.
ghost use Rattle.std.specs.Prelude.{◌≡◌, ℕ, true};
ghost use Rattle.rules.specs.declared.asked.Asked.{Asked as Question};
ghost use Rattle.rules.specs.Choosers.{Meaning, vacant_in, answer_of, held_by};

use rules::asked::Asked;

/// A row chooser. It answers nothing exactly when no row is vacant.
pub trait Chooser {
    // the row it would pick, and what it then holds
    ghost meaning: { Meaning Self };

    fn choose(&mut self, asked: Asked) -> Option<u32>
        ensures answer { result ≡ answer_of meaning self.old asked }
        ensures held { self.new ≡ held_by meaning self.old asked };

    // wherever a row is vacant, it means a vacant one
    ghost lawful: { (s : Self) (q : Question) (row : ℕ) → vacant_in q.mask row ≡ true → vacant_in q.mask (meaning.row s q) ≡ true };
}
