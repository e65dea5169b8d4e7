//! What holds of the definitions themselves: each function has an empty body, and its contract is the law.
ghost use Rattle.std.specs.Prelude.{◌≡◌, ℕ};
ghost use Rattle.wiki_markup.specs.declared.marked.ShownText.{ShownText};
ghost use Rattle.wiki_markup.specs.Trees.{Trees, preorder, pairing, marked_of};
ghost use Rattle.wiki_markup.specs.Formed.{Standing, Formed};
ghost use Rattle.expand_meaning.specs.Places.{trees_at, ReadBack};

/// The trees that nodes are read as are those whose preorder the nodes are; those of a paired text are its pairing.
#[tactic(auto, using(crate::proofs::ReadLaws::read_back_at, crate::proofs::ReadLaws::read_back, crate::proofs::ReadLaws::pairing_back))]
pub fn trees_read_back()
    ensures trees { (s : Standing) (t : Trees) (at : ℕ) → Formed s t → trees_at at (preorder at t) ≡ t }
    ensures nodes { ReadBack }
    ensures paired { (s : ShownText) → trees_at 0 (marked_of s) ≡ pairing s }
{}
