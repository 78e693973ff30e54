//! What holds of every text. Each law is the contract of a function that does nothing.

ghost use Rattle.std.specs.Prelude.{◌≡◌, ℕ, List, Result};
ghost use Rattle.base_types.specs.declared.path.DocPath.{DocPath};
ghost use Rattle.expr_words.specs.declared.given.Given.{Given};
ghost use Rattle.expr_words.specs.declared.parse_end.ParseEnd.{ParseEnd};
ghost use Rattle.expr_words.specs.Trees.{Tree, SectionTree};
ghost use Rattle.expr_words.specs.Words.{Word};
ghost use Rattle.expr_words.specs.Grammar.{IsCondition, ArePaths, IsUpdate};
ghost use Rattle.expr_parse.specs.UpdateTree.{UpdateTree};
ghost use Rattle.expr_parse.specs.Reading.{ReadsCondition, ReadsPaths, ReadsUpdate};

/// The grammar is unambiguous: no words are sentences for two trees, however many levels are left.
pub fn one_tree()
    ensures condition { (k : ℕ) (ts : List Word) (t u : Tree)
        → IsCondition k ts t → IsCondition k ts u → t ≡ u }
    ensures paths { (ts : List Word) (ps qs : List DocPath)
        → ArePaths ts ps → ArePaths ts qs → ps ≡ qs }
    ensures update { (k : ℕ) (ts : List Word) (cs ds : List SectionTree)
        → IsUpdate k ts cs → IsUpdate k ts ds → cs ≡ ds }
{}

/// A text reads in one way only: as one tree, or with one fault.
#[tactic(auto, using(crate::proofs::Readings::condition_once, crate::proofs::Readings::paths_once, crate::proofs::Readings::update_once))]
pub fn one_reading()
    ensures condition { (given : Given) (text : List ℕ) (r s : Result Tree ParseEnd)
        → ReadsCondition given text r → ReadsCondition given text s → r ≡ s }
    ensures paths { (given : Given) (text : List ℕ) (r s : Result (List DocPath) ParseEnd)
        → ReadsPaths given text r → ReadsPaths given text s → r ≡ s }
    ensures update { (given : Given) (text : List ℕ) (r s : Result UpdateTree ParseEnd)
        → ReadsUpdate given text r → ReadsUpdate given text s → r ≡ s }
{
    expr_lexer::one_reading();
}
