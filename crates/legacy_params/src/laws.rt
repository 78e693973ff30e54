//! What holds of all legacy parameters. Each law is the contract of a function that does nothing.

ghost use Rattle.std.specs.Prelude.{◌≡◌, ◌≢◌, ◌≤◌, ◌↔◌, ℕ, Bool, List, ◌∷◌, None, Some, Ok, map, length, AllPairs};
ghost use Rattle.base_types.specs.declared.path.DocPath.{DocPath};
ghost use Rattle.expr_words.specs.declared.given.Given.{Given};
ghost use Rattle.expr_words.specs.Trees.{Tree};
ghost use Rattle.expr_words.specs.Grammar.{IsCondition, ArePaths};
ghost use Rattle.expr_parse.specs.Overlaps.{HaveOverlap};
ghost use Rattle.expr_parse.specs.Reading.{most_bytes, ReadsCondition, ReadsPaths, ReadsUpdate};
ghost use Rattle.expr_parse.specs.UpdateTree.{UpdateTree};
ghost use Rattle.legacy_params.specs.declared.part.LegacyTest.{LegacyTest};
ghost use Rattle.legacy_params.specs.declared.part.LegacyChange.{LegacyChange};
ghost use Rattle.legacy_params.specs.Faults.{faults_of};
ghost use Rattle.legacy_params.specs.Trees.{condition_of, update_of, path_to};
ghost use Rattle.legacy_params.specs.Texts.{condition_text, update_text, paths_text};
ghost use Rattle.legacy_params.specs.Sentences.{SpellsUpdate};
ghost use Rattle.legacy_params.specs.Spelled.{IsSpelled};

/// The expression that took the place of legacy parameters is, as words of the grammar, a sentence of their tree, and of
/// no other: for all tests without a fault, all changes and all names.
pub fn one_meaning()
    ensures condition { (levels first : ℕ) (any for_keys : Bool) (test : LegacyTest) (tests : List LegacyTest) (t : Tree)
        → 2 ≤ levels → faults_of for_keys (test ∷ tests) ≡ None
        → (IsCondition levels (condition_text any first (test ∷ tests)) t
        ↔ (condition_of any first (test ∷ tests) ≡ Some t)) }
    ensures update { (levels first : ℕ) (change : LegacyChange) (changes : List LegacyChange) (u : UpdateTree)
        → (SpellsUpdate levels (update_text first (change ∷ changes)) u
        ↔ (update_of first (change ∷ changes) ≡ Some u)) }
    ensures paths { (name : List ℕ) (names : List (List ℕ)) (paths : List DocPath)
        → (ArePaths (paths_text (name ∷ names)) paths ↔ (paths ≡ map path_to (name ∷ names))) }
{
    // Its clause, that words are a sentence of one tree, gives "no other"; it does nothing.
    expr_parse::one_tree();
}

/// Bytes that spell such an expression, at most 4,096 of them, read as its tree. Whether bytes spell it is computed of
/// one example for each form (`specs/Worked.antt`).
pub fn spelled_texts_read()
    ensures condition { (given : Given) (text : List ℕ) (any for_keys : Bool) (first : ℕ)
        (test : LegacyTest) (tests : List LegacyTest) (t : Tree)
        → IsSpelled given text (condition_text any first (test ∷ tests)) → length text ≤ most_bytes
        → faults_of for_keys (test ∷ tests) ≡ None → condition_of any first (test ∷ tests) ≡ Some t
        → ReadsCondition given text (Ok t) }
    ensures update { (given : Given) (text : List ℕ) (change : LegacyChange) (changes : List LegacyChange) (u : UpdateTree)
        → AllPairs (λ one other. one.name ≢ other.name) (change ∷ changes)
        → IsSpelled given text (update_text 0 (change ∷ changes)) → length text ≤ most_bytes
        → update_of 0 (change ∷ changes) ≡ Some u → ReadsUpdate given text (Ok u) }
    ensures paths { (given : Given) (text name : List ℕ) (names : List (List ℕ))
        → ¬ HaveOverlap (map path_to (name ∷ names))
        → IsSpelled given text (paths_text (name ∷ names)) → length text ≤ most_bytes
        → ReadsPaths given text (Ok (map path_to (name ∷ names))) }
{}
