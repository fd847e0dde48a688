// What holds of every text, by the definitions alone.

ghost use Rattle.std.specs.Prelude.{◌≡◌, ℕ, ◌≤◌, ◌⊎◌, List, Some, slice_get};
ghost use Rattle.br_sexpr.specs.declared.tree.Tree.{Tree};
ghost use Rattle.br_sexpr.specs.declared.tree.TextFault.{TextFault};
ghost use Rattle.br_sexpr.specs.Between.{Alternates, offset_of};
ghost use Rattle.br_sexpr.specs.Faults.{wrong_at};
ghost use Rattle.br_sexpr.specs.Layout.{Piece, IsLayout};
ghost use Rattle.br_sexpr.specs.Reads.{Reads, HasFault};
ghost use Rattle.br_sexpr.specs.Token.{Token, tokens_of};

/// Each text reads as trees or has a fault, never both, and only one.
pub fn one_answer()
    ensures some { (text : List ℕ) →
        ((trees : List Tree) × Reads text trees) ⊎ ((f : TextFault) × HasFault text f) }
    ensures not_both { (text : List ℕ) (trees : List Tree) (f : TextFault) → Reads text trees →
        HasFault text f → ⊥ }
    ensures one_reading { (text : List ℕ) (ts us : List Tree) → Reads text ts →
        Reads text us → ts ≡ us }
    ensures one_fault { (text : List ℕ) (f g : TextFault) → HasFault text f →
        HasFault text g → f ≡ g }
{}

/// Each text is cut into pieces in one way.
pub fn one_layout()
    ensures some { (text : List ℕ) → (ps : List Piece) × IsLayout ps text }
    ensures one { (text : List ℕ) (ps qs : List Piece) → IsLayout ps text →
        IsLayout qs text → ps ≡ qs }
{}

/// Nothing but blanks and comments lies between the tokens of a text, before the first and after
/// the last.
pub fn only_gaps_between()
    ensures { (text : List ℕ) (ps : List Piece) → IsLayout ps text →
        Alternates 0 text (tokens_of 0 ps) }
{}

/// Of all that is wrong in a text, the fault has the lowest offset.
pub fn lowest_offset()
    ensures { (text : List ℕ) (f : TextFault) → HasFault text f
        → (ps : List Piece) → IsLayout ps text
        → (k : ℕ) (t : Token) (g : TextFault) → slice_get (tokens_of 0 ps) k ≡ Some t →
        wrong_at (tokens_of 0 ps) k t ≡ Some g
        → offset_of f ≤ offset_of g }
{}
