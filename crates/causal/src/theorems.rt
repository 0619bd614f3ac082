// What follows from the definitions that the contracts speak through. Each function carries one theorem: its
// contract is the statement, and the crate is not proved without the proof. There is no code in them.
ghost use Rattle.causal.specs.Choosing.{OneOutcome, WithheldExactly, UnionFits};
ghost use Rattle.causal.specs.Posting.{OneDraft};
ghost use Rattle.causal.specs.Worked.{WorkedFacts};
ghost use Rattle.stamps.specs.declared.value.Value.{Value};

// Choosing has one outcome: what the cut holds, the keys moved and the answers withheld.
pub fn choosing_has_one_outcome()
    ensures { OneOutcome }
{}

// A newer answer is withheld exactly when no causal table made of the old cut and newer answers contains it.
pub fn withheld_exactly_when_none_contains_it()
    ensures { WithheldExactly }
{}

// Two sets of newer answers that fit make one that fits, so there is a largest one.
pub fn union_of_fitting_sets_fits()
    ensures { UnionFits }
{}

// Drafting a post has one answer.
pub fn drafting_has_one_answer()
    ensures { OneDraft }
{}

// The table of worked facts.
pub fn worked_facts()
    ensures { (value : Value) → WorkedFacts value }
{}
