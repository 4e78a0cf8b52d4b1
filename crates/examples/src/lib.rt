// Worked examples of the definitions, as propositions that the check computes. They grow with the layers.
#![tactic(auto)]

ghost use Rattle.std.specs.Prelude.{◌≡◌, length};
ghost use Rattle.examples.specs.Examples.{AllHold, examples};
ghost use Rattle.examples.specs.Searches.{AllEndSo, search_examples};

// How many worked examples there are, all of which hold.
pub fn worked_examples() -> usize
    ensures hold { AllHold }
    ensures count { result ≡ length examples }
{
    12
}

// How many worked examples of searches there are, all of which hold.
pub fn worked_searches() -> usize
    ensures hold { AllEndSo }
    ensures count { result ≡ length search_examples }
{
    3
}
