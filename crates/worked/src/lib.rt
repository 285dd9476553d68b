// Worked cases of the format and the rules, as one theorem.
#![tactic(auto)]

ghost use Rattle.worked.specs.Cases.{WorkedCases};

// Every case of the table holds of the definitions that the contracts of the code cite.
pub fn worked_cases()
    ensures { WorkedCases }
{}
