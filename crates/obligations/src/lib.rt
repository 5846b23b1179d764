// Obligations: the positions, charge lines and congestion fund of an hour, as definitions with their laws.
// A function here does nothing; its contract is a theorem about the definitions.
#![tactic(auto)]

ghost use Rattle.std.specs.Prelude.{◌≡◌, ℕ, ◌≤◌};
ghost use Rattle.obligations.specs.Charges.{participants, bill, fund};
ghost use Rattle.obligations.specs.Effects.{OnePass};
ghost use Rattle.obligations.specs.Limits.{Kept};
ghost use Rattle.obligations.specs.Positions.{Postings};
ghost use Rattle.obligations.specs.Sums.{sum_over};
ghost use Rattle.obligations.specs.Terms.{Terms};

// The sums over locations that define positions and charges are sums over the postings, taken once.
pub fn charges_in_one_pass()
    ensures { (b : Postings) → OnePass b }
{}

// With at most 64 participants, on any lawful terms, all bills together are the congestion fund.
pub fn bills_make_the_fund()
    ensures { (P : ℕ) (b : Postings) (t : Terms) → Kept P b → P ≤ 64 → sum_over (bill b t P) (participants P) ≡ fund b t P }
{}
