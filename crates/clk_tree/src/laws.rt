//! What the definitions of a plan say: a law is a function that does nothing and whose contract is the law.

ghost use Rattle.clk_tree.specs.Laws.{TextsHaveOneMeaning};

/// A text denotes a plan or has a fault, never both, and no second plan or fault. Fault 1 is never the fault of a text. So `Plan::read`,
/// unless it returns fault 1, returns the plan that the text denotes, or else the fault that the text has.
pub fn texts_have_one_meaning()
    ensures { TextsHaveOneMeaning }
{}
