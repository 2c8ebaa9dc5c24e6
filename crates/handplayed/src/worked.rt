// The examples worked by hand, shown from the rules: one fact about one table.
ghost use Rattle.handplayed.specs.Table.{WorkedExamplesStand};

/// Nothing to run: the contract is the table of examples.
pub fn worked_examples_stand()
    ensures { WorkedExamplesStand }
{}
