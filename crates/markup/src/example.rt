// Small texts, taken or refused by hand.
ghost use Rattle.markup.specs.Samples.{SamplesStand};

/// Carries a theorem: which of some small texts the reader of the promises takes.
pub fn samples_stand()
    ensures { SamplesStand }
{}
