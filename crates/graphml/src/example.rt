// A small file, read by hand.
ghost use Rattle.graphml.specs.Samples.{SamplesStand};

/// Nothing to run: what the readers of the promises read of that file is computed in its contract.
pub fn reading_stands()
    ensures { SamplesStand }
{}
