ghost use Rattle.writers.specs.Rule.{Longest};

// What a writer takes of the bytes offered is the longest front that its rule accepts one after another.
pub fn longest_front()
    ensures { Longest }
{}
