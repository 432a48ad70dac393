// The large reference programs and the refusals at their limits, computed by the definition: theorems alone, apart from `meaning` because they are slow to check.
#![tactic(auto)]
