// No function: theorems of what callers get, from the theorems about the definition. Apart from `meaning`, since no edit of the definition is judged by them.
#![tactic(auto)]
