// Worked examples as theorems: the checker computes each of them.
#![tactic(auto)]

ghost use Rattle.std.specs.Prelude.{◌≡◌, length};
ghost use Rattle.worked.specs.Examples.{Each, Says, examples};

// Every example of the list holds. The answer is how many there are.
pub fn examples_hold() -> usize
    ensures count { result ≡ length examples }
    ensures all { Each Says examples }
{
    14
}
