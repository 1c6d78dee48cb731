// What is meant by a zone, its chain, a question and a judgement: definitions, and examples shown of them.
#![tactic(auto)]

ghost use Rattle.std.specs.Prelude.{◌≡◌, true};
ghost use Rattle.model.specs.Examples.{Examples};

// The definitions give what is expected of four small zones.
pub fn examples_hold() -> bool
    ensures answer { result ≡ true }
    ensures examples { Examples }
{
    true
}
